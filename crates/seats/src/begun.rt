//! Which incarnations have begun.
ghost use Rattle.std.specs.Prelude.{◌≡◌};
ghost use Rattle.messages.specs.rule.Members.{members_state};
ghost use Rattle.seats.specs.rule.Steps.{has_begun};

use messages::Members;
use model::Host;

/// Whether the node has begun in this incarnation.
pub(crate) fn has_begun(members: &Members, host: Host) -> bool
    ensures { result ≡ has_begun (members_state members.now.nodes) host }
{
    if members.declared(host.node, host.incarnation) {
        return true;
    }
    match members.alive(host.node) {
        Some(live) => live == host.incarnation,
        None => false,
    }
}
