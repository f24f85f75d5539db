//! The test whether a history can be searched.
ghost use Rattle.std.specs.Prelude.{◌≡◌, ◌≤◌, ℕ, true, IsTrue, Some};
ghost use Rattle.client_history.specs.declared.act.Act.TheVariants.{Drops};
ghost use Rattle.client_history.specs.rule.Explained.{always};
ghost use Rattle.client_history.specs.code.Search.{AreSound, IsSound, MayFollow};

use crate::{Act, ClientCall, changes};

/// Whether no call ends before it begins, each exit drops its owner's locks, and each call that follows another
/// follows one of its own owner, where both change locks.
pub(crate) fn are_sound(calls: &[ClientCall]) -> bool
    ensures { IsTrue result → AreSound calls.now }
{
    for call in calls {
        if !is_sound(calls, call) {
            return false;
        }
    }
    true
}

// Whether the call is as `are_sound` asks of each.
fn is_sound(calls: &[ClientCall], call: &ClientCall) -> bool
    ensures { IsTrue result → IsSound calls.now call.now }
{
    is_ordered(call) && drops_as_last(call) && may_follow(calls, call)
}

// Whether the call ends no earlier than it begins, if it ends.
fn is_ordered(call: &ClientCall) -> bool
    ensures timed { (end : ℕ) → call.now.end ≡ Some end → end ≤ always }
    ensures ordered { IsTrue result → (end : ℕ) → call.now.end ≡ Some end → call.now.begin ≤ end }
{
    match call.end {
        Some(end) => call.begin <= end,
        None => true,
    }
}

// Whether the call drops its owner's locks, if it is an exit.
fn drops_as_last(call: &ClientCall) -> bool
    ensures { IsTrue result → call.now.is_last ≡ true → call.now.act ≡ Drops }
{
    !call.is_last || call.act == Act::Drops
}

// Whether the call that this one follows, if there is one, is of the same owner, and both change locks.
fn may_follow(calls: &[ClientCall], call: &ClientCall) -> bool
    ensures { IsTrue result → (first : ℕ) → call.now.follows ≡ Some first → MayFollow calls.now first call.now }
{
    let Some(first) = call.follows else {
        return true;
    };
    let Some(before) = calls.get(first) else {
        return false;
    };
    before.owner == call.owner && changes(&before.act) && changes(&call.act)
}
