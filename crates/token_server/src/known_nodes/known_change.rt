//! The change that an event makes of what a token server knows of one node.
ghost use Rattle.std.specs.Prelude.{◌≡◌};
ghost use Rattle.token_server.specs.code.Rows.{dropped_to, dead_after, may_bar};

use intervals::span::Span;
use messages::TokenRuns;
use model::{Host, Mode};

/// The change that an event makes of what a server knows of one node.
#[derive(Drop)]
pub enum KnownChange {
    /// An incarnation is known to be dead, and so are those before it.
    Forgotten { incarnation: u16 },
    /// The node asks in the host's incarnation. Incarnations before it are known to be dead. A new row begins its
    /// commands after `begin`.
    Asked { host: Host, begin: u64 },
    /// The node answered its command; its token stays.
    Answered,
    /// The node answered its command by giving up the span for the mode.
    Relieved { span: Span, mode: Mode },
    /// The node answered its Hello: it reported its token, as these runs.
    Reported { runs: TokenRuns },
}

/// The change of one node, by its number.
#[derive(Drop)]
pub struct Changed {
    pub node: u8,
    pub change: KnownChange,
}

impl KnownChange {
    /// The incarnation up to which the change drops the node's requests, if it drops any.
    pub fn dropped_to(&self) -> Option<u16>
        ensures { result ≡ dropped_to self.now }
    {
        match self {
            KnownChange::Forgotten { incarnation } => Some(*incarnation),
            KnownChange::Asked { host, .. } => Some(host.incarnation - 1),
            KnownChange::Answered | KnownChange::Relieved { .. } | KnownChange::Reported { .. } =>
                None,
        }
    }

    /// The greatest dead incarnation of the node after the change, where it was `dead` before.
    pub fn dead_after(&self, dead: u16) -> u16
        ensures { result ≡ dead_after self.now dead }
    {
        match self.dropped_to() {
            Some(incarnation) => dead.max(incarnation),
            None => dead,
        }
    }

    /// Whether the change may make the node's row block a request that it did not block before.
    pub fn may_bar(&self) -> bool
        ensures { result ≡ may_bar self.now }
    {
        matches!(self, KnownChange::Reported { .. })
    }
}
