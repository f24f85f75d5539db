//! The number that names a call in the whole cluster.
ghost use Rattle.std.specs.Prelude.{◌≡◌};
ghost use Rattle.model.specs.rule.Owners.{host_of_call};

use crate::host::Host;
use std::marker::Model;

/// The number of a call: its node (1 to 64), the node's incarnation (from 1) and the call's number
/// in that incarnation (from 1).
#[derive(Clone, Copy, Debug, PartialEq, Eq, Hash)]
pub struct CallId {
    pub node: u8,
    pub incarnation: u16,
    pub number: u32,
}

impl Model for CallId {
    ghost use Rattle.model.specs.rule.Limits.{CallFields, IsCall};

    ghost Value = { CallFields };

    ghost view = { λ c. record { node = c.node; incarnation = c.incarnation; number = c.number } };

    ghost invariant = { λ c. IsCall (record { node = c.node; incarnation = c.incarnation; number = c.number }) };

    ghost inverse = { λ c. record { node = c.node; incarnation = c.incarnation; number = c.number } };
}

impl CallId {
    /// The node and the incarnation that made the call.
    pub fn host(&self) -> Host
        ensures { result ≡ host_of_call self.now }
    {
        Host {
            node: self.node,
            incarnation: self.incarnation,
        }
    }
}
