//! A node in one of its incarnations.
use std::marker::Model;

/// A node (1 to 64) in one of its incarnations (from 1): each restart of the node is a new one.
#[derive(Clone, Copy, Debug, PartialEq, Eq, Hash)]
pub struct Host {
    pub node: u8,
    pub incarnation: u16,
}

impl Model for Host {
    ghost use Rattle.model.specs.rule.Limits.{HostFields, IsHost};

    ghost Value = { HostFields };

    ghost view = { λ h. record { node = h.node; incarnation = h.incarnation } };

    ghost invariant = { λ h. IsHost h.node h.incarnation };

    ghost inverse = { λ h. record { node = h.node; incarnation = h.incarnation } };
}
