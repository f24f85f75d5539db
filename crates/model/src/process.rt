//! A process, named by its node, the node's incarnation and a number.
use std::marker::Model;

/// A process, named by its node (1 to 64), the node's incarnation (from 1) and the number of the
/// process there (1 to 256).
#[derive(Clone, Copy, Debug, PartialEq, Eq)]
pub struct Process {
    pub node: u8,
    pub incarnation: u16,
    pub pid: u16,
}

impl Model for Process {
    ghost use Rattle.std.specs.Prelude.{◌≤◌};
    ghost use Rattle.model.specs.rule.Limits.{ProcessFields, IsProcess};

    ghost Value = { ProcessFields };

    ghost view = { λ p. record { node = p.node; incarnation = p.incarnation; pid = p.pid } };

    ghost invariant = { λ p. IsProcess (record { node = p.node; incarnation = p.incarnation; pid = p.pid }) };

    ghost inverse = { λ p. record { node = p.node; incarnation = p.incarnation; pid = p.pid } };
}
