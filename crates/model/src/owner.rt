//! The owners of locks, and the two kinds of them.
use std::marker::Model;

/// The kind of an owner: a process (POSIX.1-2017 `fcntl()`, F_SETLK) or an open file description
/// (Linux `fcntl(2)`, F_OFD_SETLK).
#[derive(Clone, Copy, Debug, PartialEq, Eq, PartialOrd, Ord, Hash)]
pub enum Kind {
    OfProcess,
    OfDescription,
}

/// An owner of locks: a process or an open file description, named by its node (1 to 64), the
/// node's incarnation (from 1) and a number on that node (1 to 256 for a process, 1 to 16,384 for a
/// description). Owners are ordered by node, then incarnation, then kind (processes before
/// descriptions), then number.
#[derive(Clone, Copy, Debug, PartialEq, Eq, PartialOrd, Ord, Hash)]
pub struct Owner {
    pub node: u8,
    pub incarnation: u16,
    pub kind: Kind,
    pub number: u16,
}

impl Model for Owner {
    ghost use Rattle.model.specs.rule.Limits.{OwnerFields, IsOwner};

    ghost Value = { OwnerFields };

    ghost view = { λ o. record { node = o.node; incarnation = o.incarnation; kind = o.kind; number = o.number } };

    ghost invariant = { λ o. IsOwner (record { node = o.node; incarnation = o.incarnation; kind = o.kind; number = o.number }) };

    ghost inverse = { λ o. record { node = o.node; incarnation = o.incarnation; kind = o.kind; number = o.number } };
}
