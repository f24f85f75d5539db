//! The file, the owner and the bytes that a lock call is about.
use crate::owner::Owner;
use intervals::span::Span;
use std::marker::Model;

/// What a lock call is about: a file by its number, the owner of the lock, and the bytes.
#[derive(Clone, Copy, Debug, PartialEq, Eq)]
pub struct LockTarget {
    pub file: u16,
    pub owner: Owner,
    pub span: Span,
}

impl Model for LockTarget {
    ghost use Rattle.model.specs.rule.Table.{LockTarget as LockTargetFields};

    ghost Value = { LockTargetFields };

    ghost view = { λ c. record { file = c.file; owner = c.owner; span = c.span } };

    ghost inverse = { λ t. record { file = t.file; owner = t.owner; span = t.span } };
}
