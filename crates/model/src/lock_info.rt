//! A lock as replies name it.
use crate::mode::Mode;
use crate::owner::Owner;
use intervals::span::Span;

/// A region: a longest run of bytes of a file that one owner has locked in one mode.
#[derive(Clone, Copy, Debug, PartialEq, Eq, Hash)]
pub struct LockInfo {
    pub owner: Owner,
    pub mode: Mode,
    pub span: Span,
}
