//! What a client was told of a lock that blocked it.
use intervals::span::Span;
use model::{Mode, Owner};

/// What a client was told of a lock that blocked it, which may be little: nothing by F_SETLK; by F_GETLK the mode and
/// the bytes of a region, and the owner where its number says which.
#[derive(Clone, Copy, Debug, PartialEq, Eq)]
pub struct ToldLock {
    pub mode: Option<Mode>,
    pub span: Option<Span>,
    pub owner: Option<Owner>,
}
