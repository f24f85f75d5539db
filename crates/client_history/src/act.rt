//! The act of a call: what it did to the locks of its file.
use crate::told_lock::ToldLock;
use intervals::span::Span;
use model::Mode;

/// The act of a call on the locks of its file, as its client saw it.
#[derive(Clone, Copy, Debug, PartialEq, Eq)]
pub enum Act {
    /// The owner got the bytes in the mode: a set or a wait that is done.
    Locks {
        mode: Mode,
        span: Span,
    },
    /// A lock of another owner blocked the call: a set that is refused, or a query that found one.
    IsDenied {
        mode: Mode,
        span: Span,
        told: ToldLock,
    },
    /// No lock of another owner would block the mode on the bytes: a query that found none.
    IsFree {
        mode: Mode,
        span: Span,
    },
    /// The owner gave the bytes back: an unlock.
    Frees {
        span: Span,
    },
    /// The owner lost all its locks in the file: a close, a last close, an exit.
    Drops,
}
