//! The reasons for which a text is no script, or no journal.
ghost use Rattle.std.specs.Prelude.{◌≡◌};
ghost use Rattle.lockscript.specs.declared.error.ParseError.TheVariants.{NoMemory};

use std::alloc::AllocError;
use thiserror::Error;

/// A reason for which a text is no script, or no journal.
#[derive(Clone, Copy, Debug, PartialEq, Eq, Error)]
pub enum ParseError {
    /// A request for memory was refused.
    #[error("no memory")]
    NoMemory,
    /// The number, from 1, of the first line that may not stand where it does. If no line is bad
    /// but one is missing (the cluster line of a script, the last line of a journal), it is the
    /// number after the last line.
    #[error("bad line {0}")]
    BadLine(u64),
}

impl From<AllocError> for ParseError {
    ghost from_gives = { λ error made. made ≡ NoMemory };

    fn from(_error: AllocError) -> ParseError {
        ParseError::NoMemory
    }
}
