//! The reasons why a script's run on threads did not come to its end.
ghost use Rattle.std.specs.Prelude.{◌≡◌};
ghost use Rattle.thread_runs.specs.declared.run_error.RunError.TheVariants.{NoMemory};

use cluster_core::Journal;
use std::alloc::{AllocError, AllocFailed};
use std::fmt;
use thiserror::Error;

/// The reason why a run on threads did not come to its end.
#[derive(Drop, Error)]
pub enum RunError {
    /// A request for memory or for a thread was refused.
    #[error("no memory")]
    NoMemory,
    /// The number, from 1, of the first line of the script that can't be run on threads.
    #[error("bad line {0}")]
    BadLine(u32),
    /// The run needs more entries than a journal may have. This journal has no room for another.
    #[error("journal full")]
    JournalFull(Journal),
}

// The entries of a full journal are not printed.
impl fmt::Debug for RunError {
    fn fmt<W: fmt::Write>(&self, f: &mut fmt::Formatter<W>) -> fmt::Result {
        match self {
            RunError::NoMemory => f.write_str("NoMemory"),
            RunError::BadLine(line) => write!(f, "BadLine({line})"),
            RunError::JournalFull(_) => f.write_str("JournalFull"),
        }
    }
}

impl From<AllocError> for RunError {
    ghost from_gives = { λ error made. made ≡ NoMemory };

    fn from(_error: AllocError) -> RunError {
        RunError::NoMemory
    }
}

impl<T: Drop> From<AllocFailed<T>> for RunError {
    ghost from_gives = { λ error made. made ≡ NoMemory };

    fn from(_error: AllocFailed<T>) -> RunError {
        RunError::NoMemory
    }
}
