//! The reasons for which a change of locks is refused.
use std::alloc::AllocError;
use thiserror::Error;

/// A reason for which a call left the locks as they were.
#[derive(Clone, Copy, Debug, PartialEq, Eq, Error)]
pub enum LockError {
    /// A request for memory was refused.
    #[error("no memory")]
    NoMemory,
    /// The owner would have more regions in the file than the table's limit (POSIX.1-2017 `fcntl()`, ENOLCK).
    #[error("too many regions of one owner in one file")]
    NoLocks,
}

impl From<AllocError> for LockError {
    ghost use Rattle.std.specs.Prelude.{◌≡◌};
    ghost use Rattle.lock_table.specs.declared.error.LockError.TheVariants.{NoMemory};

    ghost from_gives = { λ error made. made ≡ NoMemory };

    fn from(_error: AllocError) -> Self {
        LockError::NoMemory
    }
}
