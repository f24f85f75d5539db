//! The reasons why a list of entries is no journal.
ghost use Rattle.std.specs.Prelude.{◌≡◌};
ghost use Rattle.cluster_core.specs.declared.check_error.CheckError.TheVariants.{NoMemory};

use std::alloc::AllocError;
use thiserror::Error;

/// The reason why entries that a caller hands in are no journal.
#[derive(Clone, Copy, Debug, PartialEq, Eq, Error)]
pub enum CheckError {
    /// A request for memory was refused. This says nothing of the entries.
    #[error("no memory")]
    NoMemory,
    /// There are more entries than a journal may have: more than 1,048,576.
    #[error("more entries than a journal may have")]
    JournalFull,
    /// The position, from 1, of the first entry that is not the next step of the cluster. The entries before it are a
    /// run; after them its event is refused, or makes another entry.
    #[error("entry {0} is not the next step")]
    NotARun(u32),
}

impl From<AllocError> for CheckError {
    ghost from_gives = { λ error made. made ≡ NoMemory };

    fn from(_error: AllocError) -> CheckError {
        CheckError::NoMemory
    }
}
