//! The reasons why logs make no journal.
ghost use Rattle.std.specs.Prelude.{◌≡◌};
ghost use Rattle.merges.specs.declared.merge_error.MergeError.TheVariants.{NoMemory};

use messages::Actor;
use std::alloc::AllocError;
use thiserror::Error;

/// The reason why logs make no journal.
#[derive(Clone, Copy, Debug, PartialEq, Eq, Error)]
pub enum MergeError {
    /// A request for memory was refused. This says nothing of the logs.
    #[error("no memory")]
    NoMemory,
    /// Two logs are of this incarnation of the actor.
    #[error("two logs of one incarnation")]
    TwoLogs(Actor, u16),
    /// In each order in which the entries are a run there are more of them than a journal may have.
    #[error("more entries than a journal may have")]
    JournalFull,
    /// In no order that the clocks allow are the entries a run.
    #[error("no order in which the entries are a run")]
    NoOrder,
}

impl From<AllocError> for MergeError {
    ghost from_gives = { λ error made. made ≡ NoMemory };

    fn from(_error: AllocError) -> MergeError {
        MergeError::NoMemory
    }
}
