//! The reasons for which a script isn't run to its end.
ghost use Rattle.std.specs.Prelude.{◌≡◌};
ghost use Rattle.lockscript.specs.declared.play_error.PlayError.TheVariants.{NoMemory};

use std::alloc::AllocError;
use thiserror::Error;

/// A reason for which a script isn't run to its end.
#[derive(Clone, Copy, Debug, PartialEq, Eq, Error)]
pub enum PlayError {
    /// A request for memory was refused.
    #[error("no memory")]
    NoMemory,
    /// The run needs more entries than a journal may have.
    #[error("journal full")]
    JournalFull,
}

impl From<AllocError> for PlayError {
    ghost from_gives = { λ error made. made ≡ NoMemory };

    fn from(_error: AllocError) -> PlayError {
        PlayError::NoMemory
    }
}
