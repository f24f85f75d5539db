//! The reasons for which lines are played no further.
ghost use Rattle.std.specs.Prelude.{◌≡◌};
ghost use Rattle.line_play.specs.declared.stop.Stop.TheVariants.{NoMemory};
ghost use Rattle.line_play.specs.rule.Answers.{stop_of};

use lockscript::PlayError;
use std::alloc::AllocError;

/// A reason for which lines are played no further.
#[derive(Clone, Copy, Debug, PartialEq, Eq)]
pub enum Stop {
    /// The line of this number, from 1, may not stand where it does.
    BadLine(u64),
    /// The line needs more entries than a journal may have.
    JournalFull,
    /// A request for memory was refused.
    NoMemory,
}

impl From<AllocError> for Stop {
    ghost from_gives = { λ error made. made ≡ NoMemory };

    fn from(_error: AllocError) -> Stop {
        Stop::NoMemory
    }
}

impl From<PlayError> for Stop {
    ghost from_gives = { λ error made. made ≡ stop_of error };

    fn from(error: PlayError) -> Stop {
        match error {
            PlayError::NoMemory => Stop::NoMemory,
            PlayError::JournalFull => Stop::JournalFull,
        }
    }
}
