//! The reasons for which a step or an event is refused.
ghost use Rattle.std.specs.Prelude.{◌≡◌};
ghost use Rattle.messages.specs.declared.refusal.StepError.TheVariants as step;
ghost use Rattle.messages.specs.declared.refusal.Refused.TheVariants.{NoMemory};
ghost use Rattle.messages.specs.rule.Entries.{number_of, refused_by};

use std::alloc::{AllocError, AllocFailed};
use thiserror::Error;

/// A reason for which a step of a node or of a token server is refused.
#[derive(Clone, Copy, Debug, PartialEq, Eq, Error)]
pub enum StepError {
    /// A request for memory was refused.
    #[error("no memory")]
    NoMemory,
    /// The process has an open call.
    #[error("the process has an open call")]
    Busy,
    /// A number is outside the shape of the cluster, or the message is for another actor.
    #[error("not of this cluster")]
    Stranger,
    /// A counter of calls or commands is at its greatest number.
    #[error("no number is left")]
    Spent,
}

impl From<AllocError> for StepError {
    ghost from_gives = { λ error made. made ≡ step.NoMemory };

    fn from(_error: AllocError) -> StepError {
        StepError::NoMemory
    }
}

impl<T: Drop> From<AllocFailed<T>> for StepError {
    ghost from_gives = { λ error made. made ≡ step.NoMemory };

    fn from(_error: AllocFailed<T>) -> StepError {
        StepError::NoMemory
    }
}

/// A reason for which an event is refused.
#[derive(Clone, Copy, Debug, PartialEq, Eq, Error)]
pub enum Refused {
    /// A request for memory was refused.
    #[error("no memory")]
    NoMemory,
    /// The process has an open call.
    #[error("the process has an open call")]
    Busy,
    /// A number is outside the shape of the cluster, or the message was never sent.
    #[error("not of this cluster")]
    Stranger,
    /// The journal has as many entries as it may have.
    #[error("the journal is full")]
    JournalFull,
    /// A counter of calls or commands is at its greatest number.
    #[error("no number is left")]
    Spent,
    /// The node, or the token server, is not alive.
    #[error("the node or the token server is not alive")]
    NotAlive,
    /// The node, or the token server, is alive.
    #[error("the node or the token server is alive")]
    NotDead,
    /// The node, or the token server, has had its last incarnation.
    #[error("the node or the token server was restarted too often")]
    TooManyRestarts,
    /// The node, or the token server, was declared failed, and takes no step.
    #[error("the node or the token server was declared failed")]
    Fenced,
}

impl From<AllocError> for Refused {
    ghost from_gives = { λ error made. made ≡ NoMemory };

    fn from(_error: AllocError) -> Refused {
        Refused::NoMemory
    }
}

impl<T: Drop> From<AllocFailed<T>> for Refused {
    ghost from_gives = { λ error made. made ≡ NoMemory };

    fn from(_error: AllocFailed<T>) -> Refused {
        Refused::NoMemory
    }
}

impl From<StepError> for Refused {
    ghost from_gives = { λ error made. made ≡ refused_by error };

    fn from(error: StepError) -> Refused {
        match error {
            StepError::NoMemory => Refused::NoMemory,
            StepError::Busy => Refused::Busy,
            StepError::Stranger => Refused::Stranger,
            StepError::Spent => Refused::Spent,
        }
    }
}

impl Refused {
    /// The number of the refusal in listings: 3, 10 to 16 or 19.
    pub fn number(self) -> u16
        ensures { result ≡ number_of self }
    {
        match self {
            Refused::NoMemory => 3,
            Refused::Busy => 13,
            Refused::Stranger => 14,
            Refused::JournalFull => 16,
            Refused::Spent => 19,
            Refused::NotAlive => 10,
            Refused::NotDead => 11,
            Refused::TooManyRestarts => 12,
            Refused::Fenced => 15,
        }
    }
}
