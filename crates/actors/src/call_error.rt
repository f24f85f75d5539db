//! The reasons why a call has no receipt.
ghost use Rattle.std.specs.Prelude.{◌≡◌};
ghost use Rattle.actors.specs.rule.Clients.{number_of, rejected_by, refused_by};

use book::CommitError;
use messages::StepError;
use thiserror::Error;

/// The reason why a call of a client has no receipt.
#[derive(Clone, Copy, Debug, PartialEq, Eq, Error)]
pub enum CallError {
    /// A request for memory was refused.
    #[error("no memory")]
    NoMemory,
    /// The process has an open call, or another client.
    #[error("the process has an open call or another client")]
    Busy,
    /// The call names a number outside the shape of the cluster.
    #[error("not of this cluster")]
    Stranger,
    /// The node was declared failed before it took the call.
    #[error("the node was declared failed")]
    Fenced,
    /// The journal has 1,048,576 entries, the most that it may have.
    #[error("the journal is full")]
    JournalFull,
    /// The node took the call, as the entry at this position, from 1. Then the node was declared failed, or the
    /// process ended, while the call was open.
    #[error("the call ended without a reply")]
    Killed { call_at: u32 },
    /// The worker ended before it took the call.
    #[error("the worker has ended")]
    Closed,
    /// The node took the call, as the entry at this position, from 1. Then its worker ended while the call was open.
    #[error("the worker has ended while the call was open")]
    Unanswered { call_at: u32 },
    /// The node has no number left for a call.
    #[error("no number is left")]
    Spent,
    /// The client was told of a receipt past the end of the journal: one of another cluster.
    #[error("told of another journal")]
    Stale,
}

impl From<StepError> for CallError {
    ghost from_gives = { λ error made. made ≡ rejected_by error };

    fn from(error: StepError) -> CallError {
        match error {
            StepError::NoMemory => CallError::NoMemory,
            StepError::Busy => CallError::Busy,
            StepError::Stranger => CallError::Stranger,
            StepError::Spent => CallError::Spent,
        }
    }
}

impl From<CommitError> for CallError {
    ghost from_gives = { λ error made. made ≡ refused_by error };

    fn from(error: CommitError) -> CallError {
        match error {
            CommitError::NoMemory => CallError::NoMemory,
            CommitError::Stranger => CallError::Stranger,
            CommitError::Fenced => CallError::Fenced,
            CommitError::JournalFull => CallError::JournalFull,
            CommitError::Stale => CallError::Stale,
        }
    }
}

impl CallError {
    /// The number that listings show for the refusal: 3 or 13 to 20.
    pub fn number(self) -> u16
        ensures { result ≡ number_of self }
    {
        match self {
            CallError::NoMemory => 3,
            CallError::Busy => 13,
            CallError::Stranger => 14,
            CallError::Fenced => 15,
            CallError::JournalFull => 16,
            CallError::Killed { .. } => 17,
            CallError::Closed | CallError::Unanswered { .. } => 18,
            CallError::Spent => 19,
            CallError::Stale => 20,
        }
    }
}
