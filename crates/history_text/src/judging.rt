//! The ways in which a history can be judged, and the outcomes.
ghost use Rattle.std.specs.Prelude.{◌≡◌, ◌⊎◌};
ghost use Rattle.history_text.specs.declared.judging.JudgeError.TheVariants.{NoMemory};
ghost use Rattle.history_text.specs.declared.judging.JudgementOutcome.TheVariants.{Yes, No};

use crate::rule::Allowed;
use std::alloc::AllocError;
use thiserror::Error;

/// The way in which a history is judged, and what is printed of it.
#[derive(Clone, Copy)]
pub struct Judging {
    /// The number of tables that the search in a file may look at.
    pub steps: u64,
    /// Whether orders that explain calls are printed.
    pub order: bool,
    /// Whether a call that fits nowhere is left out, and those behind it are judged too.
    pub go_on: bool,
    /// Whether counts are printed.
    pub stats: bool,
    /// Whether all is printed as JSON.
    pub json: bool,
    /// The rules by which the lock manager may differ from one table.
    pub allowed: Allowed,
}

/// The outcome for a history, or for the calls of a file.
#[derive(Clone, Copy, Debug, PartialEq, Eq)]
pub enum JudgementOutcome {
    /// An order of the calls explains them.
    Yes,
    /// It is not known whether an order explains them.
    Unknown,
    /// No order explains them.
    No,
}

impl JudgementOutcome {
    /// The word for the outcome.
    pub(crate) fn word(self) -> &'static str {
        match self {
            JudgementOutcome::Yes => "yes",
            JudgementOutcome::Unknown => "unknown",
            JudgementOutcome::No => "no",
        }
    }

    /// The outcome of both together: `No` where one is `No`, else `Unknown` where one is `Unknown`.
    pub fn with(self, other: JudgementOutcome) -> JudgementOutcome
        ensures yes { result ≡ Yes → (self ≡ Yes) × (other ≡ Yes) }
        ensures no { result ≡ No → (self ≡ No) ⊎ (other ≡ No) }
    {
        match (self, other) {
            (JudgementOutcome::Yes, other) => other,
            (JudgementOutcome::Unknown, JudgementOutcome::Yes | JudgementOutcome::Unknown) =>
                JudgementOutcome::Unknown,
            (JudgementOutcome::Unknown, JudgementOutcome::No) | (JudgementOutcome::No, _) =>
                JudgementOutcome::No,
        }
    }
}

/// The reason why a text is not judged.
#[derive(Debug, Drop, Error)]
pub enum JudgeError {
    /// A request for memory was refused.
    #[error("no memory")]
    NoMemory,
    /// The text is no history, or the other text writes no orders of it. The words say in which line, and why.
    #[error("{0}")]
    Bad(String),
}

impl From<AllocError> for JudgeError {
    ghost from_gives = { λ error made. made ≡ NoMemory };

    fn from(_error: AllocError) -> JudgeError {
        JudgeError::NoMemory
    }
}
