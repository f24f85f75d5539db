//! How long an open call of a node waits.
ghost use Rattle.std.specs.Prelude.{◌≡◌, ◌==◌, find};
ghost use Rattle.seats.specs.rule.Steps.{first_wait, is_made, wait_of, waited};

use messages::{Outcome, Patience};

/// An open call at the last tick: its number, when it is tried again, and whether a lock of its own node was in its way, so
/// that a try sent nothing and answered nothing.
#[derive(Clone, Copy, Debug, PartialEq, Eq)]
pub struct Wait {
    pub number: u32,
    pub patience: Patience,
    pub blocked: bool,
}

impl Wait {
    // A call that its node took since the last tick.
    fn first(number: u32) -> Wait
        ensures { result ≡ first_wait number }
    {
        Wait {
            number,
            patience: Patience::new(),
            blocked: false,
        }
    }

    /// Whether the try is made that comes to this.
    pub(crate) fn is_made(&self, outcome: &Outcome) -> bool
        ensures { result ≡ is_made self.now outcome.now }
    {
        if outcome.reply.is_some() {
            return true;
        }
        !outcome.sends.is_empty() && (self.blocked || self.patience.is_due())
    }

    /// The wait after a tick, at which a try comes, or would come, to this.
    pub(crate) fn after_tick(&self, outcome: &Outcome) -> Wait
        ensures { result ≡ waited self.now outcome.now }
    {
        Wait {
            number: self.number,
            patience: self.patience.after_tick(),
            blocked: outcome.reply.is_none() && outcome.sends.is_empty(),
        }
    }
}

// The wait of the call with this number, if it was open at the last tick.
fn find(waits: &[Wait], number: u32) -> Option<Wait>
    ensures { result ≡ find (λ w. w.number == number) waits.now }
{
    waits.iter().find(|wait| wait.number == number).copied()
}

/// The wait of the call with this number, which is its first one where it was not open at the last tick.
pub(crate) fn wait_of(waits: &[Wait], number: u32) -> Wait
    ensures { result ≡ wait_of waits.now number }
{
    match find(waits, number) {
        Some(wait) => wait,
        None => Wait::first(number),
    }
}
