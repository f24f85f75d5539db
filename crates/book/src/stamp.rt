//! A stamp: what a commit gives.
ghost use Rattle.std.specs.Prelude.{◌≡◌, ◌<◌};

use crate::mark::Mark;
use messages::{Event, Outcome};
use std::marker::Model;

/// The stamp of a commit: the position of its entry, from 1, the entry's event and outcome, and the position up to
/// which its actor had seen the journal, which is before the entry; 0 for nothing.
#[derive(Drop)]
pub struct Stamp {
    position: u32,
    event: Event,
    outcome: Outcome,
    seen: u32,
}

impl Model for Stamp {
    ghost use Rattle.std.specs.Prelude.{◌<◌};
    ghost use Rattle.book.specs.rule.States.{StampFields};

    ghost Value = { StampFields };

    ghost view = { λ s. record { position = s.position; event = s.event; outcome = s.outcome; seen = s.seen } };

    ghost invariant = { λ s. s.seen < s.position };
}

impl Stamp {
    /// The stamp of an entry.
    pub(crate) fn new(position: u32, event: Event, outcome: Outcome, seen: u32) -> Stamp
        requires { seen < position }
        ensures { result ≡ record { position = position; event = event; outcome = outcome; seen = seen } }
    {
        Stamp {
            position,
            event,
            outcome,
            seen,
        }
    }

    /// The position of the entry, from 1.
    pub fn position(&self) -> u32
        ensures value { result ≡ self.now.position }
        ensures after { self.now.seen < result }
    {
        self.position
    }

    pub fn event(&self) -> &Event
        ensures { result.now ≡ self.now.event }
    {
        &self.event
    }

    pub fn outcome(&self) -> &Outcome
        ensures { result.now ≡ self.now.outcome }
    {
        &self.outcome
    }

    /// The position up to which the actor had seen the journal, 0 for nothing.
    pub fn seen(&self) -> u32
        ensures { result ≡ self.now.seen }
    {
        self.seen
    }

    /// The mark at the position of the entry.
    pub fn mark(&self) -> Mark
        ensures { result ≡ self.now.position }
    {
        Mark::new(self.position)
    }
}
