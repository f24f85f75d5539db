//! A prepared step: planned from a seat's state, not yet committed.
ghost use Rattle.std.specs.Prelude.{◌≡◌, ◌<◌, ◌↔◌, IfOk, IsTrue};
ghost use Rattle.book.specs.rule.Commits.{Names};
ghost use Rattle.book.specs.rule.States.{seat_state, actor_of, incarnation_of};

use crate::{Name, PlannedStep, Seat, copy_of};
use messages::{Actor, Event, Outcome};
use std::alloc::{AllocError, Global};
use std::marker::Model;

/// A step of an actor that was planned from its seat's state and may be committed from that seat: its event, its
/// change of the state, and its outcome. It has the event and the outcome once more for the stamp, and the event for
/// the seat, so that a commit needs no copy.
#[derive(Drop)]
pub struct Prepared {
    actor: Actor,
    incarnation: u16,
    commits: u64,
    step: PlannedStep,
    told: Event,
    answer: Outcome,
    owed: Event,
}

impl Model for Prepared {
    ghost use Rattle.std.specs.Prelude.{◌≡◌, ◌<◌};
    ghost use Rattle.book.specs.rule.States.{PreparedFields};

    ghost Value = { PreparedFields };

    ghost view = { λ p. record { actor = p.actor; incarnation = p.incarnation; commits = p.commits; event = p.step.event; edit = p.step.edit; outcome = p.step.outcome } };

    ghost invariant = { λ p. (p.told ≡ p.step.event) × (p.answer ≡ p.step.outcome) × (p.owed ≡ p.step.event) × (p.commits < 18446744073709551615) };
}

/// The parts of a step: for the run, for the stamp, and for the seat.
#[derive(Drop)]
pub(crate) struct PreparedParts {
    pub(crate) step: PlannedStep,
    pub(crate) told: Event,
    pub(crate) answer: Outcome,
    pub(crate) owed: Event,
}

impl Prepared {
    /// The outcome of the step.
    pub fn outcome(&self) -> &Outcome
        ensures { result.now ≡ self.now.outcome }
    {
        &self.step.outcome
    }

    /// The prepared step of a seat that made fewer than 18,446,744,073,709,551,615 commits.
    ///
    /// # Errors
    /// `AllocError` where a request for memory was refused.
    pub(crate) fn new<J: Name>(
        alloc: Global,
        seat: &Seat<J>,
        step: PlannedStep,
    ) -> Result<Prepared, AllocError>
        requires unspent { seat.now.commits < 18446744073709551615 }
        ensures { IfOk result (λ p. p ≡ record { actor = actor_of (seat_state seat.now); incarnation = incarnation_of (seat_state seat.now); commits = seat.now.commits; event = step.event; edit = step.edit; outcome = step.outcome }) }
    {
        let told = step.event.copy()?;
        let owed = step.event.copy()?;
        let answer = copy_of(alloc, &step.outcome)?;
        Ok(Prepared {
            actor: seat.actor(),
            incarnation: seat.incarnation(),
            commits: seat.commits(),
            step,
            told,
            answer,
            owed,
        })
    }

    /// The event of the step.
    pub(crate) fn event(&self) -> &Event
        ensures { result.now ≡ self.now.event }
    {
        &self.step.event
    }

    /// Whether the step names the seat's actor, incarnation and number of commits.
    pub(crate) fn names<J: Name>(&self, seat: &Seat<J>) -> bool
        ensures names { IsTrue result ↔ Names self.now seat.now }
        ensures unspent { self.now.commits < 18446744073709551615 }
    {
        self.actor == seat.actor()
            && self.incarnation == seat.incarnation()
            && self.commits == seat.commits()
    }

    /// The parts of the step.
    pub(crate) fn into_parts(self) -> PreparedParts
        ensures event { result.step.event ≡ self.event }
        ensures edit { result.step.edit ≡ self.edit }
        ensures outcome { result.step.outcome ≡ self.outcome }
        ensures told { result.told ≡ self.event }
        ensures answer { result.answer ≡ self.outcome }
        ensures owed { result.owed ≡ self.event }
    {
        let Prepared {
            step,
            told,
            answer,
            owed,
            ..
        } = self;
        PreparedParts {
            step,
            told,
            answer,
            owed,
        }
    }
}
