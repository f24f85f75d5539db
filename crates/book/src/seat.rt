//! A seat: the right to commit the steps of one actor.
ghost use Rattle.std.specs.Prelude.{◌≡◌, ◌≢◌, ◌<◌, ◌≤◌, ◌+◌, true, IfOk, IfErr, IfSome, OnOk, OnErr, Err, None};
ghost use Rattle.cluster_core.specs.rule.World.{journal_limit};
ghost use Rattle.cluster_core.specs.rule.Next.{is_known};
ghost use Rattle.cluster_core.specs.rule.Parts.{world_state};
ghost use Rattle.cluster_core.specs.rule.Journals.{GoesOn};
ghost use Rattle.book.specs.rule.Commits.{Names};
ghost use Rattle.book.specs.code.Copies.{IsStepFrom, Fits, Plans, IsSpotOf};
ghost use Rattle.book.specs.rule.States.{seat_state, IsLevel, IsSameSeat, actor_of, incarnation_of, StepsTo, HasState, Rejects};

use crate::{Name, PlannedStep, Prepared, Spot, Standing, State};
use cluster_core::Run;
use messages::{Actor, Event, StepError};
use std::alloc::{AllocError, Global};
use std::marker::Model;

/// The right to commit the steps of one actor: where it stands, the number of its commits, and the spot of the last
/// committed state in the book's trail, if it is known. The type is generic in the name of that trail.
///
/// At a commit the seat's copy of the state, from which the step was planned, and the book's are exchanged, and the
/// step is made on the book's new one. On the seat's it is planned and made later, without the book's lock
/// (`catch_up`): until then the seat is behind by the step's event.
#[derive(Drop)]
pub struct Seat<J: Name> {
    standing: Standing,
    commits: u64,
    spot: Option<Spot<J, Standing>>,
}

impl<J: Name> Model for Seat<J> {
    ghost use Rattle.std.specs.Prelude.{IfSome};
    ghost use Rattle.book.specs.rule.States.{SeatFields, standing_state};
    ghost use Rattle.book.specs.code.Copies.{IsSpotOf};

    ghost Value = { SeatFields };

    ghost view = { λ s. record { standing = s.standing; commits = s.commits } };

    ghost invariant = { λ s. IfSome s.spot (λ spot. IsSpotOf spot (standing_state s.standing)) };
}

impl<J: Name> Seat<J> {
    /// The seat of an actor that has committed nothing.
    pub(crate) fn new(copy: State) -> Seat<J>
        ensures { result ≡ record { standing = record { copy = copy; behind = None }; commits = 0 } }
    {
        Seat {
            standing: Standing::at(copy),
            commits: 0,
            spot: None,
        }
    }

    /// The actor of the seat.
    pub fn actor(&self) -> Actor
        ensures { result ≡ actor_of (seat_state self.now) }
    {
        self.standing.actor()
    }

    /// The incarnation of the node, or the epoch of the token server, from 1.
    pub fn incarnation(&self) -> u16
        ensures value { result ≡ incarnation_of (seat_state self.now) }
        ensures from_one { 1 ≤ result }
    {
        self.standing.incarnation()
    }

    /// The number of steps that were committed from the seat.
    pub fn commits(&self) -> u64
        ensures { result ≡ self.now.commits }
    {
        self.commits
    }

    /// Where the seat stands.
    pub(crate) fn standing(&self) -> &Standing
        ensures { result.now ≡ self.now.standing }
    {
        &self.standing
    }

    /// The spot of the state in the book's trail, if it is known.
    pub(crate) fn spot(&self) -> Option<&Spot<J, Standing>>
        ensures { IfSome result (λ spot. IsSpotOf spot.now (seat_state self.now)) }
    {
        self.spot.as_ref()
    }

    /// Notes the spot of the state in the book's trail, if it is known.
    pub(crate) fn stand_at(&mut self, spot: Option<Spot<J, Standing>>)
        requires { IfSome spot (λ spot. IsSpotOf spot (seat_state self.old)) }
        ensures { self.new ≡ self.old }
    {
        self.spot = spot;
    }

    /// Makes the step of the last commit on the seat's own copy, if it was not made yet. It takes no lock, and its
    /// cost is that of the step. (`prepare` does so first, where this was not called.)
    ///
    /// # Errors
    /// `AllocError` where a request for memory was refused, which is none if the step was made. The seat is then as it
    /// was.
    pub fn catch_up(&mut self, alloc: Global) -> Result<(), AllocError>
        ensures level { OnOk result (IsLevel self.new) }
        ensures sure { IsLevel self.old → OnErr result ⊥ }
        ensures stays { IsLevel self.old → self.new ≡ self.old }
        ensures same { IsSameSeat self.old self.new }
        ensures unchanged { OnErr result (self.new ≡ self.old) }
    {
        self.standing.catch_up(alloc)
    }

    /// Plans the actor's step at an event, from the seat's state. It takes no lock, and its cost is that of the step's
    /// change. The seat stays the same, and its copy is level then. Where it was level before, steps that were prepared
    /// earlier fit the seat as before, so there may be several; a commit of one makes the others stale.
    ///
    /// # Errors
    /// In this order: `Spent` where 18,446,744,073,709,551,615 steps were committed from the seat; `NoMemory` where
    /// the seat was behind, and a request for memory for that step was refused; `Stranger` where the actor takes no
    /// such event; what the actor's step refuses, `Stranger`, `Busy` or `Spent`; `NoMemory` where a request for memory
    /// was refused, which may come before the actor's `Spent`.
    pub fn prepare(&mut self, alloc: Global, event: Event) -> Result<Prepared, StepError>
        ensures same { IsSameSeat self.old self.new }
        ensures stays { IsLevel self.old → self.new ≡ self.old }
        ensures event { IfOk result (λ p. p.event ≡ event) }
        ensures names { IfOk result (λ p. Names p self.new) }
        ensures step { IfOk result (λ p. IsStepFrom self.new p) }
        ensures spent { self.old.commits ≡ 18446744073709551615 → result ≡ Err StepError.Spent }
        ensures err { self.old.commits < 18446744073709551615 → IfErr result (λ e. e ≢ StepError.NoMemory → Rejects (seat_state self.old) event e) }

        // A refusal for want of memory takes the place of no other refusal but `Spent`, unless the seat is behind.
        ensures refused { self.old.commits < 18446744073709551615 → IsLevel self.old → (r : StepError) → r ≢ StepError.Spent → Rejects (seat_state self.old) event r → result ≡ Err r }
    {
        if self.commits == u64::MAX {
            return Err(StepError::Spent);
        }
        self.catch_up(alloc)?;
        let (edit, outcome) = self.standing.copy().plan(alloc, &event)?;
        let step = PlannedStep {
            event,
            edit,
            outcome,
        };
        Ok(Prepared::new(alloc, self, step)?)
    }

    /// The run takes the event by the step, which was planned from the seat's copy. The seat is then behind by `owed`,
    /// which is the step's event.
    ///
    /// # Errors
    /// `AllocError` where a request for memory was refused. The run and the seat are then as they were.
    pub(crate) fn step_in(
        &mut self,
        alloc: Global,
        run: &mut Run,
        step: PlannedStep,
        owed: Event,
    ) -> Result<(), AllocError>
        requires unspent { self.old.commits < 18446744073709551615 }
        requires level { IsLevel self.old }
        requires room { run.old.world.length < journal_limit }
        requires known { is_known (world_state run.old.world) step.event ≡ true }
        requires stands { HasState (world_state run.old.world) (seat_state self.old) }
        requires fits { Fits self.old.standing.copy step.edit }
        requires plans { Plans self.old.standing.copy step.event step.edit step.outcome }
        requires owed { owed ≡ step.event }
        ensures ok { OnOk result (GoesOn run.old step.event run.new) }
        ensures steps { OnOk result (StepsTo (seat_state self.old) step.event (seat_state self.new) step.outcome) }
        ensures commits { OnOk result (self.new.commits ≡ self.old.commits + 1) }
        ensures unchanged { OnErr result ((run.new ≡ run.old) × (self.new ≡ self.old)) }
    {
        self.standing.step_in(alloc, run, step, owed)?;
        self.commits += 1;
        self.spot = None;
        Ok(())
    }
}
