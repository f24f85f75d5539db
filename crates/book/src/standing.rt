//! Where a seat stands: a copy of its actor's state, and how far behind the copy is.
ghost use Rattle.std.specs.Prelude.{◌≡◌, ◌<◌, ◌≤◌, ◌↔◌, true, None, OnOk, OnErr, IsTrue};
ghost use Rattle.cluster_core.specs.rule.World.{journal_limit};
ghost use Rattle.cluster_core.specs.rule.Next.{is_known};
ghost use Rattle.cluster_core.specs.rule.Parts.{world_state};
ghost use Rattle.cluster_core.specs.rule.Journals.{GoesOn};
ghost use Rattle.book.specs.rule.States.{actor_of, incarnation_of, StepsTo, HasState, is_declared, standing_state};
ghost use Rattle.book.specs.code.Copies.{Fits, Plans};

use crate::{PlannedStep, State};
use cluster_core::{Run, World};
use messages::{Actor, Event, StepError};
use std::alloc::{AllocError, Global};
use std::marker::Model;

/// Where a seat stands: a copy of its actor's state, and the event that was committed since and that the copy has
/// still to take, if there is one.
#[derive(Drop)]
pub(crate) struct Standing {
    copy: State,
    behind: Option<Event>,
}

impl Model for Standing {
    ghost use Rattle.std.specs.Prelude.{IfSome};
    ghost use Rattle.book.specs.rule.States.{StandingFields, MayTake, state_of};

    ghost Value = { StandingFields };

    ghost view = { λ s. record { copy = s.copy; behind = s.behind } };

    ghost invariant = { λ s. IfSome s.behind (λ event. MayTake (state_of s.copy) event) };
}

impl Standing {
    /// At the copy, which is behind by nothing.
    pub(crate) fn at(copy: State) -> Standing
        ensures { result ≡ record { copy = copy; behind = None } }
    {
        Standing { copy, behind: None }
    }

    /// The actor.
    pub(crate) fn actor(&self) -> Actor
        ensures { result ≡ actor_of (standing_state self.now) }
    {
        self.copy.actor()
    }

    /// The incarnation of the node, or the epoch of the token server, from 1.
    pub(crate) fn incarnation(&self) -> u16
        ensures value { result ≡ incarnation_of (standing_state self.now) }
        ensures from_one { 1 ≤ result }
    {
        self.copy.incarnation()
    }

    /// The copy of the actor's state.
    pub(crate) fn copy(&self) -> &State
        ensures { result.now ≡ self.now.copy }
    {
        &self.copy
    }

    /// The copy takes the event by which it is behind.
    ///
    /// # Errors
    /// `AllocError` where a request for memory was refused, which is none if the copy is not behind. The standing is
    /// then as it was.
    pub(crate) fn catch_up(&mut self, alloc: Global) -> Result<(), AllocError>
        ensures level { OnOk result (self.new.behind ≡ None) }
        ensures sure { self.old.behind ≡ None → OnErr result ⊥ }
        ensures stays { self.old.behind ≡ None → self.new ≡ self.old }
        ensures state { standing_state self.new ≡ standing_state self.old }
        ensures unchanged { OnErr result (self.new ≡ self.old) }
    {
        let Some(event) = &self.behind else {
            return Ok(());
        };
        let (edit, outcome) = match self.copy.plan(alloc, event) {
            Ok(planned) => planned,
            Err(StepError::NoMemory) => return Err(AllocError),
            Err(_) => unreachable!(),
        };
        let _ = self.copy.apply(edit, outcome);
        self.behind = None;
        Ok(())
    }

    /// The run takes the event by the step, which was planned from the copy. The copy is then behind by `owed`, which
    /// is the step's event.
    ///
    /// # Errors
    /// `AllocError` where a request for memory was refused. The run and the standing are then as they were.
    pub(crate) fn step_in(
        &mut self,
        alloc: Global,
        run: &mut Run,
        step: PlannedStep,
        owed: Event,
    ) -> Result<(), AllocError>
        requires level { self.old.behind ≡ None }
        requires room { run.old.world.length < journal_limit }
        requires known { is_known (world_state run.old.world) step.event ≡ true }
        requires stands { HasState (world_state run.old.world) (standing_state self.old) }
        requires fits { Fits self.old.copy step.edit }
        requires plans { Plans self.old.copy step.event step.edit step.outcome }
        requires owed { owed ≡ step.event }
        ensures ok { OnOk result (GoesOn run.old step.event run.new) }
        ensures steps { OnOk result (StepsTo (standing_state self.old) step.event (standing_state self.new) step.outcome) }
        ensures unchanged { OnErr result ((run.new ≡ run.old) × (self.new ≡ self.old)) }
    {
        self.copy.step_in(alloc, run, step)?;
        self.behind = Some(owed);
        Ok(())
    }

    /// Whether the actor is alive in the world, and in this state.
    pub(crate) fn stands_in(&self, world: &World) -> bool
        requires level { self.now.behind ≡ None }
        ensures { IsTrue result ↔ HasState (world_state world.now) (standing_state self.now) }
    {
        self.copy.stands_in(world)
    }

    /// Whether the node's incarnation, or the token server's epoch, was declared failed in the world.
    pub(crate) fn is_declared_in(&self, world: &World) -> bool
        ensures { result ≡ is_declared (world_state world.now) (standing_state self.now) }
    {
        self.copy.is_declared_in(world)
    }
}
