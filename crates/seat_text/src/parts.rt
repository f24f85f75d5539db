//! What a log says, block by block.
ghost use Rattle.std.specs.Prelude.{◌≡◌, ◌∷◌, ℕ, [], All, None, Some, IfOk, OnOk};
ghost use Rattle.merges.specs.rule.Merges.{LogFields, log_of};
ghost use Rattle.seat_text.specs.code.Parts.{AreParts, Changes, IsEffect, Makes, Moves, Takes, held};
ghost use Rattle.seat_text.specs.rule.Logs.{first_of};

use crate::block::{Block, LogChange, LogStep, Said, interval_of};
use crate::read::LogFault;
use merges::{Interval, Log, LoggedChange, LoggedEntry};
use messages::{Actor, MemberEvent};
use std::alloc::Global;
use std::mem;

/// What the blocks of a log so far say.
#[derive(Drop)]
pub(crate) struct Parts {
    alloc: Global,
    actor: Actor,
    // The incarnation, or the epoch, in which the actor is, and what it made in it.
    current: Option<u16>,
    entries: Vec<LoggedEntry>,
    // The last one in which it was.
    last: u16,
    // What it made in the ones before, where that is anything.
    logs: Vec<Log>,
    changes: Vec<LoggedChange>,
    // When the last block with anything in it had ended.
    moment: u64,
}

/// What a declaration or a start does to an actor.
#[derive(Clone, Copy)]
pub(crate) enum Effect {
    Ends,
    Begins,
    Nothing,
}

// What the declaration or the start does to the actor.
fn effect_on(actor: Actor, event: MemberEvent) -> Effect
    ensures { IsEffect result actor event }
{
    match actor {
        Actor::Node(own) => match event {
            MemberEvent::Declare { node } if own == node => Effect::Ends,
            MemberEvent::Restart { node } if own == node => Effect::Begins,
            _ => Effect::Nothing,
        },
        Actor::Server(own) => match event {
            MemberEvent::FailServer { file } if own == file => Effect::Ends,
            MemberEvent::StartServer { file } if own == file => Effect::Begins,
            _ => Effect::Nothing,
        },
    }
}

impl Parts {
    /// Of the actor, before the first block behind its first line.
    pub(crate) fn new(alloc: Global, actor: Actor, again: bool) -> Parts
        ensures good { AreParts result }
        ensures actor { result.actor ≡ actor }
        ensures now { result.current ≡ first_of again }
        ensures nothing { result.changes.items ≡ [] }
        ensures none { (incarnation : ℕ) → held result incarnation ≡ [] }
    {
        Parts {
            alloc,
            actor,
            current: if again { None } else { Some(1) },
            entries: Vec::new(alloc),
            last: 1,
            logs: Vec::new(alloc),
            changes: Vec::new(alloc),
            moment: 0,
        }
    }

    /// Takes the next block.
    ///
    /// # Errors
    /// `WentBack` where it had ended before one before it, `OtherIncarnation` where it declares or begins its own actor in a wrong
    /// one, `NotThere` where it has entries and the actor is not there; `NoMemory` where a request for memory was refused.
    pub(crate) fn take(&mut self, block: Block) -> Result<(), LogFault>
        requires { AreParts self.old }
        ensures { OnOk result (Takes self.old (block ∷ []) self.new) }
    {
        let interval = interval_of(block.clock);
        let Said::Did(change, steps) = block.said else {
            return Ok(());
        };
        if interval.ended < self.moment {
            return Err(LogFault::WentBack);
        }
        self.moment = interval.ended;
        self.take_change(change, interval)?;
        self.take_steps(steps, interval)
    }

    // Takes a declaration or a start, if there is one.
    fn take_change(&mut self, change: Option<LogChange>, interval: Interval) -> Result<(), LogFault>
        requires { AreParts self.old }
        ensures { OnOk result (Changes self.old interval change self.new) }
    {
        let Some(change) = change else {
            return Ok(());
        };
        let event = change.event;
        self.changes.push(LoggedChange { event, interval })?;
        match effect_on(self.actor, event) {
            Effect::Ends => self.end(change.incarnation),
            Effect::Begins => self.begin(change.incarnation),
            Effect::Nothing => Ok(()),
        }
    }

    // The actor is declared failed in this incarnation. Where it did not begin yet, that was one before its seat.
    fn end(&mut self, incarnation: u16) -> Result<(), LogFault>
        requires { AreParts self.old }
        ensures { OnOk result (Moves self.old None self.new) }
    {
        if self.current.is_some() && self.current != Some(incarnation) {
            return Err(LogFault::OtherIncarnation);
        }
        self.close()
    }

    // The actor begins in this incarnation.
    fn begin(&mut self, incarnation: u16) -> Result<(), LogFault>
        requires { AreParts self.old }
        ensures { OnOk result (Moves self.old (Some incarnation) self.new) }
    {
        if self.current.is_some() || incarnation <= self.last {
            return Err(LogFault::OtherIncarnation);
        }
        self.current = Some(incarnation);
        self.last = incarnation;
        Ok(())
    }

    // Takes entries.
    fn take_steps(&mut self, steps: Vec<LogStep>, interval: Interval) -> Result<(), LogFault>
        requires { AreParts self.old }
        ensures { OnOk result (Makes self.old interval steps.items self.new) }
    {
        if self.current.is_none() {
            return if steps.is_empty() {
                Ok(())
            } else {
                Err(LogFault::NotThere)
            };
        }
        for step in steps {
            let entry = step.entry;
            self.entries.push(LoggedEntry { entry, interval })?;
        }
        Ok(())
    }

    // What the actor made in its incarnation is a log, where that is anything.
    fn close(&mut self) -> Result<(), LogFault>
        requires { AreParts self.old }
        ensures { OnOk result (Moves self.old None self.new) }
    {
        let Some(incarnation) = self.current.take() else {
            return Ok(());
        };
        let entries = mem::replace(&mut self.entries, Vec::new(self.alloc));
        if entries.is_empty() {
            return Ok(());
        }
        let Some(log) = Log::new(self.actor, incarnation, entries) else {
            return Err(LogFault::WentBack);
        };
        self.logs.push(log)?;
        Ok(())
    }

    /// The logs, and the declarations and starts.
    pub(crate) fn into_logs(mut self) -> Result<(Vec<Log>, Vec<LoggedChange>), LogFault>
        requires { AreParts self }
        ensures entries { IfOk result (λ made. (incarnation : ℕ) → log_of made.0.items self.actor incarnation ≡ held self incarnation) }
        ensures own { IfOk result (λ made. All (λ (l : LogFields). l.actor ≡ self.actor) made.0.items) }
        ensures told { IfOk result (λ made. made.1.items ≡ self.changes.items) }
    {
        self.close()?;
        Ok((self.logs, self.changes))
    }
}
