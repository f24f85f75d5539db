//! A run that goes on, event by event.
ghost use Rattle.std.specs.Prelude.{◌≡◌, ◌≢◌, Ok, Err, Some, None, ◌++◌, ◌∷◌, [], slice_get, MatchOption, IfOk, IfErr, OnOk, OnErr};
ghost use Rattle.messages.specs.declared.entry.Entry.{Entry};
ghost use Rattle.messages.specs.declared.event.Event.TheVariants.{Deliver};
ghost use Rattle.messages.specs.declared.message.Message.{Message};
ghost use Rattle.messages.specs.declared.refusal.Refused.{Refused};
ghost use Rattle.messages.specs.declared.refusal.Refused.TheVariants.{NoMemory};
ghost use Rattle.messages.specs.rule.Shapes.{IsShape};
ghost use Rattle.cluster_core.specs.rule.World.{first_world};
ghost use Rattle.cluster_core.specs.rule.Next.{kept_next};
ghost use Rattle.cluster_core.specs.rule.Parts.{world_state};
ghost use Rattle.cluster_core.specs.code.Changes.{Plans};
ghost use Rattle.cluster_core.specs.rule.Runs.{Leads};
ghost use Rattle.cluster_core.specs.rule.Journals.{delivery, journal_of, GoesOn};
ghost use Rattle.cluster_core.specs.rule.Histories.{HasOneHistory};
ghost use Rattle.cluster_core.specs.rule.Plain.{HasPlainHistory};
ghost use Rattle.cluster_core.specs.rule.Safe.{IsSafe, LeadsToSafe};
ghost use Rattle.cluster_core.specs.rule.Numbers.{LeadsToNumbers};
ghost use Rattle.cluster_core.specs.rule.Evidence.{DenialsHaveEvidence};

use crate::journal::Journal;
use crate::world::world_change::WorldChange;
use crate::world::{JOURNAL_LIMIT, World};
use messages::{Entry, Event, Refused, Shape, SharedMessage};
use std::alloc::{AllocError, Global};
use std::marker::Model;

mod states;
mod steps;

/// A run of a cluster that goes on: its entries, and the world to which they lead.
#[derive(Drop)]
pub struct Run {
    world: World,
    entries: Vec<Entry>,
}

impl Model for Run {
    ghost use Rattle.cluster_core.specs.rule.Journals.{RunFields, LeadsToItsWorld};

    ghost Value = { RunFields };

    ghost view = { λ r. record { world = r.world; entries = r.entries.items } };

    ghost invariant = { λ r. LeadsToItsWorld (record { world = r.world; entries = r.entries.items }) };
}

impl Run {
    /// The run of a cluster that begins, without entries.
    ///
    /// # Errors
    /// `AllocError` where a request for memory was refused.
    pub fn new(alloc: Global, shape: Shape) -> Result<Run, AllocError>
        ensures world { IfOk result (λ run. world_state run.world ≡ first_world shape) }
        ensures entries { IfOk result (λ run. run.entries ≡ []) }
    {
        Ok(Run {
            world: World::new(alloc, shape)?,
            entries: Vec::new(alloc),
        })
    }

    /// The run that goes on behind the entries of a journal.
    ///
    /// # Errors
    /// `AllocError` where a request for memory was refused.
    pub fn after(alloc: Global, journal: Journal) -> Result<Run, AllocError>
        ensures leads { IfOk result (λ run. Leads (first_world journal.shape) journal.entries (world_state run.world)) }
        ensures entries { IfOk result (λ run. run.entries ≡ journal.entries) }
    {
        let world = World::after(alloc, &journal)?;
        Ok(Run {
            world,
            entries: journal.into_entries(),
        })
    }

    /// The run takes the event, as `World::step` says. The entry that it makes comes last.
    ///
    /// # Errors
    /// Those of `World::step`. The run is then as it was.
    pub fn take(&mut self, alloc: Global, event: Event) -> Result<(), Refused>
        ensures ok { OnOk result (GoesOn self.old event self.new) }
        ensures err { IfErr result (λ e. e ≢ NoMemory → kept_next (world_state self.old.world) event ≡ Err e) }

        // A refusal for want of memory takes the place of no other refusal but `Spent`.
        ensures refused { (e : Refused) → e ≢ Refused.Spent → kept_next (world_state self.old.world) event ≡ Err e → result ≡ Err e }
        ensures unchanged { OnErr result (self.new ≡ self.old) }
    {
        let change = self.world.plan(alloc, &event)?;
        self.world.keep_index(alloc, &event)?;
        Ok(self.go_on(alloc, event, change)?)
    }

    // The run takes the event as it was planned. The entry that it makes comes last.
    fn go_on(&mut self, alloc: Global, event: Event, change: WorldChange) -> Result<(), AllocError>
        requires { Plans self.old.world event change }
        ensures ok { OnOk result (GoesOn self.old event self.new) }
        ensures unchanged { OnErr result (self.new ≡ self.old) }
    {
        self.entries.reserve(1)?;
        let entry = self.world.apply(alloc, event, change)?;
        self.entries.push_reserved(entry);
        Ok(())
    }

    /// The run takes the delivery of the message at that index in the order of sending, from 0, as `take` does. The
    /// message need not be looked up.
    ///
    /// # Errors
    /// Those of `World::step`. Where no message was sent at that index: `JournalFull` if the run has 1,048,576
    /// entries, else `Stranger`. The run is then as it was.
    #[tactic(auto, using(crate::proofs::steps::KnownMessages::among_there))]
    pub fn deliver(&mut self, alloc: Global, place: usize) -> Result<(), Refused>
        ensures ok { OnOk result ((m : Message) × (slice_get self.old.world.sent place ≡ Some m) × GoesOn self.old (Deliver m) self.new) }
        ensures err { IfErr result (λ e. e ≢ NoMemory → delivery (world_state self.old.world) (slice_get self.old.world.sent place) ≡ Err e) }

        // A refusal for want of memory takes the place of no other refusal but `Spent`.
        ensures refused { (e : Refused) → e ≢ Refused.Spent → delivery (world_state self.old.world) (slice_get self.old.world.sent place) ≡ Err e → result ≡ Err e }
        ensures unchanged { OnErr result (self.new ≡ self.old) }
    {
        let Some(message) = self.sent_at(place) else {
            return Err(self.unsent());
        };
        let change = self.world.plan_sent(alloc, message.get())?;
        let event = Event::Deliver(message.share()?);
        Ok(self.go_on(alloc, event, change)?)
    }

    // The message at that index in the order of sending, if one was sent.
    fn sent_at(&self, place: usize) -> Option<&SharedMessage>
        ensures { MatchOption result (slice_get self.now.world.sent place ≡ None) (λ message. slice_get self.now.world.sent place ≡ Some message.now) }
    {
        self.world.sent().get(place)
    }

    // The refusal of a message that was not sent.
    fn unsent(&self) -> Refused
        ensures { delivery (world_state self.now.world) None ≡ Err result }
    {
        if self.len() >= JOURNAL_LIMIT {
            Refused::JournalFull
        } else {
            Refused::Stranger
        }
    }

    /// The world to which the entries lead. In it tokens of two nodes don't conflict, and locks are covered by
    /// tokens.
    pub fn world(&self) -> &World
        ensures value { result.now ≡ self.now.world }
        ensures leads { Leads (first_world self.now.world.shape) self.now.entries (world_state self.now.world) }
        ensures safe { IsSafe (world_state self.now.world) }
    {
        &self.world
    }

    /// The entries of the run, the first at position 1.
    pub fn entries(&self) -> &[Entry]
        ensures { result.now ≡ self.now.entries }
    {
        self.entries.as_slice()
    }

    /// The journal of the run, and the world to which its entries lead.
    pub fn into_journal(self) -> (Journal, World)
        ensures journal { result.0 ≡ journal_of self }
        ensures world { result.1 ≡ self.world }
        ensures leads { Leads (first_world result.0.shape) result.0.entries (world_state result.1) }

        // One table explains every reply, and ends with what the nodes hold.
        ensures one_table { HasOneHistory result.0.shape result.0.entries }

        // One table explains the replies that name no lock, each at its own entry, and ends with what the nodes hold.
        ensures plain { HasPlainHistory result.0.shape result.0.entries }

        // Tokens of two nodes don't conflict, locks are covered by tokens, and locks of two nodes don't conflict.
        ensures safe { IsSafe (world_state result.1) }
        ensures leads_to_safe { LeadsToSafe result.0.shape result.0.entries }

        // No two commands about one file to one incarnation of a node have one number.
        ensures numbers { LeadsToNumbers result.0.shape result.0.entries }

        // Each denial has its evidence.
        ensures evidence { DenialsHaveEvidence result.0.shape result.0.entries }
    {
        let Run { world, entries } = self;
        (Journal::of_run(world.shape(), entries), world)
    }
}
