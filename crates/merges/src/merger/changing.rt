//! Putting declarations and starts.
ghost use Rattle.std.specs.Prelude.{◌≡◌, [], true, false, IfOk, IfErr, OnOk};
ghost use Rattle.messages.specs.declared.actor.Actor.{Actor};
ghost use Rattle.messages.specs.declared.event.Event.TheVariants.{Member};
ghost use Rattle.cluster_core.specs.rule.Parts.{world_state};
ghost use Rattle.merges.specs.rule.Merges.{ends};
ghost use Rattle.merges.specs.code.Merging.{current, is_there, next_of, IsMerger, NoChangeComes, Fails, Longer, PutsOn, fields_of, merging_of};

use super::Merger;
use crate::steps::{ends, is_current, took};
use crate::{Log, MergeError};
use cluster_core::{JOURNAL_LIMIT, World};
use messages::{Event, MemberEvent};
use std::alloc::Global;

// Whether the log has entries, and is of the incarnation of an actor that the event declares failed.
fn is_awaited(world: &World, log: &Log, event: MemberEvent) -> bool
    ensures yes { result ≡ true → (log.now.entries ≡ [] → ⊥) × (ends log.now.actor (Member event) ≡ true) × (current (world_state world.now) log.now.actor ≡ log.now.incarnation) }
    ensures no { result ≡ false → ends log.now.actor (Member event) ≡ true → is_there (world_state world.now) log.now.actor ≡ true → current (world_state world.now) log.now.actor ≡ log.now.incarnation → log.now.entries ≡ [] }
{
    if log.first().is_none() || !ends(log.actor(), event) {
        return false;
    }
    is_current(world, log.actor(), log.incarnation())
}

impl Merger {
    /// Whether an actor that the event declares failed has entries left in the log of its incarnation.
    pub(super) fn awaits_log(&self, event: MemberEvent) -> bool {
        for log in self.logs.iter() {
            if is_awaited(self.run.world(), log, event) {
                return true;
            }
        }
        false
    }

    // Whether an actor that the event declares failed has entries left in the log of its incarnation.
    fn is_too_early(&self, event: MemberEvent) -> bool
        requires { IsMerger (fields_of self.now) }
        ensures no { result ≡ false → (a : Actor) → ends a (Member event) ≡ true → is_there (world_state self.now.run.world) a ≡ true → next_of (merging_of (fields_of self.now)) a ≡ [] }
        ensures yes { result ≡ true → ((a : Actor) → ends a (Member event) ≡ true → next_of (merging_of (fields_of self.now)) a ≡ []) → ⊥ }
    {
        for index in 0..self.logs.len() {
            if is_awaited(self.run.world(), &self.logs[index], event) {
                return true;
            }
        }
        false
    }

    // Puts the next declaration or start, if it may be put; else nothing changes.
    pub(super) fn put_change(&mut self, alloc: Global) -> Result<bool, MergeError>
        requires { IsMerger (fields_of self.old) }
        ensures puts { OnOk result (PutsOn (fields_of self.old) (fields_of self.new)) }
        ensures unchanged { IfOk result (λ put. put ≡ false → self.new ≡ self.old) }
        ensures cannot { IfOk result (λ put. put ≡ false → NoChangeComes (fields_of self.old)) }
        ensures longer { IfOk result (λ put. put ≡ true → Longer (fields_of self.old) (fields_of self.new)) }
        ensures fails { IfErr result (λ e. Fails e (fields_of self.old)) }
    {
        let Some(change) = self.changes.first() else {
            return Ok(false);
        };
        if !self.allows(change.interval.began) {
            return Ok(false);
        }
        if self.is_too_early(change.event) {
            return Ok(false);
        }
        if self.run.len() >= JOURNAL_LIMIT {
            return Err(MergeError::JournalFull);
        }
        if !took(&mut self.run, alloc, Event::Member(change.event))? {
            return Ok(false);
        }
        self.changes.pass();
        Ok(true)
    }
}
