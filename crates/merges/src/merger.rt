//! A merge under way.
ghost use Rattle.std.specs.Prelude.{◌≡◌, ◌<◌, ◌∷◌, [], true, false, None, Some, length, slice_get, slice_set, List, IfOk, IfErr, IfSome, OnOk};
ghost use Rattle.merges.specs.declared.logged.LoggedEntry.{LoggedEntry};
ghost use Rattle.merges.specs.rule.Merges.{LogFields, AreOfDifferent, log_of};
ghost use Rattle.merges.specs.code.Merging.{Allows, begun, IsMerger, CannotCome, Fails, FailsToBegin, IsExact, LastAndNext, Longer, MayBeTried, PutsOn, fields_of, merging_of, with_entries};

use crate::{Changes, Log, MergeError, is_current, second_of_two, takes, took};
use cluster_core::{JOURNAL_LIMIT, Run};
use messages::{Event, Shape};
use std::alloc::{AllocError, Global};

mod changing;
mod queued;
mod rounds;
mod telling;

/// The run that was made of entries that are put, and what is left. What is left had not ended before the floor.
#[derive(Drop)]
pub(crate) struct Merger {
    run: Run,
    logs: Vec<Log>,
    changes: Changes,
    skew: u64,
    floor: u64,
}

impl Merger {
    /// The merge of these logs, with these declarations and starts, of which nothing is put.
    ///
    /// # Errors
    /// `TwoLogs` where two logs are of one incarnation of an actor; `NoMemory` where a request for memory was refused.
    pub(crate) fn new(
        alloc: Global,
        shape: Shape,
        skew: u64,
        logs: Vec<Log>,
        changes: Changes,
    ) -> Result<Merger, MergeError>
        ensures good { IfOk result (λ m. IsMerger (fields_of m)) }
        ensures begun { IfOk result (λ m. merging_of (fields_of m) ≡ begun shape (log_of logs.items) changes) }
        ensures nothing { IfOk result (λ m. m.run.entries ≡ []) }
        ensures skew { IfOk result (λ m. m.skew ≡ skew) }
        ensures different { OnOk result (AreOfDifferent logs.items) }
        ensures fails { IfErr result (λ e. FailsToBegin e logs.items) }
    {
        if let Some((actor, incarnation)) = second_of_two(logs.as_slice()) {
            return Err(MergeError::TwoLogs(actor, incarnation));
        }
        Ok(Merger {
            run: Run::new(alloc, shape)?,
            logs,
            changes,
            skew,
            floor: 0,
        })
    }

    // Whether nothing that is left had ended before this began, as far as the floor tells.
    fn allows(&self, began: u64) -> bool
        requires { IsMerger (fields_of self.now) }
        ensures yes { result ≡ true → Allows self.now.skew (merging_of (fields_of self.now)) began }
        ensures no { result ≡ false → IsExact (fields_of self.now) → Allows self.now.skew (merging_of (fields_of self.now)) began → ⊥ }
    {
        began.saturating_sub(self.skew) <= self.floor
    }

    // The event of the next entry of that log, if it may be tried.
    fn next_event(&self, index: usize) -> Result<Option<Event>, AllocError>
        requires { IsMerger (fields_of self.now) }
        ensures tried { IfOk result (λ event. IfSome event (λ e. MayBeTried (fields_of self.now) index e)) }
        ensures none { IfOk result (λ event. event ≡ None → CannotCome (fields_of self.now) index) }
    {
        let Some(log) = self.logs.get(index) else {
            return Ok(None);
        };
        let Some(next) = log.first() else {
            return Ok(None);
        };
        let event = next.entry.event();
        if !takes(log.actor(), event) {
            return Ok(None);
        }
        if !self.allows(next.interval.began) {
            return Ok(None);
        }
        if !is_current(self.run.world(), log.actor(), log.incarnation()) {
            return Ok(None);
        }
        Ok(Some(event.copy()?))
    }

    // Whether the last entry of the run is as that log has its next one.
    fn is_as_logged(&self, index: usize) -> bool
        ensures yes { (both : LastAndNext (fields_of self.now) index) → result ≡ true → both.made ≡ both.entry.entry }
        ensures no { (both : LastAndNext (fields_of self.now) index) → result ≡ false → both.made ≡ both.entry.entry → ⊥ }
    {
        let Some(log) = self.logs.get(index) else {
            return false;
        };
        let Some(next) = log.first() else {
            return false;
        };
        match self.run.entries().last() {
            Some(made) => made.same(&next.entry),
            None => false,
        }
    }

    // The log goes on behind its next entry, which was put.
    fn pass(&mut self, index: usize)
        requires { index < length self.old.logs.items }
        ensures { (log : LogFields) (x : LoggedEntry) (xs : List LoggedEntry) → slice_get self.old.logs.items index ≡ Some log → log.entries ≡ x ∷ xs
            → fields_of self.new ≡ record (fields_of self.old) { logs = slice_set self.old.logs.items index (with_entries log xs) } }
    {
        self.logs[index].pass();
    }

    // Puts the next entry of that log, if it may be put; else nothing changes.
    fn put_entry(&mut self, alloc: Global, index: usize) -> Result<bool, MergeError>
        requires { IsMerger (fields_of self.old) }
        ensures puts { OnOk result (PutsOn (fields_of self.old) (fields_of self.new)) }
        ensures unchanged { IfOk result (λ put. put ≡ false → self.new ≡ self.old) }
        ensures cannot { IfOk result (λ put. put ≡ false → CannotCome (fields_of self.old) index) }
        ensures longer { IfOk result (λ put. put ≡ true → Longer (fields_of self.old) (fields_of self.new)) }
        ensures fails { IfErr result (λ e. Fails e (fields_of self.old)) }
    {
        let Some(event) = self.next_event(index)? else {
            return Ok(false);
        };
        if self.run.len() >= JOURNAL_LIMIT {
            return Err(MergeError::JournalFull);
        }
        if !took(&mut self.run, alloc, event)? {
            return Ok(false);
        }
        if !self.is_as_logged(index) {
            return Err(MergeError::NoOrder);
        }
        self.pass(index);
        Ok(true)
    }

    // Puts entries of that log as long as the next one may be put.
    fn put_log(&mut self, alloc: Global, index: usize) -> Result<bool, MergeError>
        requires { IsMerger (fields_of self.old) }
        ensures puts { OnOk result (PutsOn (fields_of self.old) (fields_of self.new)) }
        ensures unchanged { IfOk result (λ put. put ≡ false → self.new ≡ self.old) }
        ensures cannot { IfOk result (λ put. put ≡ false → CannotCome (fields_of self.old) index) }
        ensures longer { IfOk result (λ put. put ≡ true → Longer (fields_of self.old) (fields_of self.new)) }
        ensures fails { IfErr result (λ e. Fails e (fields_of self.old)) }
    {
        let mut put = false;
        while self.put_entry(alloc, index)? {
            put = true;
        }
        Ok(put)
    }
}
