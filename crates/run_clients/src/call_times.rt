//! The times at which a run's calls are made and answered.
ghost use Rattle.std.specs.Prelude.{◌≡◌, ◌≤◌, ◌+◌, ℕ, List, length, is_some, IfOk, OnOk};
ghost use Rattle.messages.specs.declared.entry.Entry.{Entry};
ghost use Rattle.cluster_core.specs.rule.World.{journal_limit};
ghost use Rattle.cluster_core.specs.rule.Histories.{EntryAt, caller};
ghost use Rattle.run_clients.specs.code.Times.{AreLast, NotesLast, last_of, name_of, AreFound, AreTimes, IsAnswered, IsKept, IsKnown, IsMade, Notes, position_of_call};

use crate::made_call::{MadeCall, ProcessName, made_by, name_of};
use cluster_core::Item;
use messages::Entry;
use model::CallId;
use std::alloc::{AllocError, Global};
use std::collections::HashMap;

// For each call, by its name: the position of an entry, from 1.
type Positions = HashMap<CallId, u32>;

// For each process that made a call: the position of its last one, from 1.
type LastCalls = HashMap<ProcessName, u32>;

/// For each call of a run: the position of the entry that makes it, and of the entry that answers it, if one does. For
/// each process: the position of its last call.
#[derive(Drop)]
pub(crate) struct CallTimes {
    begins: Positions,
    ends: Positions,
    lasts: LastCalls,
}

impl CallTimes {
    /// The times of the calls of a run with these entries.
    ///
    /// # Errors
    /// `AllocError` where a request for memory was refused.
    pub(crate) fn of(alloc: Global, entries: &[Entry]) -> Result<CallTimes, AllocError>
        requires { length entries.now ≤ journal_limit }
        ensures { IfOk result (λ times. AreTimes entries.now times (length entries.now)) }
    {
        let mut times = CallTimes {
            begins: HashMap::new(alloc),
            ends: HashMap::new(alloc),
            lasts: HashMap::new(alloc),
        };
        for (index, entry) in entries.iter().enumerate() {
            times.note(index as u32 + 1, entry)?;
        }
        Ok(times)
    }

    // Notes the entry at the position.
    fn note(&mut self, position: u32, entry: &Entry) -> Result<(), AllocError>
        ensures { OnOk result ((es : List Entry) (before : ℕ) → EntryAt es position entry.now → position ≡ before + 1 → AreTimes es self.old before → AreTimes es self.new position) }
    {
        note_call(&mut self.begins, position, entry)?;
        note_reply(&mut self.ends, position, entry)?;
        note_last(&mut self.lasts, position, entry)
    }

    /// Whether the call was answered.
    pub(crate) fn is_answered(&self, id: CallId) -> bool
        ensures { result ≡ is_some (position_of_call self.now.ends id) }
    {
        position_of_call(&self.ends, id).is_some()
    }

    /// The position of the last call that the process of a call with this name makes, if it makes one.
    pub(crate) fn last_call(&self, id: CallId, pid: u16) -> Option<u32>
        ensures { result ≡ last_of self.now.lasts (name_of (caller id pid)) }
    {
        self.lasts.get(&name_of(id, pid)).copied()
    }

    /// The positions at which the item's call was made and answered; of a failed node both are that of the item.
    pub(crate) fn of_item(&self, item: &Item) -> (u32, u32)
        requires { IsKnown self.now item.now }
        ensures { IsKept self.now item.now result.0 result.1 }
    {
        match *item {
            Item::Answered { id, .. } => {
                let begin = position_of_call(&self.begins, id);
                let end = position_of_call(&self.ends, id);
                let (Some(begin), Some(end)) = (begin, end) else {
                    unreachable!()
                };
                (begin, end)
            }
            Item::Gone { position, .. } => (position, position),
        }
    }
}

// Notes the position of the call that the entry makes, if it makes one.
fn note_call(positions: &mut Positions, position: u32, entry: &Entry) -> Result<(), AllocError>
    ensures { OnOk result ((es : List Entry) (before : ℕ) → EntryAt es position entry.now → position ≡ before + 1 → AreFound (IsMade es) positions.old before → AreFound (IsMade es) positions.new position) }
{
    match entry.call() {
        Some(id) => note(positions, id, position),
        None => Ok(()),
    }
}

// Notes the position of the reply that the entry gives, if it gives one.
fn note_reply(positions: &mut Positions, position: u32, entry: &Entry) -> Result<(), AllocError>
    ensures { OnOk result ((es : List Entry) (before : ℕ) → EntryAt es position entry.now → position ≡ before + 1 → AreFound (IsAnswered es) positions.old before → AreFound (IsAnswered es) positions.new position) }
{
    match entry.reply() {
        Some(answer) => note(positions, answer.0, position),
        None => Ok(()),
    }
}

// Notes the position of the call that the entry makes, if it makes one, as that of the last one of its process.
fn note_last(lasts: &mut LastCalls, position: u32, entry: &Entry) -> Result<(), AllocError>
    ensures { OnOk result ((es : List Entry) (before : ℕ) → EntryAt es position entry.now → position ≡ before + 1 → AreLast es lasts.old before → AreLast es lasts.new position) }
{
    match made_by(entry) {
        Some(made) => note_process(lasts, &made, position),
        None => Ok(()),
    }
}

// Notes the position for the process of the call.
fn note_process(lasts: &mut LastCalls, made: &MadeCall, position: u32) -> Result<(), AllocError>
    ensures { OnOk result (NotesLast lasts.old (name_of (caller made.now.id made.now.pid)) position lasts.new) }
{
    lasts.insert(name_of(made.id, made.pid), position)?;
    Ok(())
}

// The position that is noted for the call, if one is.
fn position_of_call(positions: &Positions, id: CallId) -> Option<u32>
    ensures { result ≡ position_of_call positions.now id }
{
    positions.get(&id).copied()
}

// Notes the position of the call.
fn note(positions: &mut Positions, id: CallId, position: u32) -> Result<(), AllocError>
    ensures { OnOk result (Notes positions.old id position positions.new) }
{
    positions.insert(id, position)?;
    Ok(())
}
