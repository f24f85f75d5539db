//! The one history of a run.
ghost use Rattle.std.specs.Prelude.{ℕ, ◌≡◌, ◌≤◌, ◌<◌, ◌+◌, ⊤, List, ◌++◌, ◌∷◌, [], length, slice_get, All, Some, None, is_some, IfOk, OnOk, MatchOption};
ghost use Rattle.model.specs.declared.call.CallId.{CallId};
ghost use Rattle.model.specs.declared.reply.Reply.{Reply};
ghost use Rattle.messages.specs.declared.entry.Entry.{Entry};
ghost use Rattle.std.specs.HashMap.{get};
ghost use Rattle.cluster_core.specs.rule.World.{journal_limit};
ghost use Rattle.cluster_core.specs.rule.Safe.{LeadsToSafe};
ghost use Rattle.cluster_core.specs.rule.Histories.{HasHistory, EachAtItsPlace};
ghost use Rattle.cluster_core.specs.code.Calls.{find_call, gone_at, item_of, slots_after, slots_of, items_in};
ghost use Rattle.placement.specs.declared.revoke_id.RevokeId.{RevokeId};
ghost use Rattle.placement.specs.code.Indexes.{Indexes, Locates, Notes, AreBefore, KnowsDenial, same_revoke, denied, told_at, slot_of, stands, standing};

use crate::call_index::CallIndex;
use crate::history::History;
use crate::revoke_id::RevokeId;
use crate::slot::{Slot, gone_at};
use cluster_core::{Item, Journal};
use messages::{Entry, Event, Message, NodeInput};
use model::CallId;
use std::alloc::{AllocError, Global};
use std::collections::HashMap;

// For each revoke that a denial names, by its name: one more than the index of the first entry that sends a conflict with
// it, or 0 before one does.
type Conflicts = HashMap<RevokeId, u32>;

/// The one history of the journal's run: each answered call at its place, each declared failure at its declaration,
/// and nothing else. A call that a server denied stands at the entry at which the holder of the lock first did the
/// revoke that the denial names, every other call at the entry that answers it. A single machine's table allows the
/// history from the first item to the last, and ends with what the live nodes hold.
///
/// # Errors
/// `AllocError` where a request for memory was refused.
pub fn placed(alloc: Global, journal: &Journal) -> Result<History, AllocError>
    ensures version { IfOk result (λ history. history.version ≡ journal.now.shape.version) }
    ensures history { IfOk result (λ history. HasHistory journal.now.shape journal.now.entries history.items) }
    ensures at_places { IfOk result (λ history. EachAtItsPlace journal.now.entries history.items) }

    // After the run tokens of two nodes don't conflict, and locks are covered by tokens.
    ensures safe { LeadsToSafe journal.now.shape journal.now.entries }
{
    let entries = journal.entries();
    let slots = places(alloc, journal)?;
    let items = items_in(alloc, entries, slots.as_slice())?;
    Ok(History::of_rising(journal.shape().version(), items))
}

/// What stands in that history at each entry of the journal. An item is made when it is asked for.
///
/// # Errors
/// `AllocError` where a request for memory was refused.
pub fn places(alloc: Global, journal: &Journal) -> Result<Vec<Slot>, AllocError>
    ensures stands { IfOk result (λ slots. standing journal.now.entries 0 slots.items ≡ slots_of journal.now.entries) }
    ensures few { IfOk result (λ slots. length slots.items ≤ journal_limit) }
    ensures history { HasHistory journal.now.shape journal.now.entries (items_in (slots_of journal.now.entries)) }
    ensures at_places { EachAtItsPlace journal.now.entries (items_in (slots_of journal.now.entries)) }
{
    let _ = journal.shape(); // tells the proof that the shape is one that is served
    slots_of(alloc, journal.entries())
}

// The slots of the history, one for each entry, made in two passes over the entries: the first finds the denials.
fn slots_of(alloc: Global, entries: &[Entry]) -> Result<Vec<Slot>, AllocError>
    requires { length entries.now ≤ journal_limit }
    ensures { IfOk result (λ slots. standing entries.now 0 slots.items ≡ slots_of entries.now) }
{
    let mut calls = CallIndex::new(alloc);
    let mut conflicts = denials(alloc, entries)?;
    let mut slots = Vec::with_capacity(alloc, entries.len())?;
    for (index, entry) in entries.iter().enumerate() {
        note_call(alloc, &mut calls, index, entry)?;
        answer(&mut slots, &calls, &conflicts, entry)?;
        note_conflicts(&mut conflicts, index, entry)?;
    }
    Ok(slots)
}

// Adds the call that the entry makes to the index, if it makes one and the index has none of that name. `index`
// entries came before it.
fn note_call(
    alloc: Global,
    calls: &mut CallIndex,
    index: usize,
    entry: &Entry,
) -> Result<(), AllocError>
    requires room { index < journal_limit }
    ensures { OnOk result ((all es : List Entry) → slice_get all index ≡ Some entry.now → Indexes all calls.old es → Indexes all calls.new (es ++ entry.now ∷ [])) }
{
    let Some(id) = entry.call() else {
        return Ok(());
    };
    let Event::AtNode(_, input) = entry.event() else {
        return Ok(());
    };
    let NodeInput::Call { .. } = input else {
        return Ok(());
    };
    calls.note(alloc, id, index as u32)
}

// The revokes that denials among the entries name, each without a conflict.
fn denials(alloc: Global, entries: &[Entry]) -> Result<Conflicts, AllocError>
    ensures untold { IfOk result (λ conflicts. (r : RevokeId) → told_at (get same_revoke conflicts r) ≡ None) }
    ensures known { IfOk result (λ conflicts. All (λ e. KnowsDenial conflicts e.event) entries.now) }
{
    let mut conflicts = HashMap::new(alloc);
    for entry in entries {
        if let Some(revoke) = denied(entry.event()) {
            conflicts.insert(revoke, 0)?;
        }
    }
    Ok(conflicts)
}

// The revoke that the event names, where it delivers a denial.
fn denied(event: &Event) -> Option<RevokeId>
    ensures { result ≡ denied event.now }
{
    let Event::Deliver(message) = event else {
        return None;
    };
    let Message::Deny {
        file,
        holder,
        number,
        ..
    } = *message.get()
    else {
        return None;
    };
    Some(RevokeId {
        file,
        holder,
        number,
    })
}

// Notes each conflict that the entry sends, where the index knows its revoke and has no conflict with that. `index`
// entries came before it.
fn note_conflicts(conflicts: &mut Conflicts, index: usize, entry: &Entry) -> Result<(), AllocError>
    requires room { index < journal_limit }
    ensures located { OnOk result ((es : List Entry) → length es ≡ index → Locates conflicts.old es → Locates conflicts.new (es ++ entry.now ∷ [])) }
    ensures known { OnOk result ((r : RevokeId) → is_some (get same_revoke conflicts.new r) ≡ is_some (get same_revoke conflicts.old r)) }
{
    for message in entry.sends() {
        note_conflict(conflicts, index, message.get())?;
    }
    Ok(())
}

// Notes the message, if it is a conflict and the index knows its revoke and has no conflict with that. The entry with
// that index sends it.
fn note_conflict(
    conflicts: &mut Conflicts,
    index: usize,
    message: &Message,
) -> Result<(), AllocError>
    requires room { index < journal_limit }
    ensures { OnOk result (Notes conflicts.old index message.now conflicts.new) }
{
    let Message::Conflict {
        file,
        number,
        holder,
        ..
    } = *message
    else {
        return Ok(());
    };
    let told = RevokeId {
        file,
        holder,
        number,
    };
    if conflicts.get(&told).copied() == Some(0) {
        conflicts.insert(told, index as u32 + 1)?;
    }
    Ok(())
}

// Appends the slot of an entry that comes after those of `conflicts`. If the entry answers a call of `calls`, the
// call goes to its place.
fn answer(
    slots: &mut Vec<Slot>,
    calls: &CallIndex,
    conflicts: &Conflicts,
    entry: &Entry,
) -> Result<(), AllocError>
    requires room { length slots.now.items < journal_limit }
    requires before { AreBefore conflicts.now (length slots.now.items) }
    requires known { KnowsDenial conflicts.now entry.now.event }
    ensures { OnOk result ((all es : List Entry) → slice_get all (length slots.old.items) ≡ Some entry.now → length es ≡ length slots.old.items → Indexes all calls.now (es ++ entry.now ∷ []) → Locates conflicts.now es → standing all 0 slots.new.items ≡ slots_after es (standing all 0 slots.old.items) entry.now entry.now.reply) }
{
    let own = slots.len();
    let Some(answered) = entry.reply() else {
        slots.push(slot_of_failure(entry, own as u32))?;
        return Ok(());
    };
    slots.push(Slot::Empty)?;
    if let Some(index) = slot_of(conflicts, own, entry.event()) {
        slots[index] = slot_at(calls, answered.0, own as u32);
    }
    Ok(())
}

// The slot of an entry with that index that answers no call: it may declare the failure of a node.
fn slot_of_failure(entry: &Entry, index: u32) -> Slot
    requires { index < journal_limit }
    ensures { (all : List Entry) → slice_get all index ≡ Some entry.now → stands all index result ≡ gone_at (index + 1) entry.now.incarnation entry.now.event }
{
    if gone_at(index + 1, entry).is_none() {
        return Slot::Empty;
    }
    Slot::Declared
}

// The slot for the call that an entry with this event answers: a denied call stands at the first entry that sent the
// conflict, any other at its reply.
fn slot_of(conflicts: &Conflicts, own: usize, event: &Event) -> Option<usize>
    requires before { AreBefore conflicts.now own }
    requires known { KnowsDenial conflicts.now event.now }
    ensures within { MatchOption result ⊤ (λ index. index ≤ own) }
    ensures slot { (es : List Entry) → Locates conflicts.now es → result ≡ slot_of es own event.now }
{
    let Some(revoke) = denied(event) else {
        return Some(own);
    };
    let place = *conflicts.get(&revoke)?;
    if place == 0 {
        return None;
    }
    Some(place as usize - 1)
}

// The slot, wherever it is, of a call of the index, which the entry with the index `reply` answers.
fn slot_at(calls: &CallIndex, id: CallId, reply: u32) -> Slot
    ensures { (at : ℕ) (all es : List Entry) → Indexes all calls.now es → (e : Entry) (r : CallId × Reply) → slice_get all reply ≡ Some e → e.reply ≡ Some r → r.0 ≡ id → stands all at result ≡ item_of (at + 1) r.0 r.1 (find_call es r.0) }
{
    match calls.get(id) {
        Some(call) => Slot::Answered { call, reply },
        None => Slot::Empty,
    }
}

// The items in the slots, in order.
fn items_in(alloc: Global, entries: &[Entry], slots: &[Slot]) -> Result<Vec<Item>, AllocError>
    requires { length slots.now ≤ journal_limit }
    ensures { IfOk result (λ items. items.items ≡ items_in (standing entries.now 0 slots.now)) }
{
    let mut items = Vec::new(alloc);
    for (index, slot) in slots.iter().enumerate() {
        if let Some(item) = slot.item(entries, index) {
            items.push(item)?;
        }
    }
    Ok(items)
}
