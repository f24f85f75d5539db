//! Journals: the entries of a run as a value, checked or made from events.
ghost use Rattle.std.specs.Prelude.{◌≡◌, ◌≢◌, ◌↔◌, ◌<◌, ◌≤◌, ℕ, true, false, Ok, None, length, IfOk, IfErr, IfSome, OnOk, IsErrOf, IsOkUnless, slice_index_or};
ghost use Rattle.messages.specs.declared.refusal.Refused.TheVariants.{NoMemory};
ghost use Rattle.messages.specs.declared.entry.Entry.{Entry};
ghost use Rattle.messages.specs.rule.Shapes.{IsShape};
ghost use Rattle.cluster_core.specs.rule.Runs.{IsRun};
ghost use Rattle.cluster_core.specs.rule.World.{WorldState, journal_limit};
ghost use Rattle.cluster_core.specs.rule.Next.{next};
ghost use Rattle.cluster_core.specs.rule.Parts.{world_state};
ghost use Rattle.cluster_core.specs.rule.Journals.{events_of, IsFirstRefusal, IsFirstWrong};
ghost use Rattle.cluster_core.specs.rule.Histories.{HasOneHistory};
ghost use Rattle.cluster_core.specs.rule.Plain.{HasPlainHistory};
ghost use Rattle.cluster_core.specs.rule.Safe.{LeadsToSafe};
ghost use Rattle.cluster_core.specs.rule.Numbers.{LeadsToNumbers};
ghost use Rattle.cluster_core.specs.rule.Evidence.{DenialsHaveEvidence};

use crate::check_error::CheckError;
use crate::run::Run;
use crate::world::{JOURNAL_LIMIT, World};
use messages::{Entry, Event, Refused, Shape};
use std::alloc::{AllocError, Global};
use std::marker::Model;

/// The journal of a cluster of a shape: its entries from the beginning, which are always a run.
#[derive(Drop)]
pub struct Journal {
    shape: Shape,
    entries: Vec<Entry>,
}

impl Model for Journal {
    ghost use Rattle.cluster_core.specs.rule.Journals.{JournalFields, IsJournal};

    ghost Value = { JournalFields };

    ghost view = { λ j. record { shape = j.shape; entries = j.entries.items } };

    ghost invariant = { λ j. IsJournal (record { shape = j.shape; entries = j.entries.items }) };
}

impl Journal {
    /// The journal of these entries, which are a run and no more than a journal may have.
    pub(crate) fn of_run(shape: Shape, entries: Vec<Entry>) -> Journal
        requires served { IsShape shape }
        requires run { IsRun shape entries.items }
        requires few { length entries.items ≤ journal_limit }
        ensures { result ≡ record { shape = shape; entries = entries.items } }
    {
        Journal { shape, entries }
    }

    /// The journal of entries that a caller hands in, if they are a run of a cluster of that shape: each is the next
    /// step, in all that it says. The journal has the entries themselves, not copies.
    ///
    /// # Errors
    /// `JournalFull` where there are more than 1,048,576 entries, before anything else; `NotARun` with the position,
    /// from 1, of the first entry that is not the next step; `NoMemory` where a request for memory was refused. The
    /// entries are dropped.
    pub fn check(alloc: Global, shape: Shape, entries: Vec<Entry>) -> Result<Journal, CheckError>
        ensures value { IfOk result (λ journal. journal ≡ record { shape = shape; entries = entries.items }) }
        ensures run { OnOk result (IsRun shape entries.items) }

        // All that holds of every run holds of the journal, as at `run`.
        ensures one_table { OnOk result (HasOneHistory shape entries.items) }
        ensures plain { OnOk result (HasPlainHistory shape entries.items) }
        ensures safe { OnOk result (LeadsToSafe shape entries.items) }
        ensures numbers { OnOk result (LeadsToNumbers shape entries.items) }
        ensures evidence { OnOk result (DenialsHaveEvidence shape entries.items) }

        // A run with no more entries than a journal may have is refused only for want of memory.
        ensures accepted { IsRun shape entries.items → length entries.items ≤ journal_limit → IsOkUnless result CheckError.NoMemory }
        ensures full { IsErrOf result CheckError.JournalFull ↔ (journal_limit < length entries.items) }
        ensures wrong { (position : ℕ) → IsErrOf result (CheckError.NotARun position) → IsFirstWrong shape entries.items position }
    {
        if entries.len() > JOURNAL_LIMIT as usize {
            return Err(CheckError::JournalFull);
        }
        let mut world = World::new(alloc, shape)?;
        let mut entries = entries;
        for index in 0..entries.len() {
            if !is_taken(&mut world, alloc, &mut entries, index)? {
                return Err(CheckError::NotARun(index as u32 + 1));
            }
        }
        Ok(Journal::of_run(shape, entries))
    }

    /// The shape of the cluster, which is one that is served.
    pub fn shape(&self) -> Shape
        ensures value { result ≡ self.now.shape }
        ensures served { IsShape result }
    {
        self.shape
    }

    /// The entries, the first at position 1. They are a run. After it tokens of two nodes don't conflict, locks are
    /// covered by tokens, and locks of two nodes don't conflict.
    pub fn entries(&self) -> &[Entry]
        ensures value { result.now ≡ self.now.entries }
        ensures run { IsRun self.now.shape self.now.entries }
        ensures few { length self.now.entries ≤ journal_limit }
        ensures safe { LeadsToSafe self.now.shape self.now.entries }
    {
        self.entries.as_slice()
    }

    /// The entries, the first at position 1. The journal is used up.
    pub fn into_entries(self) -> Vec<Entry>
        ensures value { result.items ≡ self.entries }
        ensures served { IsShape self.shape }
        ensures few { length result.items ≤ journal_limit }
    {
        self.entries
    }
}

// The entry that the event makes in the world, if it equals `entry`: then the world has made the step. If none comes,
// the world may have made another step, and is of no use any more. None comes where the world has 1,048,576 entries.
fn made_next(
    world: &mut World,
    alloc: Global,
    event: Event,
    entry: &Entry,
) -> Result<Option<Entry>, AllocError>
    requires { event ≡ entry.now.event }
    ensures same { IfOk result (λ next. IfSome next (λ made. made ≡ entry.now)) }
    ensures made { IfOk result (λ n. IfSome n (λ _. next (world_state world.old) entry.now.event ≡ Ok (world_state world.new, entry.now))) }
    ensures room { IfOk result (λ n. IfSome n (λ _. world.old.length < journal_limit)) }
    ensures other { IfOk result (λ n. n ≡ None → world.old.length < journal_limit → (v : WorldState) → next (world_state world.old) entry.now.event ≢ Ok (v, entry.now)) }
{
    match world.step(alloc, event) {
        Ok(made) if made.same(entry) => Ok(Some(made)),
        Err(Refused::NoMemory) => Err(AllocError),
        _ => Ok(None),
    }
}

// Whether the entry at that index is the next step, as `comes_next` says. The entries keep their values; from then on
// the entry shares its messages with the world.
fn is_taken(
    world: &mut World,
    alloc: Global,
    entries: &mut Vec<Entry>,
    index: usize,
) -> Result<bool, AllocError>
    requires { index < length entries.old.items }
    ensures kept { entries.new.items ≡ entries.old.items }
    ensures taken { IfOk result (λ same. (e : Entry) × (e ≡ slice_index_or entries.old.items index e) × (same ≡ true → next (world_state world.old) e.event ≡ Ok (world_state world.new, e)) × (same ≡ false → world.old.length < journal_limit → (v : WorldState) → next (world_state world.old) e.event ≢ Ok (v, e))) }
{
    let entry = &entries[index];
    let event = world.as_sent(entry.event())?;
    let Some(made) = made_next(world, alloc, event, entry)? else {
        return Ok(false);
    };
    entries[index] = made;
    Ok(true)
}

/// Whether the entry is the next step: its event, taken by the world, makes this entry. Then the world has made the
/// step. On `false` the world may have made another step, and is of no use any more; a world with 1,048,576 entries
/// always gives `false`.
///
/// # Errors
/// `AllocError` where a request for memory was refused.
pub fn comes_next(world: &mut World, alloc: Global, entry: &Entry) -> Result<bool, AllocError>
    ensures made { IfOk result (λ same. same ≡ true → next (world_state world.old) entry.now.event ≡ Ok (world_state world.new, entry.now)) }
    ensures room { IfOk result (λ same. same ≡ true → world.old.length < journal_limit) }
    ensures other { IfOk result (λ same. same ≡ false → world.old.length < journal_limit → (v : WorldState) → next (world_state world.old) entry.now.event ≢ Ok (v, entry.now)) }
{
    Ok(made_next(world, alloc, entry.event().copy()?, entry)?.is_some())
}

/// The journal of a cluster that begins and takes these events, one after the other.
///
/// # Errors
/// The first refusal of an event, as `World::step` gives it; `NoMemory` where a request for memory was refused.
pub fn run(alloc: Global, shape: Shape, events: &[Event]) -> Result<Journal, Refused>
    ensures shape { IfOk result (λ journal. journal.shape ≡ shape) }
    ensures events { IfOk result (λ journal. events_of journal.entries ≡ events.now) }
    ensures run { IfOk result (λ journal. IsRun shape journal.entries) }

    // One table explains every reply, and ends with what the nodes hold.
    ensures one_table { IfOk result (λ journal. HasOneHistory shape journal.entries) }

    // One table explains the replies that name no lock, each at its own entry, and ends with what the nodes hold.
    ensures plain { IfOk result (λ journal. HasPlainHistory shape journal.entries) }

    // Tokens of two nodes don't conflict, locks are covered by tokens, and locks of two nodes don't conflict.
    ensures safe { IfOk result (λ journal. LeadsToSafe shape journal.entries) }

    // No two commands about one file to one incarnation of a node have one number.
    ensures numbers { IfOk result (λ journal. LeadsToNumbers shape journal.entries) }

    // Up to each entry: a call is denied only for a lock that blocked it after it was made, where the lock's holder
    // first did the revoke that the denial names.
    ensures evidence { IfOk result (λ journal. DenialsHaveEvidence shape journal.entries) }

    // An error says: the events before one happened, and that one is refused so.
    ensures refused { IfErr result (λ refusal. refusal ≢ NoMemory → IsFirstRefusal shape events.now refusal) }
{
    let mut run = Run::new(alloc, shape)?;
    for event in events {
        run.take(alloc, event.copy()?)?;
    }
    let (journal, _) = run.into_journal();
    Ok(journal)
}
