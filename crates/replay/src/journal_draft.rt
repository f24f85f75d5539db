//! Journals that are written piece by piece.
ghost use Rattle.std.specs.Prelude.{◌≡◌, ◌++◌, codes, option_map, Some, IfErr, OnOk, ℕ, List, Ok, IfOk};
ghost use Rattle.journal_text.specs.rule.Journals.{end_text, entries_text, head_text, journal_text};
ghost use Rattle.replay.specs.rule.Commands.{KeepsJournal};
ghost use Rattle.replay.specs.rule.Faults.{IsUnkept, IsUnwritten};
ghost use Rattle.replay.specs.rule.Stores.{Adds, SameOthers};

use crate::{Fault, FileDraft, FileReason, Store, StoreError};
use cluster_core::Journal;
use journal_text::journal::{push_end, push_entry, push_head};
use messages::{Entry, Shape, Version};
use std::alloc::{AllocError, Global};

/// Writes the journal of a run to a file, if one is named.
///
/// # Errors
/// `CannotWrite` where the file can't be written; `NoMemory` where a request for memory was refused.
pub fn keep_journal<'a, S: Store>(
    alloc: Global,
    store: &mut S,
    file: Option<&'a str>,
    journal: Journal,
) -> Result<(), Fault<'a>>
    ensures kept { OnOk result (KeepsJournal (S.holds store.old) (option_map (λ file. file.now) file.entry) (journal_text journal.shape journal.entries) (S.holds store.new)) }
    ensures fault { IfErr result (IsUnkept (S.holds store.old) (S.refuses store.new) (option_map (λ file. file.now) file.entry) (S.holds store.new)) }
{
    let Some(file) = file else {
        return Ok(());
    };
    let mut draft = store.begin(file);
    let made = add_journal(&mut draft, alloc, journal);
    committed(store, file, draft, made)?;
    Ok(())
}

/// Writes a journal, which then goes.
///
/// # Errors
/// `AllocError` where a request for memory was refused.
pub fn add_journal<D: FileDraft>(
    draft: &mut D,
    alloc: Global,
    journal: Journal,
) -> Result<(), AllocError>
    ensures { OnOk result (Adds (D.has draft.old) (D.has draft.new) (journal_text journal.shape journal.entries)) }
{
    let shape = journal.shape();
    let entries = journal.entries();
    add_head(draft, alloc, &shape)?;
    add_entries(draft, alloc, shape.version(), entries)?;
    add_end(draft, alloc, entries.len())
}

// Writes the first line of a journal.
fn add_head<D: FileDraft>(draft: &mut D, alloc: Global, shape: &Shape) -> Result<(), AllocError>
    ensures { OnOk result (Adds (D.has draft.old) (D.has draft.new) (head_text shape.now ++ codes "\n")) }
{
    let mut line = String::new(alloc);
    push_head(&mut line, shape)?;
    draft.add(line.as_bytes())
}

// Writes the lines of entries as this version has them, the first at position 1. The lines of each are made in the same room.
fn add_entries<D: FileDraft>(
    draft: &mut D,
    alloc: Global,
    version: Version,
    entries: &[Entry],
) -> Result<(), AllocError>
    ensures { OnOk result (Adds (D.has draft.old) (D.has draft.new) (entries_text version 1 entries.now)) }
{
    let mut lines = String::new(alloc);
    let mut position = 0u64;
    for entry in entries {
        position += 1;
        lines.clear();
        push_entry(&mut lines, version, position, entry)?;
        draft.add(lines.as_bytes())?;
    }
    Ok(())
}

// Writes the last line of a journal of so many entries.
fn add_end<D: FileDraft>(draft: &mut D, alloc: Global, count: usize) -> Result<(), AllocError>
    ensures { OnOk result (Adds (D.has draft.old) (D.has draft.new) (end_text count ++ codes "\n")) }
{
    let mut line = String::new(alloc);
    push_end(&mut line, count)?;
    draft.add(line.as_bytes())
}

/// What was made beside a draft, which takes the place of the file. Where memory was short for it, the draft is given up.
///
/// # Errors
/// `CannotWrite` where the file can't be written; `NoMemory` where memory was short for what was made.
pub fn committed<'a, S: Store, T: Drop>(
    store: &mut S,
    file: &'a str,
    draft: S::Draft,
    made: Result<T, AllocError>,
) -> Result<T, Fault<'a>>
    ensures made { IfOk result (λ value. made ≡ Ok value) }
    ensures written { OnOk result ((text : List ℕ) → S.Draft.has draft file.now text → S.holds store.new file.now (Some text)) }
    ensures fault { IfErr result (IsUnwritten (S.holds store.old) (S.refuses store.new) file.now (S.holds store.new)) }
    ensures others { SameOthers (S.holds store.old) (S.holds store.new) file.now }
{
    let Ok(value) = made else {
        store.abandon(draft);
        return Err(Fault::NoMemory);
    };
    match store.commit(file, draft) {
        Ok(()) => Ok(value),
        Err(StoreError::NoMemory) => Err(Fault::CannotWrite(file, FileReason::NoMemory)),
        Err(StoreError::Failed(reason)) => Err(Fault::CannotWrite(file, reason)),
    }
}
