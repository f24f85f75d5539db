//! Whether the journal of a file is one of a run, and its history.
ghost use Rattle.std.specs.Prelude.{◌≡◌, ◌≢◌, ◌≤◌, length, string_bytes, IfErr, IfOk, ◌<◌, ◌+◌, [], None};
ghost use Rattle.cluster_core.specs.rule.Journals.{JournalFields};
ghost use Rattle.cluster_core.specs.rule.World.{journal_limit};
ghost use Rattle.command_line.specs.rule.Tasks.{audit, history};
ghost use Rattle.journal_text.specs.rule.Readings.{HasLength};
ghost use Rattle.replay.specs.declared.fault.Fault.TheVariants.{CannotWriteOutput, NoMemory};
ghost use Rattle.replay.specs.rule.Audits.{HasJournal, HasNewJournal, IsAudited, IsHistoryUnless, IsVerdict, WritesFew, Knows};
ghost use Rattle.replay.specs.rule.Commands.{Does, IsFault};
ghost use Rattle.replay.specs.rule.Faults.{IsJournalFault, IsOldFault, IsTextFault};
ghost use Rattle.replay.specs.rule.Stores.{SameFiles};
ghost use Rattle.cluster_core.specs.rule.Parts.{world_state};

use crate::{Fault, Shown, Store, push_history_of, text_of};
use cluster_core::{CheckError, JOURNAL_LIMIT, Journal, World, comes_next};
use journal_text::parse::{is_old, measure, read_each, shape_of};
use journal_text::sink::Sink;
use messages::{Entry, Shape};
use player::Watcher;
use run_clients::text::clients_text;
use std::alloc::{AllocError, Global};

// What an audit of the entries of a journal comes to.
#[derive(Drop)]
pub(crate) enum Audited {
    // They are a run, of which this is the journal.
    Run(Journal),
    // The first that is not the next step, by its position, from 1.
    Wrong(u32),
}

// Whether the journal of a file is one of a run.
pub(crate) fn audit<'a, S: Store, V: Watcher>(
    alloc: Global,
    store: &mut S,
    path: &'a str,
    watcher: &mut V,
) -> Result<Shown, Fault<'a>>
    ensures done { IfOk result (Does (S.holds store.old) (audit path.now) (S.holds store.new)) }
    ensures fault { IfErr result (λ fault. (fault ≢ CannotWriteOutput)
        × IsFault (S.holds store.old) (S.ran_short store.new) (S.refuses store.new) (audit path.now) (S.holds store.new) fault) }
{
    let text = text_of(alloc, store, path)?;
    match first_wrong(alloc, text.as_str(), watcher)? {
        None => Ok(Shown::Yes),
        Some(position) => Ok(Shown::No(position)),
    }
}

// The history of the journal of a file, where it is one of a run, or what its clients saw, if that is asked for.
pub(crate) fn history<'a, S: Store>(
    alloc: Global,
    store: &mut S,
    path: &'a str,
    as_clients: bool,
) -> Result<Shown, Fault<'a>>
    ensures done { IfOk result (Does (S.holds store.old) (history path.now as_clients) (S.holds store.new)) }
    ensures fault { IfErr result (λ fault. (fault ≢ CannotWriteOutput)
        × IsFault (S.holds store.old) (S.ran_short store.new) (S.refuses store.new) (history path.now as_clients) (S.holds store.new) fault) }
{
    match checked(alloc, store, path)? {
        Audited::Run(journal) => match history_text(alloc, journal, as_clients) {
            Ok(text) => Ok(Shown::Text(text)),
            Err(_) => Err(Fault::NoMemory),
        },
        Audited::Wrong(position) => Ok(Shown::No(position)),
    }
}

// The position of the first entry of the journal that the text writes that is not the next step, if there is one. Its entries are
// not kept. Where memory is short, what is wrong with the text is still told first.
fn first_wrong<'a, V: Watcher>(
    alloc: Global,
    text: &str,
    watcher: &mut V,
) -> Result<Option<u32>, Fault<'a>>
    ensures verdict { IfOk result (λ wrong. (j : JournalFields) × WritesFew text.now j × IsVerdict j wrong) }
    ensures fault { IfErr result (IsTextFault text.now) }
{
    let wrong = audited_in(alloc, text, watcher);
    if let Err(Fault::NoMemory) = &wrong {
        let _ = measured(text)?;
    }
    wrong
}

// The same by one walk over the text, where memory may be short before a bad line is reached.
fn audited_in<'a, V: Watcher>(
    alloc: Global,
    text: &str,
    watcher: &mut V,
) -> Result<Option<u32>, Fault<'a>>
    ensures verdict { IfOk result (λ wrong. (j : JournalFields) × WritesFew text.now j × IsVerdict j wrong) }
    ensures fault { IfErr result (λ fault. fault ≢ NoMemory → IsTextFault text.now fault) }
{
    let shape = shape_of(text)?;
    watcher.begin("entries", count_told(text));
    let mut auditor = Auditor::new(alloc, shape, watcher)?;
    let _ = read_each(alloc, text, &mut auditor)?;
    if auditor.taken > JOURNAL_LIMIT {
        return Err(Fault::JournalFull);
    }
    Ok(auditor.wrong)
}

// How many entries the last line tells, if it does.
fn count_told(text: &str) -> Option<u64> {
    let (_, line) = text.trim_end_matches('\n').rsplit_once('\n')?;
    line.strip_prefix("end ")?.parse().ok()
}

// The shape and the number of the entries of the journal that the text writes, where they are no more
// than a journal may have. No memory is asked for.
fn measured<'a>(text: &str) -> Result<(Shape, u32), Fault<'a>>
    ensures journal { IfOk result (λ found. HasLength text.now found.0 found.1 × (found.1 ≤ journal_limit)) }
    ensures fault { IfErr result (IsTextFault text.now) }
{
    let (shape, count) = measure(text)?;
    if count > JOURNAL_LIMIT {
        return Err(Fault::JournalFull);
    }
    Ok((shape, count))
}

// What an audit of the journal of a file comes to.
pub(crate) fn checked<'a, S: Store>(
    alloc: Global,
    store: &mut S,
    path: &'a str,
) -> Result<Audited, Fault<'a>>
    ensures audited { IfOk result (λ audited. (j : JournalFields) × HasJournal (S.holds store.old path.now) j × IsAudited j audited) }
    ensures fault { IfErr result (IsJournalFault (S.holds store.old path.now) (S.ran_short store.new) path.now) }
    ensures files { SameFiles (S.holds store.old) (S.holds store.new) }
{
    let text = text_of(alloc, store, path)?;
    checked_text(alloc, text)
}

// What an audit of the journal of a file comes to, behind which a run is to go on. One of version 1 is
// refused by its first line.
pub(crate) fn checked_new<'a, S: Store>(
    alloc: Global,
    store: &mut S,
    path: &'a str,
) -> Result<Audited, Fault<'a>>
    ensures audited { IfOk result (λ audited. (j : JournalFields) × HasNewJournal (S.holds store.old path.now) j × IsAudited j audited) }
    ensures fault { IfErr result (IsOldFault (S.holds store.old path.now) (S.ran_short store.new) path.now) }
    ensures files { SameFiles (S.holds store.old) (S.holds store.new) }
{
    let text = text_of(alloc, store, path)?;
    if is_old(text.as_str()) {
        return Err(Fault::OldJournal);
    }
    checked_text(alloc, text)
}

// What an audit of the journal that the text writes comes to. The text goes once its entries are read.
fn checked_text<'a>(alloc: Global, text: String) -> Result<Audited, Fault<'a>>
    ensures audited { IfOk result (λ audited. (j : JournalFields) × WritesFew (string_bytes text) j × IsAudited j audited) }
    ensures fault { IfErr result (IsTextFault (string_bytes text)) }
{
    let (shape, entries) = entries_in(alloc, text.as_str())?;
    drop(text);
    audit_of(alloc, shape, entries)
}

// What an audit of these entries of a cluster of this shape comes to.
fn audit_of<'a>(alloc: Global, shape: Shape, entries: Vec<Entry>) -> Result<Audited, Fault<'a>>
    requires { length entries.items ≤ journal_limit }
    ensures audited { IfOk result (IsAudited (record { shape = shape; entries = entries.items })) }
    ensures fault { IfErr result (λ fault. fault ≡ NoMemory) }
{
    match Journal::check(alloc, shape, entries) {
        Ok(journal) => Ok(Audited::Run(journal)),
        Err(CheckError::NotARun(position)) => Ok(Audited::Wrong(position)),
        Err(CheckError::JournalFull) => Err(Fault::JournalFull),
        Err(CheckError::NoMemory) => Err(Fault::NoMemory),
    }
}

// The shape and the entries of the journal that the text writes. Where memory is short, what is wrong with the
// text is still told first.
fn entries_in<'a>(alloc: Global, text: &str) -> Result<(Shape, Vec<Entry>), Fault<'a>>
    ensures entries { IfOk result (λ made. WritesFew text.now (record { shape = made.0; entries = made.1.items })) }
    ensures fault { IfErr result (IsTextFault text.now) }
{
    let made = entries_read(alloc, text);
    if let Err(Fault::NoMemory) = &made {
        let _ = measured(text)?;
    }
    made
}

// The same by one walk over the text, where memory may be short before a bad line is reached.
fn entries_read<'a>(alloc: Global, text: &str) -> Result<(Shape, Vec<Entry>), Fault<'a>>
    ensures entries { IfOk result (λ made. WritesFew text.now (record { shape = made.0; entries = made.1.items })) }
    ensures fault { IfErr result (λ fault. fault ≢ NoMemory → IsTextFault text.now fault) }
{
    let count = count_told(text).unwrap_or(0).min(u64::from(JOURNAL_LIMIT));
    let mut entries = Vec::with_capacity(alloc, count as usize)?;
    let shape = read_each(alloc, text, &mut entries)?;
    if entries.len() > JOURNAL_LIMIT as usize {
        return Err(Fault::JournalFull);
    }
    Ok((shape, entries))
}

// The history of a run as text, or what its clients saw, if that is asked for.
fn history_text(alloc: Global, journal: Journal, as_clients: bool) -> Result<String, AllocError>
    ensures { IfOk result (λ text. IsHistoryUnless as_clients journal (string_bytes text)) }
{
    if as_clients {
        return clients_text(alloc, journal);
    }
    let mut text = String::new(alloc);
    push_history_of(&mut text, alloc, &journal)?;
    Ok(text)
}

// An audit of entries that come one after the other. None is kept, and a watcher is told of each.
#[derive(Drop)]
pub(crate) struct Auditor<'a, V> {
    // Where the entries so far led, while each was the next step.
    world: World,
    // How many entries came, or one more than a journal may have where they are more.
    pub(crate) taken: u32,
    // The position of the first that was not.
    pub(crate) wrong: Option<u32>,
    watcher: &'a mut V,
}

// One entry more, but no more than one more than a journal may have.
fn counted(taken: u32) -> u32
    ensures more { taken ≤ journal_limit → result ≡ taken + 1 }
    ensures full { journal_limit < taken → result ≡ taken }
{
    if taken > JOURNAL_LIMIT {
        taken
    } else {
        taken + 1
    }
}

impl<'a, V: Watcher> Auditor<'a, V> {
    // Before the first entry.
    pub(crate) fn new(
        alloc: Global,
        shape: Shape,
        watcher: &'a mut V,
    ) -> Result<Auditor<'a, V>, AllocError>
        ensures { IfOk result (λ auditor. Knows shape (world_state auditor.world) auditor.taken auditor.wrong []) }
    {
        Ok(Auditor {
            world: World::new(alloc, shape)?,
            taken: 0,
            wrong: None,
            watcher,
        })
    }
}

impl<V: Watcher> Sink for Auditor<'_, V> {
    ghost took = { λ a s es. Knows s (world_state a.world) a.taken a.wrong es };

    fn take(&mut self, alloc: Global, entry: Entry) -> Result<(), AllocError> {
        self.watcher.pass();
        let taken = counted(self.taken);
        if self.wrong.is_some() {
            self.taken = taken;
            return Ok(());
        }
        if !comes_next(&mut self.world, alloc, &entry)? {
            self.wrong = Some(taken);
        }
        self.taken = taken;
        Ok(())
    }
}
