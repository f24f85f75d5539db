//! Running the script of a file, and listings of runs.
ghost use Rattle.std.specs.Prelude.{◌≡◌, ◌≢◌, None, Some, option_map, string_bytes, IfErr, IfOk, OnOk, ◌&&◌, ◌||◌, ℕ, List, drop, Bool, is_some, ◌≤◌, ◌++◌, [], length, flat_map};
ghost use Rattle.cluster_core.specs.rule.Parts.{world_state};
ghost use Rattle.command_line.specs.rule.Tasks.{run};
ghost use Rattle.journal_text.specs.rule.Journals.{journal_text};
ghost use Rattle.player.specs.code.Rounds.{state_of};
ghost use Rattle.player.specs.rule.Progress.{EndsIn, PlayedState};
ghost use Rattle.replay.specs.declared.fault.Fault.TheVariants.{CannotWriteOutput};
ghost use Rattle.replay.specs.rule.Commands.{Does, IsFault, IsReadFrom, IsRunText, KeepsJournal, ShowsRun};
ghost use Rattle.replay.specs.rule.Faults.{IsUnkept, IsBehindFault, IsScriptFault};
ghost use Rattle.player.specs.rule.Expectations.{breaks_behind, IsCompared};
ghost use Rattle.lockscript.specs.rule.Scripts.{LineFields};
ghost use Rattle.messages.specs.declared.version.Version.TheVariants.{Second};
ghost use Rattle.replay.specs.rule.Scripts.{IsListing, IsListingBegun};
ghost use Rattle.replay.specs.code.Comparing.{HasRan, IsExpecting, WentBehind};
ghost use Rattle.replay.specs.rule.Stores.{SameFiles};
ghost use Rattle.std.specs.List.{cons_option};
ghost use Rattle.cluster_core.specs.rule.World.{journal_limit};
ghost use Rattle.cluster_core.specs.code.Calls.{items_in};
ghost use Rattle.lockscript.specs.rule.Listing.{history_line};
ghost use Rattle.placement.specs.code.Indexes.{standing};
ghost use Rattle.replay.specs.rule.Audits.{IsHistoryText};

use crate::{Audited, Fault, Shown, Store, checked_new, keep_journal, text_of};
use cluster_core::{Item, Journal, World};
use command_line::command_line::RunLine;
use journal_text::laws::each_journal_is_read;
use lockscript::{RefusedLine, Script, ScriptLine, listing_start, push_item};
use messages::{Entry, Refused};
use placement::placed::places;
use placement::slot::Slot;
use player::Played;
use player::compared::compared;
use player::play::{Watcher, play, play_after};
use std::alloc::{AllocError, Global};
use std::fmt::Write;

/// What is shown of what the script of a file comes to. The journal of the run is written to a file, if one is named. It
/// takes its place once all else that needs memory is done.
pub(crate) fn run_alone<'a, S: Store, V: Watcher>(
    alloc: Global,
    store: &mut S,
    asked: RunLine<'a>,
    watcher: &mut V,
) -> Result<Shown, Fault<'a>>
    ensures done { IfOk result (Does (S.holds store.old) (run asked.entry.script.now None (option_map (λ file. file.now) asked.entry.journal) asked.entry.expect asked.entry.quiet asked.entry.calm) (S.holds store.new)) }
    ensures fault { IfErr result (λ fault. (fault ≢ CannotWriteOutput)
        × IsFault (S.holds store.old) (S.ran_short store.new) (S.refuses store.new) (run asked.entry.script.now None (option_map (λ file. file.now) asked.entry.journal) asked.entry.expect asked.entry.quiet asked.entry.calm) (S.holds store.new) fault) }
{
    let (played, told) = run_of(alloc, store, asked, watcher)?;
    let text = text_kept(alloc, store, asked.journal, played, asked.quiet)?;
    Ok(shown_beside(text, told))
}

/// The same of a script that goes on behind the journal of another file, which is audited first.
pub(crate) fn run_behind<'a, S: Store, V: Watcher>(
    alloc: Global,
    store: &mut S,
    asked: RunLine<'a>,
    after: &'a str,
    watcher: &mut V,
) -> Result<Shown, Fault<'a>>
    ensures done { IfOk result (Does (S.holds store.old) (run asked.entry.script.now (Some after.now) (option_map (λ file. file.now) asked.entry.journal) asked.entry.expect asked.entry.quiet asked.entry.calm) (S.holds store.new)) }
    ensures fault { IfErr result (λ fault. (fault ≢ CannotWriteOutput)
        × IsFault (S.holds store.old) (S.ran_short store.new) (S.refuses store.new) (run asked.entry.script.now (Some after.now) (option_map (λ file. file.now) asked.entry.journal) asked.entry.expect asked.entry.quiet asked.entry.calm) (S.holds store.new) fault) }
{
    let before = match checked_new(alloc, store, after)? {
        Audited::Run(before) => before,
        Audited::Wrong(position) => return Ok(Shown::No(position)),
    };
    let (played, told) = run_behind_of(alloc, store, asked, before, watcher)?;
    let text = text_kept(alloc, store, asked.journal, played, asked.quiet)?;
    Ok(shown_beside(text, told))
}

// What is shown of a run, whose journal is written to a file, if one is named.
fn text_kept<'a, S: Store>(
    alloc: Global,
    store: &mut S,
    file: Option<&'a str>,
    played: Played,
    quiet: bool,
) -> Result<String, Fault<'a>>
    ensures text { IfOk result (λ text. IsRunText (state_of played) quiet (string_bytes text)) }
    ensures kept { OnOk result (KeepsJournal (S.holds store.old) (option_map (λ file. file.now) file.entry) (journal_text played.journal.shape played.journal.entries) (S.holds store.new)) }
    ensures read { OnOk result (IsReadFrom (option_map (λ file. file.now) file.entry) played.journal) }
    ensures fault { IfErr result (IsUnkept (S.holds store.old) (S.refuses store.new) (option_map (λ file. file.now) file.entry) (S.holds store.new)) }
{
    let (journal, world, refused) = played.into_parts();
    each_journal_is_read(&journal);
    let text = listing_unless(alloc, &journal, world, refused.as_slice(), quiet)?;
    keep_journal(alloc, store, file, journal)?;
    Ok(text)
}

// What is shown of the run of a journal that ends in this world, in which these lines were refused.
fn listing_unless(
    alloc: Global,
    journal: &Journal,
    world: World,
    refused: &[RefusedLine],
    quiet: bool,
) -> Result<String, AllocError>
    requires { EndsIn journal.now (world_state world) }
    ensures { IfOk result (λ text. IsRunText (state_of (record { journal = journal.now; world = world; refused = refused.now })) quiet (string_bytes text)) }
{
    if quiet {
        Ok(String::new(alloc))
    } else {
        listing_of(alloc, journal, world, refused)
    }
}

// What the script of a file comes to, and what is told of it, if anything is: a line for each reply that begins otherwise than
// the script expects, where the two are compared, and one where an event that was refused cut its rounds off.
fn run_of<'a, S: Store, V: Watcher>(
    alloc: Global,
    store: &mut S,
    asked: RunLine<'a>,
    watcher: &mut V,
) -> Result<(Played, Option<String>), Fault<'a>>
    ensures run { IfOk result (HasRan (S.holds store.old asked.entry.script.now) asked.entry.expect asked.entry.calm) }
    ensures fault { IfErr result (IsScriptFault (S.holds store.old asked.entry.script.now) (S.ran_short store.new) asked.entry.script.now) }
    ensures files { SameFiles (S.holds store.old) (S.holds store.new) }
{
    let text = text_of(alloc, store, asked.script)?;
    let script = Script::parse(alloc, text.as_str())?;
    let expecting = kept_to_compare(alloc, text, &script, asked.expect)?;
    let (played, cut) = play(alloc, script, asked.calm, watcher)?;
    let compared = told_of(alloc, &expecting, &played, 0)?;
    let told = with_end(alloc, compared, cut)?;
    Ok((played, told))
}

// What the script of a file comes to behind the run of a journal, and what is told of it, where its replies are to be
// compared.
pub(crate) fn run_behind_of<'a, S: Store, V: Watcher>(
    alloc: Global,
    store: &mut S,
    asked: RunLine<'a>,
    journal: Journal,
    watcher: &mut V,
) -> Result<(Played, Option<String>), Fault<'a>>
    requires { journal.shape.version ≡ Second }
    ensures run { IfOk result (WentBehind (S.holds store.old asked.entry.script.now) journal asked.entry.expect asked.entry.calm) }
    ensures fault { IfErr result (IsBehindFault journal (S.holds store.old asked.entry.script.now) (S.ran_short store.new) asked.entry.script.now) }
    ensures files { SameFiles (S.holds store.old) (S.holds store.new) }
{
    let text = text_of(alloc, store, asked.script)?;
    let script = Script::parse_for_shape(alloc, &journal.shape(), text.as_str())?;
    let expecting = kept_to_compare(alloc, text, &script, asked.expect)?;
    let earlier = journal.entries().len();
    let (played, cut) = play_after(alloc, script, journal, asked.calm, watcher)?;
    let compared = told_of(alloc, &expecting, &played, earlier)?;
    let told = with_end(alloc, compared, cut)?;
    Ok((played, told))
}

// The text and the lines of the script, where they are needed behind its run. Else the text goes.
fn kept_to_compare(
    alloc: Global,
    text: String,
    script: &Script,
    compares: bool,
) -> Result<Option<(String, Vec<ScriptLine>)>, AllocError>
    ensures { IfOk result (IsExpecting compares (string_bytes text) script.now.lines) }
{
    if !compares {
        return Ok(None);
    }
    let lines = script.lines().to_vec(alloc)?;
    Ok(Some((text, lines)))
}

// What is told of a run that had so many entries before the script.
fn told_of(
    alloc: Global,
    expecting: &Option<(String, Vec<ScriptLine>)>,
    played: &Played,
    earlier: usize,
) -> Result<Option<String>, AllocError>
    ensures { (compares : Bool) (text : List ℕ) (lines : List LineFields) → IsExpecting compares text lines expecting.now
        → IfOk result (λ told. IsCompared (compares && breaks_behind text lines earlier (state_of played.now)) (option_map (λ t. string_bytes t) told)) }
{
    match expecting {
        None => Ok(None),
        Some(expecting) => compared(
            alloc,
            expecting.0.as_str(),
            expecting.1.as_slice(),
            played.refused(),
            entries_behind(played.journal().entries(), earlier),
        ),
    }
}

// What is told of a run of which this is told already, where this refusal cut its rounds off, if one did.
fn with_end(
    alloc: Global,
    told: Option<String>,
    cut: Option<Refused>,
) -> Result<Option<String>, AllocError>
    ensures { (breaking : Bool) → IsCompared breaking (option_map (λ t. string_bytes t) told)
        → IfOk result (λ whole. IsCompared (is_some cut || breaking) (option_map (λ t. string_bytes t) whole)) }
{
    let Some(refusal) = cut else {
        return Ok(told);
    };
    let mut whole = match told {
        Some(told) => told,
        None => String::new(alloc),
    };
    writeln!(whole, "not calm: {refusal}")?;
    Ok(Some(whole))
}

// The entries behind so many.
fn entries_behind(entries: &[Entry], earlier: usize) -> &[Entry]
    ensures { result.now ≡ drop earlier entries.now }
{
    match entries.get(earlier..) {
        Some(behind) => behind,
        None => &[],
    }
}

// What is shown of a run of this text.
pub(crate) fn shown_beside(text: String, told: Option<String>) -> Shown
    ensures { (played : PlayedState) (telling quiet : Bool) → IsCompared telling (option_map (λ t. string_bytes t) told)
        → IsRunText played quiet (string_bytes text) → ShowsRun played telling quiet result }
{
    match told {
        None => Shown::Text(text),
        Some(told) => Shown::Partial { text, told },
    }
}

/// The listing of the run of a journal that ends in this world, in which these lines were refused. The world goes before the
/// history is made.
///
/// # Errors
/// `AllocError` where a request for memory was refused.
pub(crate) fn listing_of(
    alloc: Global,
    journal: &Journal,
    world: World,
    refused: &[RefusedLine],
) -> Result<String, AllocError>
    requires { EndsIn journal.now (world_state world) }
    ensures { IfOk result (λ text. IsListing (state_of (record { journal = journal.now; world = world; refused = refused.now })) (string_bytes text)) }
{
    let mut text = listing_begun(alloc, journal, world, refused)?;
    push_history_of(&mut text, alloc, journal)?;
    Ok(text)
}

// The listing of a run up to its history.
fn listing_begun(
    alloc: Global,
    journal: &Journal,
    world: World,
    refused: &[RefusedLine],
) -> Result<String, AllocError>
    requires { EndsIn journal.now (world_state world) }
    ensures { IfOk result (λ text. IsListingBegun (state_of (record { journal = journal.now; world = world; refused = refused.now })) (string_bytes text)) }
{
    let tokens = world.tokens(alloc)?;
    let locks = world.locks(alloc)?;
    drop(world);
    listing_start(
        alloc,
        refused,
        journal.entries(),
        tokens.as_slice(),
        locks.as_slice(),
    )
}

/// Writes the history of a run, with its heading.
///
/// # Errors
/// `AllocError` where a request for memory was refused.
pub(crate) fn push_history_of(
    out: &mut String,
    alloc: Global,
    journal: &Journal,
) -> Result<(), AllocError>
    ensures { OnOk result ((told : List ℕ) × IsHistoryText journal.now told × (string_bytes out.new ≡ string_bytes out.old ++ told)) }
{
    let slots = places(alloc, journal)?;
    out.push_str("history\n")?;
    push_items(out, journal.entries(), slots.as_slice())
}

// Writes the lines of what stands at these entries, by their slots.
fn push_items(out: &mut String, entries: &[Entry], slots: &[Slot]) -> Result<(), AllocError>
    requires { length slots.now ≤ journal_limit }
    ensures { OnOk result (string_bytes out.new ≡ string_bytes out.old ++ flat_map history_line (items_in (standing entries.now 0 slots.now))) }
{
    for (index, slot) in slots.iter().enumerate() {
        push_standing(out, &slot.item(entries, index))?;
    }
    Ok(())
}

// Writes the line of what stands at an entry, if anything does.
fn push_standing(out: &mut String, item: &Option<Item>) -> Result<(), AllocError>
    ensures { OnOk result (string_bytes out.new ≡ string_bytes out.old ++ flat_map history_line (cons_option item.now [])) }
{
    match item {
        Some(item) => push_item(out, item),
        None => Ok(()),
    }
}
