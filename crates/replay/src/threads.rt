//! Running the script of a file on threads.
ghost use Rattle.std.specs.Prelude.{◌≡◌, ◌≢◌, None, IfErr, IfOk, ◌++◌, [], ℕ, List, true, false, codes, decimal, flat_map, string_bytes, OnOk};
ghost use Rattle.command_line.specs.rule.Tasks.{threads_task_of};
ghost use Rattle.replay.specs.declared.fault.Fault.TheVariants.{CannotWriteOutput};
ghost use Rattle.replay.specs.rule.Commands.{Does, IsFault};
ghost use Rattle.replay.specs.rule.Faults.{IsThreadsFault};
ghost use Rattle.replay.specs.rule.Stores.{SameFiles};
ghost use Rattle.replay.specs.rule.Scripts.{AreShown, HasFullJournal, HasThreadScript, IsTaken, IsTold, IsToldOf, ThreadedFields, ShowsThreads, Tells, open_line, IsCount};
ghost use Rattle.lockscript.specs.declared.play_error.PlayError.TheVariants.{JournalFull};
ghost use Rattle.lockscript.specs.rule.ThreadLines.{bad_line};
ghost use Rattle.book.specs.rule.Commits.{Holds};
ghost use Rattle.cluster_core.specs.rule.Parts.{world_state};
ghost use Rattle.cluster_core.specs.rule.Rounds.{IsBlockedWait};
ghost use Rattle.cluster_core.specs.rule.Runs.{Leads};
ghost use Rattle.cluster_core.specs.rule.World.{first_world};
ghost use Rattle.messages.specs.rule.Shapes.{IsShape};
ghost use Rattle.player.specs.rule.Progress.{EndsIn};
ghost use Rattle.player.specs.rule.Rounds.{NoneStuck, works};
ghost use Rattle.states.specs.rule.States.{IsOpenState};

use crate::{Fault, Shown, Store, keep_journal, listing_of, text_of};
use actors::OpenGate;
use book::{Confirms, Receipt};
use cluster_core::{Journal, World};
use command_line::command_line::ThreadsLine;
use journal_text::laws::each_journal_is_read;
use lockscript::{PlayError, Script};
use message_text::push_call;
use model::CallId;
use states::{OpenState, is_wait, open_states};
use std::alloc::{AllocError, Global};
use std::fmt::Write;
use std::sync::Wait;
use std::thread::Threads;
use std::time::Clock;
use thread_runs::{Manner, RunError, RunWatcher, ThreadRun, run_threads};

// What is shown of a run of the script of a file, whose journal is written to another, if one is named.
pub(crate) fn play_on_threads<'a, R: Threads + Wait + Clock + Sync, S: Store, V: RunWatcher>(
    rt: &R,
    alloc: Global,
    store: &mut S,
    asked: ThreadsLine<'a>,
    watcher: &mut V,
) -> Result<Shown, Fault<'a>>
    ensures done { IfOk result (Does (S.holds store.old) (threads_task_of asked.entry) (S.holds store.new)) }
    ensures fault { IfErr result (λ fault. (fault ≢ CannotWriteOutput)
        × IsFault (S.holds store.old) (S.ran_short store.new) (S.refuses store.new) (threads_task_of asked.entry) (S.holds store.new) fault) }
{
    let (shown, made) = threaded_of(rt, alloc, store, asked, watcher)?;
    keep_journal(alloc, store, asked.journal, made)?;
    Ok(shown)
}

// What is shown of a run of the script of a file, and its journal.
fn threaded_of<'a, R: Threads + Wait + Clock + Sync, S: Store, V: RunWatcher>(
    rt: &R,
    alloc: Global,
    store: &mut S,
    asked: ThreadsLine<'a>,
    watcher: &mut V,
) -> Result<(Shown, Journal), Fault<'a>>
    ensures told { IfOk result (λ made. (t : ThreadedFields) × IsTold (S.holds store.old asked.entry.script.now) asked.entry.no_join asked.entry.stop_when_stuck t × AreShown t made) }
    ensures taken { IfOk result (λ made. IsTaken (S.holds store.old asked.entry.script.now)) }
    ensures fault { IfErr result (IsThreadsFault (S.holds store.old asked.entry.script.now) (S.ran_short store.new) asked.entry.script.now) }
    ensures files { SameFiles (S.holds store.old) (S.holds store.new) }
{
    let script = script_of(alloc, store, asked.script)?;
    let manner = Manner {
        no_join: asked.no_join,
        may_stop: asked.stop_when_stuck,
    };
    let made = run_on_threads(rt, alloc, &script, asked.seed, manner, watcher)?;
    Ok(made)
}

// The script that a file writes, all of whose lines threads take.
fn script_of<'a, S: Store>(alloc: Global, store: &mut S, path: &'a str) -> Result<Script, Fault<'a>>
    ensures script { IfOk result (HasThreadScript (S.holds store.old path.now)) }
    ensures taken { IfOk result (λ script. bad_line script.lines ≡ None) }
    ensures fault { IfErr result (IsThreadsFault (S.holds store.old path.now) (S.ran_short store.new) path.now) }
    ensures files { SameFiles (S.holds store.old) (S.holds store.new) }
{
    let text = text_of(alloc, store, path)?;
    Ok(Script::parse_for_threads(alloc, text.as_str())?)
}

// Runs the script, all of whose lines threads take, on threads that the runtime starts. Messages meet the
// weather of the seed. The watcher is told how far the run is.
fn run_on_threads<R: Threads + Wait + Clock + Sync, V: RunWatcher>(
    rt: &R,
    alloc: Global,
    script: &Script,
    seed: u32,
    manner: Manner,
    watcher: &mut V,
) -> Result<(Shown, Journal), PlayError>
    requires { bad_line script.now.lines ≡ None }
    ensures told { IfOk result (λ made. (t : ThreadedFields) × IsToldOf script.now manner.no_join manner.may_stop t × AreShown t made) }
    ensures full { IfErr result (λ error. error ≡ JournalFull → HasFullJournal script.now) }
{
    match run_threads(rt, alloc, script, &OpenGate, seed, manner, watcher) {
        Ok((run, world)) => Ok(shown_on_threads(alloc, run, world)?),
        Err(RunError::NoMemory) => Err(PlayError::NoMemory),
        Err(RunError::JournalFull(_)) => Err(PlayError::JournalFull),
        Err(RunError::BadLine(_)) => unreachable!(),
    }
}

/// What is shown of a run on threads, which ends in this world, and its journal: the listing, of how many of the calls that
/// were answered the journal holds the receipts, a line for each call that is open where the run was ended, and whether one of
/// these may be answered if it goes on.
///
/// # Errors
/// `AllocError` where a request for memory was refused.
fn shown_on_threads(
    alloc: Global,
    run: ThreadRun,
    world: World,
) -> Result<(Shown, Journal), AllocError>
    requires { EndsIn run.journal (world_state world) }
    ensures { IfOk result (λ made. (t : ThreadedFields) × Tells run t × AreShown t made) }
{
    let journal = run.journal();
    each_journal_is_read(journal);
    let may_go_on = may_answer(alloc, run.open_calls(), journal, &world)?;
    let listing = listing_of(alloc, journal, world, run.refused())?;
    let receipts = run.receipts();
    let held = held_in(journal, receipts);
    let answered = receipts.len() as u64;
    let stuck = open_lines(alloc, run.open_calls())?;
    let shown = shown_so(listing, answered, held, stuck, may_go_on)?;
    Ok((shown, run.into_journal()))
}

// What is shown of a run of this listing, some of whose calls were answered, by the receipts that its journal holds, the lines of
// its open calls, and whether one of these may be answered.
fn shown_so(
    listing: String,
    answered: u64,
    held: u64,
    stuck: String,
    may_go_on: bool,
) -> Result<Shown, AllocError>
    ensures { IfOk result (λ shown. (journal : List ℕ) → ShowsThreads (record { listing = string_bytes listing; journal = journal; answered = answered; held = held; stuck = string_bytes stuck; may_go_on = may_go_on }) shown) }
{
    let text = with_counts(listing, held)?;
    if stuck.is_empty() {
        if held == answered {
            Ok(Shown::Text(text))
        } else {
            Ok(Shown::Wanting(text))
        }
    } else if may_go_on {
        Ok(Shown::CutShort(text))
    } else {
        Ok(Shown::Partial { text, told: stuck })
    }
}

// Whether one of these calls, which are open, may be answered behind this journal, which ends in this world. Contracts know
// nothing of what threads do, so it is tested where they ended.
fn may_answer(
    alloc: Global,
    open_calls: &[CallId],
    journal: &Journal,
    world: &World,
) -> Result<bool, AllocError>
    requires { Leads (first_world journal.now.shape) journal.now.entries (world_state world.now) }
    ensures { IfOk result (λ may. open_calls.now ≢ [] → may ≡ false → NoneStuck (world_state world.now)) }
{
    let _ = journal.shape(); // tells the proof that the shape is one that is served
    if open_calls.is_empty() {
        return Ok(false);
    }
    Ok(!is_none_stuck(alloc, world)?)
}

// Whether no call is stuck: each open call of a live node about a file whose server works is a wait, and a lock blocks it.
fn is_none_stuck(alloc: Global, world: &World) -> Result<bool, AllocError>
    requires { IsShape world.now.shape }
    ensures { IfOk result (λ none. none ≡ true → NoneStuck (world_state world.now)) }
{
    let states = open_states(alloc, world)?;
    for told in &states {
        if is_stuck(world, told) {
            return Ok(false);
        }
    }
    Ok(true)
}

// Whether the call is stuck: the server of its file works, and it is no wait that a lock blocks.
fn is_stuck(world: &World, told: &OpenState) -> bool
    requires { IsOpenState (world_state world.now) told.now }
    ensures { result ≡ false → works (world_state world.now) told.now.asked.file ≡ true → IsBlockedWait (world_state world.now) told.now.asked }
{
    if !world.is_working(told.asked.file) {
        return false;
    }
    if told.locks.is_empty() {
        return true;
    }
    !is_wait(told.asked.lock_command)
}

// How many of the receipts the journal holds.
fn held_in(journal: &Journal, receipts: &[Receipt]) -> u64
    ensures { IsCount (Holds journal.now.entries) receipts.now result }
{
    let mut held = 0u64;
    for receipt in receipts {
        if journal.holds(receipt) {
            held += 1;
        }
    }
    held
}

// The listing, how many receipts the journal holds, and that it is one of a run.
fn with_counts(listing: String, held: u64) -> Result<String, AllocError>
    ensures { IfOk result (λ text. string_bytes text ≡ string_bytes listing ++ codes "receipts " ++ decimal held ++ codes "\naudit yes\n") }
{
    let mut text = listing;
    writeln!(text, "receipts {held}\naudit yes")?;
    Ok(text)
}

// A line for each of the open calls.
fn open_lines(alloc: Global, calls: &[CallId]) -> Result<String, AllocError>
    ensures { IfOk result (λ text. string_bytes text ≡ flat_map open_line calls.now) }
{
    let mut text = String::new(alloc);
    for call in calls {
        push_open(&mut text, call)?;
    }
    Ok(text)
}

fn push_open(text: &mut String, call: &CallId) -> Result<(), AllocError>
    ensures { OnOk result (string_bytes text.new ≡ string_bytes text.old ++ open_line call.now) }
{
    text.push_str("open ")?;
    push_call(text, call)?;
    text.push_str("\n")
}
