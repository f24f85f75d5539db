//! Doing what a command line asks for.
ghost use Rattle.std.specs.Prelude.{◌≡◌, ◌≢◌, ◌≤◌, ◌<◌, false, IfErr, IfOk, OnOk};
ghost use Rattle.std.specs.Io.KnownBytes.{Appends};
ghost use Rattle.command_line.specs.rule.Tasks.{journal_path, task_of, run_task_of};
ghost use Rattle.replay.specs.rule.Commands.{Does, IsFault, Leaves, MayNotKnow, SameBut, Shows, TellsFault, says_why, status_of, IsStatus};
ghost use Rattle.replay.specs.rule.Faults.{fault_line};
ghost use Rattle.replay.specs.rule.Stores.{WritesOrFails, TellsBeside, shown_text};
ghost use Rattle.replay.specs.declared.fault.Fault.TheVariants.{CannotWriteOutput};

use crate::audit::{audit, history};
use crate::judge::judge;
use crate::state::state;
use crate::{Fault, Output, Shown, Store, play_on_threads, run_alone, run_behind};
use command_line::command_line::{CommandLine, RunLine};
use player::Watcher;
use std::alloc::Global;
use std::sync::Wait;
use std::thread::Threads;
use std::time::Clock;
use thread_runs::RunWatcher;

/// Does what the line asks for, and answers the exit status. It is 0 where all was done, 1 where something is wrong or
/// left out (see below), 3 where the input or the output is at fault, 4 where memory or the journal was too small, 5 where
/// it is not known whether histories are contradicted, or a run on threads was ended and a call could still be answered.
///
/// It is 1 where the journal that the line names is none of a run, or has not the entry that is asked for. So it is where a run on
/// threads lacks a receipt in its journal or was ended as stuck, where a run that is compared breaks what is expected, where an
/// event that was refused cut off the rounds of one that is to be calm, and where a history is contradicted, or is not explained
/// by the orders that are given. The second writer is told the open calls of a run that was ended as stuck, what a run that is
/// compared came to otherwise, and what cut off rounds.
///
/// At 3 and 4 one line on the second writer says why, and the first has got nothing, but for a beginning of what is
/// shown where it failed. Behind the path of a file that can't be read or written stands the reason, but of commands whose
/// lines are fixed: runs, also on threads, audits and histories. Of a `Write` of std no clause says that it was flushed,
/// or that it failed where the status says so, since std says neither. Faults are looked for in this order: the file is
/// read, its bytes are UTF-8, its lines are good, the run or the audit has room, the journal is written, what is shown
/// is written. No file is changed but that of the journal that a run is asked for, once it comes to that. Of the lines
/// of a script that is run and the entries of a journal that is audited the watcher is told each that is done, and of a run on
/// threads now and then how far it is.
pub fn perform<
    R: Threads + Wait + Clock + Sync,
    S: Store,
    O: Output,
    E: Output,
    V: Watcher + RunWatcher,
>(
    rt: &R,
    alloc: Global,
    line: &CommandLine<'_>,
    store: &mut S,
    out: &mut O,
    err: &mut E,
    watcher: &mut V,
) -> u8
    ensures status { IsStatus result }

    // Done: what the file comes to is written and has gone on, the journal that a run is asked for is in
    // its file, and the second writer got nothing, but of a run that was ended as stuck its open calls, of
    // one that is compared what was expected otherwise, and of one whose rounds were cut off by what.
    ensures done { result ≤ 1 → Shows (Does (S.holds store.old) (task_of line.now) (S.holds store.new)) (O.taken out.old) (O.taken out.new)
        (TellsBeside E.taken E.has_failed err.old err.new) result }
    ensures flushed { result ≤ 1 → O.is_flushed out.new }

    // So is what a judgement comes to that doesn't know, and a run on threads of which it is not known whether it was ended
    // too early; no other command ends so.
    ensures undecided { result ≡ 5 → MayNotKnow (task_of line.now) × O.is_flushed out.new × Shows (Does (S.holds store.old) (task_of line.now) (S.holds store.new)) (O.taken out.old) (O.taken out.new)
        (TellsBeside E.taken E.has_failed err.old err.new) result }
    ensures quiet { result ≡ 0 → err.new ≡ err.old }

    // Else the status tells of the first fault, and, of commands whose lines are fixed, a line on the second writer.
    ensures fault { 1 < result → result ≢ 5 → TellsFault (IsFault (S.holds store.old) (S.ran_short store.new) (S.refuses store.new) (task_of line.now) (S.holds store.new))
        (Leaves (Does (S.holds store.old) (task_of line.now) (S.holds store.new)) O.taken O.has_failed out.old out.new)
        (λ fault. says_why (task_of line.now) ≡ false → WritesOrFails (E.taken err.old) (E.taken err.new) (E.has_failed err.new) (fault_line fault)) result }

    ensures files { SameBut (journal_path (task_of line.now)) (S.holds store.old) (S.holds store.new) }
{
    match done(rt, alloc, line, store, out, watcher) {
        Ok(shown) => {
            shown.tell(err);
            shown.status()
        }
        Err(fault) => report_of(line, &fault, err),
    }
}

// Writes why the line was not done, with the reason where such lines say it, and answers the exit status.
fn report_of<E: Output>(line: &CommandLine<'_>, fault: &Fault<'_>, err: &mut E) -> u8
    ensures status { result ≡ status_of fault.now }
    ensures told { says_why (task_of line.now) ≡ false → WritesOrFails (E.taken err.old) (E.taken err.new) (E.has_failed err.new) (fault_line fault.now) }
{
    if says_why(line) {
        let _ = fault.write_reasoned(err);
        return fault.status();
    }
    report(fault, err)
}

// Whether reasons are said of files that can't be read or written.
fn says_why(line: &CommandLine<'_>) -> bool
    ensures { result ≡ says_why (task_of line.now) }
{
    match line {
        CommandLine::Run(_)
        | CommandLine::Threads(_)
        | CommandLine::Audit { .. }
        | CommandLine::History { .. } => false,
        CommandLine::State { .. } | CommandLine::Judge(_) => true,
    }
}

/// Writes why a command was not done, and answers its exit status. What can't be written is lost.
pub(crate) fn report<E: Output>(fault: &Fault<'_>, err: &mut E) -> u8
    ensures status { result ≡ status_of fault.now }
    ensures told { WritesOrFails (E.taken err.old) (E.taken err.new) (E.has_failed err.new) (fault_line fault.now) }
{
    let _ = fault.write_line(err);
    fault.status()
}

// Does what the line asks for: what is shown of it.
fn done<'a, R: Threads + Wait + Clock + Sync, S: Store, O: Output, V: Watcher + RunWatcher>(
    rt: &R,
    alloc: Global,
    line: &CommandLine<'a>,
    store: &mut S,
    out: &mut O,
    watcher: &mut V,
) -> Result<Shown, Fault<'a>>
    ensures done { IfOk result (Does (S.holds store.old) (task_of line.now) (S.holds store.new)) }
    ensures shown { IfOk result (λ shown. Appends (O.taken out.old) (O.taken out.new) (shown_text shown)) }
    ensures flushed { OnOk result (O.is_flushed out.new) }
    ensures fault { IfErr result (λ fault. IsFault (S.holds store.old) (S.ran_short store.new) (S.refuses store.new) (task_of line.now) (S.holds store.new) fault
        × Leaves (Does (S.holds store.old) (task_of line.now) (S.holds store.new)) O.taken O.has_failed out.old out.new fault) }
{
    let shown = shown_of(rt, alloc, line, store, watcher);
    watcher.end();
    let shown = shown?;
    match shown.show(out) {
        Ok(()) => Ok(shown),
        Err(_) => Err(Fault::CannotWriteOutput),
    }
}

/// What is shown of the line, once all else that it asks for is done.
///
/// # Errors
/// Why it was not done.
pub(crate) fn shown_of<'a, R: Threads + Wait + Clock + Sync, S: Store, V: Watcher + RunWatcher>(
    rt: &R,
    alloc: Global,
    line: &CommandLine<'a>,
    store: &mut S,
    watcher: &mut V,
) -> Result<Shown, Fault<'a>>
    ensures done { IfOk result (Does (S.holds store.old) (task_of line.now) (S.holds store.new)) }
    ensures fault { IfErr result (λ fault. (fault ≢ CannotWriteOutput)
        × IsFault (S.holds store.old) (S.ran_short store.new) (S.refuses store.new) (task_of line.now) (S.holds store.new) fault) }
{
    match *line {
        CommandLine::Run(asked) => run_shown(alloc, store, asked, watcher),
        CommandLine::Threads(asked) => play_on_threads(rt, alloc, store, asked, watcher),
        CommandLine::Audit { journal } => audit(alloc, store, journal, watcher),
        CommandLine::History {
            journal,
            as_clients,
        } => history(alloc, store, journal, as_clients),
        CommandLine::State { journal, at } => state(alloc, store, journal, at),
        CommandLine::Judge(ref asked) => judge(alloc, store, asked),
    }
}

// What is shown of a script that is run, once its journal is written, if a file for it is named, behind the
// journal of another file, if one is named.
fn run_shown<'a, S: Store, V: Watcher>(
    alloc: Global,
    store: &mut S,
    asked: RunLine<'a>,
    watcher: &mut V,
) -> Result<Shown, Fault<'a>>
    ensures done { IfOk result (Does (S.holds store.old) (run_task_of asked.entry) (S.holds store.new)) }
    ensures fault { IfErr result (λ fault. (fault ≢ CannotWriteOutput)
        × IsFault (S.holds store.old) (S.ran_short store.new) (S.refuses store.new) (run_task_of asked.entry) (S.holds store.new) fault) }
{
    match asked.after {
        None => run_alone(alloc, store, asked, watcher),
        Some(after) => run_behind(alloc, store, asked, after, watcher),
    }
}
