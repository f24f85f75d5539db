//! The command `merge`. It knows no rule of a node or a token server.
ghost use Rattle.std.specs.Prelude.{◌≡◌, ◌≢◌, ◌≤◌, ◌↔◌, [], true, codes, Err, IfOk, OnOk};
ghost use Rattle.std.specs.Io.KnownBytes.{Appends};
ghost use Rattle.replay.specs.rule.Stores.{SameFiles};
ghost use Rattle.seat_commands.specs.declared.faults.MergeFault.TheVariants.{NoLog, NoOrder};
ghost use Rattle.seat_commands.specs.rule.Merging.{ChangesTarget, HasNone, IsMerged, MergesSo, Writes, all_logs};

use crate::{MergeFault, MergeLine, declared_in, logs_of, shape_of, tell_stuck, told};
use cluster_core::Journal;
use merges::merge::merge;
use merges::{Changes, Log, Stuck};
use replay::{Fault, Output, Store, keep_journal, put_all};
use seat_text::{LogError, LogFault, ReadLog};
use std::alloc::{AllocError, Global};

/// Makes one journal of the logs that the line names, and answers the exit status.
///
/// It is 0 where the journal is written, or where there is one and it was only asked for that; 1 where there is none; 2 where no log
/// is named; 3 where a file is at fault, or standard output; 4 where memory or a journal is too small. At 1 lines on the second
/// writer say which logs can't go on, and why; at 2 and more one line says what is at fault. A file is written only at 0,
/// but for what is written where standard output fails at last.
pub(crate) fn merge_command<'a, S: Store, O: Output, E: Output>(
    alloc: Global,
    store: &mut S,
    line: &MergeLine<'a>,
    out: &mut O,
    err: &mut E,
) -> u8
    ensures { MergesSo (S.holds store.old) line.now (S.holds store.new) (O.taken out.old) (O.taken out.new) result }
{
    let mut stuck = Vec::new(alloc);
    match done(alloc, store, line, &mut stuck) {
        Ok(count) => tell_done(alloc, line, count, out, err),
        Err(fault) => tell_fault(alloc, line, &fault, stuck.as_slice(), out, err),
    }
}

// Does what the line asks for; the result is how many entries the journal has.
fn done<'a, S: Store>(
    alloc: Global,
    store: &mut S,
    line: &MergeLine<'a>,
    stuck: &mut Vec<Stuck>,
) -> Result<usize, MergeFault<'a>>
    ensures done { OnOk result (Writes (S.holds store.old) line.now (S.holds store.new)) }
    ensures none { result ≡ Err NoOrder → HasNone (S.holds store.old) line.now }
    ensures no_log { result ≡ Err NoLog → line.now.logs.items ≡ [] }
    ensures unnamed { line.now.logs.items ≡ [] → result ≡ Err NoLog }
    ensures files { ChangesTarget (S.holds store.old) line.now (S.holds store.new) }
{
    let journal = merged(alloc, store, line, stuck)?;
    let count = journal.entries().len();
    keep_journal(alloc, store, line.target(), journal)?;
    Ok(count)
}

// The journal of the logs that the line names. Where there is no order, `stuck` has what can't go on.
fn merged<'a, S: Store>(
    alloc: Global,
    store: &mut S,
    line: &MergeLine<'a>,
    stuck: &mut Vec<Stuck>,
) -> Result<Journal, MergeFault<'a>>
    ensures merged { IfOk result (λ journal. IsMerged (S.holds store.old) line.now journal.shape journal.entries) }
    ensures none { result ≡ Err NoOrder → HasNone (S.holds store.old) line.now }
    ensures no_log { result ≡ Err NoLog → line.now.logs.items ≡ [] }
    ensures unnamed { line.now.logs.items ≡ [] → result ≡ Err NoLog }
    ensures files { SameFiles (S.holds store.old) (S.holds store.new) }
{
    let logs = logs_of(alloc, store, line.logs.as_slice())?;
    let shape = shape_of(alloc, line.logs.as_slice(), logs.as_slice())?;
    let list = declared_in(alloc, store, line, shape, logs.as_slice())?;
    let Some(declared) = Changes::new(list) else {
        let fault = LogFault::WentBack;
        let path = line.members.unwrap_or("");
        return Err(MergeFault::BadLog(path, LogError { line: 1, fault }));
    };
    let parts = parts_of(alloc, logs)?;
    match merge(alloc, shape, line.skew, parts, declared, stuck) {
        Ok(journal) => Ok(journal),
        Err(error) => Err(MergeFault::of(alloc, error)),
    }
}

// The logs of single incarnations.
fn parts_of(alloc: Global, logs: Vec<ReadLog>) -> Result<Vec<Log>, AllocError>
    ensures { IfOk result (λ parts. parts.items ≡ all_logs logs.items) }
{
    let mut parts = Vec::new(alloc);
    for log in logs {
        let mut more = log.logs;
        parts.append(&mut more)?;
    }
    Ok(parts)
}

// Tells what was done.
fn tell_done<O: Output, E: Output>(
    alloc: Global,
    line: &MergeLine<'_>,
    count: usize,
    out: &mut O,
    err: &mut E,
) -> u8
    ensures done { (result ≢ 1) × (result ≢ 2) }
    ensures within { result ≤ 4 }
    ensures yes { result ≡ 0 → line.now.check ≡ true → Appends (O.taken out.old) (O.taken out.new) (codes "merge yes\n") }
{
    if line.check {
        return show("merge yes\n", out, err);
    }
    let logs = line.logs.len();
    let skew = line.skew;
    match format!(in alloc; "entries {count} logs {logs} skew {skew}\n") {
        Ok(text) => show(text.as_str(), out, err),
        Err(_) => told(&Fault::NoMemory, err),
    }
}

// Tells what is at fault.
fn tell_fault<O: Output, E: Output>(
    alloc: Global,
    line: &MergeLine<'_>,
    fault: &MergeFault<'_>,
    stuck: &[Stuck],
    out: &mut O,
    err: &mut E,
) -> u8
    ensures one { result ≡ 1 → fault.now ≡ NoOrder }
    ensures failed { result ≢ 0 }
    ensures no_log { (result ≡ 2) ↔ (fault.now ≡ NoLog) }
    ensures within { result ≤ 4 }
    ensures no { result ≡ 1 → line.now.check ≡ true → Appends (O.taken out.old) (O.taken out.new) (codes "merge no\n") }
{
    if let MergeFault::NoOrder = fault {
        if line.check && show("merge no\n", out, err) != 0 {
            return 3;
        }
        fault.tell(alloc, err);
        tell_stuck(alloc, stuck, err);
        return 1;
    }
    fault.tell(alloc, err);
    fault.status()
}

// Shows the text, and answers the exit status.
fn show<O: Output, E: Output>(text: &str, out: &mut O, err: &mut E) -> u8
    ensures shown { result ≡ 0 → Appends (O.taken out.old) (O.taken out.new) text.now }
    ensures done { (result ≢ 1) × (result ≢ 2) }
    ensures within { result ≤ 4 }
{
    match put_all(out, text) {
        Ok(()) => 0,
        Err(_) => told(&Fault::CannotWriteOutput, err),
    }
}
