//! The lock calls of a run that are open. A function here that gives a `Result` answers `AllocError` where a
//! request for memory was refused.
ghost use Rattle.std.specs.Prelude.{◌≡◌, ◌≤◌, ◌+◌, ℕ, List, length, IfNone, IfSome, OnOk};
ghost use Rattle.model.specs.rule.Limits.{IsNumber, IsProcess, most_processes};
ghost use Rattle.messages.specs.declared.entry.Entry.{Entry};
ghost use Rattle.cluster_core.specs.rule.World.{journal_limit};
ghost use Rattle.cluster_core.specs.rule.Histories.{EntryAt, caller};
ghost use Rattle.fcntl_table.specs.rule.Tables.{table_of};
ghost use Rattle.run_clients.specs.code.Times.{AreTimes};
ghost use Rattle.run_clients.specs.rule.Seen.{HasOpened};

use crate::answer_time::AnswerTime;
use crate::call_times::CallTimes;
use crate::clients::push_calls;
use crate::deeds::push_lock_deed;
use crate::file_call::FileCall;
use crate::made_call::made_by;
use fcntl_table::table::FcntlTable;
use messages::Entry;
use model::{CallId, MOST_PROCESSES, Process, Reply};
use std::alloc::{AllocError, Global};

/// Adds the lock calls of the entries that are open, each with the deed that it would have if it were answered in the
/// last table. A call that has no reply is open no more where its process exited since, or its node was declared
/// failed.
pub(crate) fn push_open_calls(
    alloc: Global,
    seen: &mut Vec<FileCall>,
    table: &FcntlTable,
    times: &CallTimes,
    entries: &[Entry],
) -> Result<(), AllocError>
    requires few { length entries.now ≤ journal_limit }
    requires times { AreTimes entries.now times.now (length entries.now) }
    ensures { OnOk result (HasOpened entries.now (table_of table.now) 0 (length entries.now + 1) seen.old.items seen.new.items) }
{
    for (index, entry) in entries.iter().enumerate() {
        push_open_call(alloc, seen, table, times, index as u32 + 1, entry)?;
    }
    Ok(())
}

// Adds the lock call that the entry at the position makes, if it makes one and that is open.
fn push_open_call(
    alloc: Global,
    seen: &mut Vec<FileCall>,
    table: &FcntlTable,
    times: &CallTimes,
    position: u32,
    entry: &Entry,
) -> Result<(), AllocError>
    ensures { OnOk result ((es : List Entry) (before : ℕ) → EntryAt es position entry.now → position ≡ before + 1 → AreTimes es times.now (length es) → HasOpened es (table_of table.now) before (position + 1) seen.old.items seen.new.items) }
{
    let Some(made) = made_by(entry) else {
        return Ok(());
    };
    if times.is_answered(made.id) {
        return Ok(());
    }
    let Some(last) = times.last_call(made.id, made.pid) else {
        return Ok(());
    };
    if position < last {
        return Ok(());
    }
    let Some(process) = process_of(made.id, made.pid) else {
        return Ok(());
    };
    let mut deeds = Vec::new(alloc);
    push_lock_deed(&mut deeds, table, process, &made.op, &Reply::Done)?;
    push_calls(seen, made.op, position, AnswerTime::Never, deeds.as_slice())
}

// The process that makes the call, if a node can have a process of that number.
fn process_of(id: CallId, pid: u16) -> Option<Process>
    ensures value { IfSome result (λ process. process ≡ caller id pid) }
    ensures process { IfSome result (λ process. IsProcess (caller id pid)) }
    ensures none { IfNone result (IsNumber most_processes pid → ⊥) }
{
    if pid < 1 || pid > MOST_PROCESSES {
        return None;
    }
    Some(Process {
        node: id.node,
        incarnation: id.incarnation,
        pid,
    })
}
