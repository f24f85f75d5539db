//! The calls that the clients of a run saw, with their acts on locks. A function here that gives a `Result` answers
//! `AllocError` where a request for memory was refused.
ghost use Rattle.std.specs.Prelude.{◌≡◌, ◌++◌, ◌∷◌, [], ◌+◌, ℕ, List, length, map, Some, IfOk, IfSome, OnOk};
ghost use Rattle.std.specs.List.{AllByRecursion};
ghost use Rattle.model.specs.rule.Limits.{IsProcess};
ghost use Rattle.model.specs.rule.Table.{Table};
ghost use Rattle.messages.specs.declared.entry.Entry.{Entry};
ghost use Rattle.cluster_core.specs.rule.Histories.{EntryAt, ItemStep};
ghost use Rattle.fcntl_table.specs.rule.Tables.{table_of};
ghost use Rattle.run_clients.specs.code.Times.{AreAnchored, AreTimes, IsKept, IsKnown};
ghost use Rattle.run_clients.specs.declared.answer_time.AnswerTime.TheVariants.{At};
ghost use Rattle.run_clients.specs.rule.Seen.{AreExplained, IsAllSeen, call_of, item_deeds, op_of};

use crate::answer_time::AnswerTime;
use crate::call_times::CallTimes;
use crate::deed::Deed;
use crate::file_call::FileCall;
use crate::follow::take;
use crate::open_calls::push_open_calls;
use cluster_core::{Item, Journal};
use fcntl_table::table::FcntlTable;
use model::Op;
use placement::placed::placed;
use std::alloc::{AllocError, Global};

/// The calls that the clients of the journal's run saw: those of its history about files, in the order of the
/// history, each from the entry that makes it to the entry that answers it. A set or a wait that is done gave its
/// owner the bytes, an unlock took them, a denial and a query name what blocked. A close drops the locks of the
/// process in the file, and the last close of a description those of the description. An exit closes each descriptor,
/// and where a node fails each of its processes exits. Other calls, and those that are refused for another reason,
/// are left out. Behind them come the lock calls that are open: those that have no reply, and whose process neither
/// exited since nor was on a node that was declared failed.
///
/// One table of record locks explains the calls about each file, in the order in which they stand.
pub fn clients_of(alloc: Global, journal: &Journal) -> Result<Vec<FileCall>, AllocError>
    ensures seen { IfOk result (λ seen. IsAllSeen journal.now.shape journal.now.entries seen.items) }
    ensures explained { IfOk result (λ seen. AreExplained seen.items) }
{
    let history = placed(alloc, journal)?;
    let times = CallTimes::of(alloc, journal.entries())?;
    let mut table = FcntlTable::new(alloc, history.version().most_regions());
    let mut seen = Vec::new(alloc);
    for item in history.items() {
        see(alloc, &mut table, &times, item, &mut seen)?;
    }
    push_open_calls(alloc, &mut seen, &table, &times, journal.entries())?;
    Ok(seen)
}

// Makes the step of the item in the table, and adds its calls.
fn see(
    alloc: Global,
    table: &mut FcntlTable,
    times: &CallTimes,
    item: &Item,
    seen: &mut Vec<FileCall>,
) -> Result<(), AllocError>
    requires may { (next : Table) × ItemStep (table_of table.old) item.now next }
    requires anchored { AreAnchored (table_of table.old) }
    requires known { IsKnown times.now item.now }
    ensures step { OnOk result (ItemStep (table_of table.old) item.now (table_of table.new)) }
    ensures seen { OnOk result ((begin : ℕ) × (end : ℕ) × IsKept times.now item.now begin end × (seen.new.items ≡ seen.old.items ++ map (call_of (op_of item.now) begin (At end)) (item_deeds (table_of table.old) item.now))) }
{
    let (begin, end) = times.of_item(item);
    let mut deeds = Vec::new(alloc);
    take(table, item, &mut deeds)?;
    push_calls(
        seen,
        op_of(item),
        begin,
        AnswerTime::At(u64::from(end)),
        deeds.as_slice(),
    )
}

// The operation of the item; of a node that fails the exit of its processes.
fn op_of(item: &Item) -> Op
    ensures { result ≡ op_of item.now }
{
    match *item {
        Item::Answered { op, .. } => op,
        Item::Gone { .. } => Op::Exit,
    }
}

/// Adds the deeds as calls of their owners.
pub(crate) fn push_calls(
    seen: &mut Vec<FileCall>,
    op: Op,
    begin: u32,
    end: AnswerTime,
    deeds: &[Deed],
) -> Result<(), AllocError>
    ensures { OnOk result (seen.new.items ≡ seen.old.items ++ map (call_of op begin end) deeds.now) }
{
    for deed in deeds {
        push_call(seen, op, begin, end, *deed)?;
    }
    Ok(())
}

// Adds the deed as a call of its owner.
fn push_call(
    seen: &mut Vec<FileCall>,
    op: Op,
    begin: u32,
    end: AnswerTime,
    deed: Deed,
) -> Result<(), AllocError>
    ensures { OnOk result (seen.new.items ≡ seen.old.items ++ call_of op begin end deed ∷ []) }
{
    seen.push(FileCall {
        file: deed.file,
        op,
        owner: deed.owner,
        begin: u64::from(begin),
        end,
        act: deed.act,
    })?;
    Ok(())
}
