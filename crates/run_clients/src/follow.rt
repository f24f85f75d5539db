//! A history that is followed item by item, with the deeds of its items. A function here that gives a `Result`
//! answers `AllocError` where a request for memory was refused.
ghost use Rattle.std.specs.Prelude.{◌≡◌, ◌++◌, OnOk};
ghost use Rattle.model.specs.rule.Table.{Table};
ghost use Rattle.model.specs.rule.Limits.{IsProcess};
ghost use Rattle.cluster_core.specs.rule.Histories.{caller, ItemStep};
ghost use Rattle.fcntl_table.specs.rule.Tables.{table_of};
ghost use Rattle.run_clients.specs.code.Times.{AreAnchored};
ghost use Rattle.run_clients.specs.rule.Seen.{listed, lock_deed, item_deeds};

use crate::closing::{close, exit, fail};
use crate::deed::Deed;
use crate::deeds::push_lock_deed;
use cluster_core::Item;
use fcntl_table::table::FcntlTable;
use model::{CallId, Op, Process, Reply};
use placement::legal::follow;
use std::alloc::AllocError;

/// Makes the step of the item in the table, which allows it, and adds the item's deeds.
pub(crate) fn take(
    table: &mut FcntlTable,
    item: &Item,
    deeds: &mut Vec<Deed>,
) -> Result<(), AllocError>
    requires may { (next : Table) × ItemStep (table_of table.old) item.now next }
    requires anchored { AreAnchored (table_of table.old) }
    ensures step { OnOk result (ItemStep (table_of table.old) item.now (table_of table.new)) }
    ensures deeds { OnOk result (deeds.new.items ≡ deeds.old.items ++ item_deeds (table_of table.old) item.now) }
{
    match *item {
        Item::Answered {
            id,
            pid,
            op: Op::Close { fd },
            reply: Reply::Done,
            ..
        } => close(table, caller(id, pid), fd, deeds),
        Item::Answered {
            id,
            pid,
            op: Op::Exit,
            reply: Reply::Done,
            ..
        } => exit(table, caller(id, pid), deeds),
        Item::Answered {
            id,
            pid,
            op,
            reply,
            ..
        } => take_call(table, item, caller(id, pid), &op, &reply, deeds),
        Item::Gone {
            node,
            incarnation,
            ..
        } => fail(table, node, incarnation, deeds),
    }
}

// Makes the step of a call that is no close or exit which is done, and adds its deeds.
fn take_call(
    table: &mut FcntlTable,
    item: &Item,
    process: Process,
    op: &Op,
    reply: &Reply,
    deeds: &mut Vec<Deed>,
) -> Result<(), AllocError>
    requires may { (next : Table) × ItemStep (table_of table.old) item.now next }
    ensures step { OnOk result (ItemStep (table_of table.old) item.now (table_of table.new)) }
    ensures deeds { OnOk result (deeds.new.items ≡ deeds.old.items ++ listed (lock_deed (table_of table.old) process op.now reply.now)) }
{
    push_lock_deed(deeds, table, process, op, reply)?;
    if !follow(table, item)? {
        unreachable!()
    }
    Ok(())
}

// The process that makes the call.
fn caller(id: CallId, pid: u16) -> Process
    requires { IsProcess (caller id pid) }
    ensures { result ≡ caller id pid }
{
    Process {
        node: id.node,
        incarnation: id.incarnation,
        pid,
    }
}
