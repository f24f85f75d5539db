//! The tables that there may be before a call that fits nowhere. A function here that gives a `Result` answers
//! `AllocError` where a request for memory was refused.
use crate::file_calls::FileCalls;
use client_history::{Act, ClientCall};
use lock_table::lock_table::LockTable;
use model::{LockInfo, Owner};
use std::alloc::{AllocError, Global};

// The file number for all locks of a table here.
const FILE: u16 = 1;

/// A table that there may be before a call that fits nowhere: its locks, the one of them that blocks the call, if one
/// does, and the lines of the calls that are open there, which may be done or not.
#[derive(Drop)]
pub(crate) struct Before {
    pub(crate) locks: Vec<LockInfo>,
    pub(crate) in_way: Option<LockInfo>,
    pub(crate) open: Vec<u64>,
}

/// The table before the call with this index, behind a way: an order of calls by their indexes.
pub(crate) fn table_before(
    alloc: Global,
    file: &FileCalls,
    call: usize,
    way: &[usize],
) -> Result<Before, AllocError> {
    let mut table = LockTable::new(alloc, usize::MAX);
    let mut gone = Vec::new(alloc);
    let mut is_passed = vec![in alloc; false; file.calls.len()]?;
    for index in way {
        if let (Some(taken), Some(mark)) = (file.calls.get(*index), is_passed.get_mut(*index)) {
            follow(&mut table, taken)?;
            if taken.is_last {
                gone.push(taken.owner)?;
            }
            *mark = true;
        }
    }
    let mut before = Before {
        locks: table.locks(FILE)?,
        in_way: None,
        open: Vec::new(alloc),
    };
    if let (Some(this), Some(mark)) = (file.calls.get(call), is_passed.get_mut(call)) {
        before.in_way = in_way(&table, this);
        *mark = true;
        let until = this.end.unwrap_or(u64::MAX);
        before.open = open_lines(alloc, file, until, &is_passed, &gone)?;
    }
    Ok(before)
}

// Makes the act of the call in the table.
fn follow(table: &mut LockTable, call: &ClientCall) -> Result<(), AllocError> {
    let done = match call.act {
        Act::Locks { mode, span } => table.set(call.owner, FILE, span, mode),
        Act::Frees { span } => table.unlock(call.owner, FILE, span),
        Act::Drops => {
            table.drop_owner(call.owner, FILE);
            Ok(())
        }
        Act::IsDenied { .. } | Act::IsFree { .. } => Ok(()),
    };
    done.map_err(|_| AllocError)
}

// The lock that blocks the bytes that the call names, if one does.
fn in_way(table: &LockTable, call: &ClientCall) -> Option<LockInfo> {
    match call.act {
        Act::Locks { mode, span } | Act::IsFree { mode, span } | Act::IsDenied { mode, span, .. } =>
            { table.blocker(call.owner, FILE, span, mode) }
        Act::Frees { .. } | Act::Drops => None,
    }
}

// The lines of the open calls: those that begin by that time and are not passed, without calls of owners that are gone.
fn open_lines(
    alloc: Global,
    file: &FileCalls,
    until: u64,
    is_passed: &[bool],
    gone: &[Owner],
) -> Result<Vec<u64>, AllocError> {
    let mut open = Vec::new(alloc);
    for ((call, line), passed) in file
        .calls
        .iter()
        .zip(file.lines.iter())
        .zip(is_passed.iter())
    {
        let is_open = !*passed && call.begin <= until && !gone.contains(&call.owner);
        if is_open && open.last().copied() != Some(*line) {
            open.push(*line)?;
        }
    }
    Ok(open)
}
