//! The test whether a single machine's table allows a history. A function here that gives a `Result` answers
//! `AllocError` where a request for memory was refused.
ghost use Rattle.std.specs.Prelude.{◌≡◌, true, false, ◌↔◌, IsTrue, IfOk, MatchOption};
ghost use Rattle.model.specs.rule.Limits.{IsProcess};
ghost use Rattle.model.specs.rule.Table.{Table};
ghost use Rattle.cluster_core.specs.rule.Histories.{caller, ItemStep, IsLegal};
ghost use Rattle.fcntl_table.specs.rule.Tables.{table_of};

use crate::answers::take;
use crate::history::History;
use cluster_core::Item;
use fcntl_table::table::FcntlTable;
use model::{CallId, MOST_PROCESSES, Process};
use std::alloc::{AllocError, Global};

/// Whether a single machine's table may answer each call of the history with the reply that stands there, item by
/// item. The table is empty at first, and has the limit of regions of the history's version (POSIX.1-2017 `fcntl()`,
/// `open()`, `_exit()`).
pub fn legal(alloc: Global, history: &History) -> Result<bool, AllocError>
    ensures { IfOk result (λ yes. IsTrue yes ↔ IsLegal history.now.version history.now.items) }
{
    let mut table = FcntlTable::new(alloc, history.version().most_regions());
    for item in history.items() {
        if !follow(&mut table, item)? {
            return Ok(false);
        }
    }
    Ok(true)
}

/// Makes the item's step in the table, if the table allows it. Answers whether it does.
pub fn follow(table: &mut FcntlTable, item: &Item) -> Result<bool, AllocError>
    ensures leads { IfOk result (λ yes. yes ≡ true → ItemStep (table_of table.old) item.now (table_of table.new)) }
    ensures stuck { IfOk result (λ yes. yes ≡ false → (new : Table) → ItemStep (table_of table.old) item.now new → ⊥) }
{
    match item {
        Item::Answered {
            id,
            pid,
            op,
            reply,
            ..
        } => match caller(*id, *pid) {
            Some(process) => take(table, process, *op, *reply),
            None => Ok(false),
        },
        Item::Gone {
            node,
            incarnation,
            ..
        } => {
            table.gone(*node, *incarnation);
            Ok(true)
        }
    }
}

// The process that makes the call, if a node can have a process of that number.
fn caller(id: CallId, pid: u16) -> Option<Process>
    ensures { MatchOption result (IsProcess (caller id pid) → ⊥) (λ process. (process ≡ caller id pid) × IsProcess process) }
{
    if pid < 1 || pid > MOST_PROCESSES {
        return None;
    }
    Some(Process {
        node: id.node,
        incarnation: id.incarnation,
        pid,
    })
}
