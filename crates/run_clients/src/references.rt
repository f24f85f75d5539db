//! The references of descriptors, in the table of a single machine.
ghost use Rattle.std.specs.Prelude.{◌≡◌, ℕ, true, Some};
ghost use Rattle.model.specs.declared.opened.Opened.{Opened};
ghost use Rattle.model.specs.rule.Descriptors.{is_of, is_open};
ghost use Rattle.model.specs.rule.Table.{around, is_running};
ghost use Rattle.fcntl_table.specs.rule.Tables.{table_of};
ghost use Rattle.run_clients.specs.code.Times.{refers, has_description};

use fcntl_table::table::FcntlTable;
use model::{Kind, LockTarget, MOST_DESCRIPTORS, MOST_PROCESSES, Process, Reply};

/// The reference of the process's descriptor: its file and the description, with every byte. `None` where the process
/// doesn't run or has no such descriptor.
pub(crate) fn refers(table: &FcntlTable, process: Process, fd: u8) -> Option<LockTarget>
    ensures { result ≡ refers (table_of table.now) process fd }
{
    match table.target(process, None, fd, Kind::OfDescription, 0, 0) {
        Ok(target) => Some(target),
        Err(_) => None,
    }
}

/// Whether the process runs.
pub(crate) fn is_running(table: &FcntlTable, process: Process) -> bool
    ensures { result ≡ is_running (table_of table.now) process }
{
    match table.target(process, None, 0, Kind::OfProcess, 0, 0) {
        Err(Reply::NoProcess) => false,
        _ => true,
    }
}

/// Whether some process of the node has a descriptor of the description.
pub(crate) fn is_open(table: &FcntlTable, process: Process, description: u16) -> bool
    requires { (pid fd : ℕ) (o : Opened) → (around (table_of table.now) process).opened pid fd ≡ Some o → (around (table_of table.now) process).runs pid ≡ true }
    ensures { result ≡ is_open (around (table_of table.now) process) description }
{
    for pid in 1..MOST_PROCESSES + 1 {
        let sibling = Process {
            node: process.node,
            incarnation: process.incarnation,
            pid,
        };
        if has_description(table, sibling, description) {
            return true;
        }
    }
    false
}

// Whether the process has a descriptor of the description.
fn has_description(table: &FcntlTable, process: Process, description: u16) -> bool
    requires { (fd : ℕ) (o : Opened) → (around (table_of table.now) process).opened process.pid fd ≡ Some o → is_running (table_of table.now) process ≡ true }
    ensures { result ≡ has_description (around (table_of table.now) process) description process.pid }
{
    if !is_running(table, process) {
        return false;
    }
    for fd in 0..MOST_DESCRIPTORS {
        if is_of(table, process, fd, description) {
            return true;
        }
    }
    false
}

// Whether the descriptor of the process, which runs, refers to the description.
fn is_of(table: &FcntlTable, process: Process, fd: u8, description: u16) -> bool
    requires { is_running (table_of table.now) process ≡ true }
    ensures { result ≡ is_of description ((around (table_of table.now) process).opened process.pid fd) }
{
    match refers(table, process, fd) {
        Some(reference) => reference.owner.number == description,
        None => false,
    }
}
