//! The processes of a node as a list of rows, by their numbers.
ghost use Rattle.std.specs.Prelude.{◌≡◌, ◌<◌, ◌≤◌, ◌+◌, ◌↔◌, ℕ, None, true, IfOk, IfSome, IsTrue, OnOk, length};
ghost use Rattle.model.specs.rule.Limits.{IsNumber, most_processes, most_descriptors, most_descriptions};
ghost use Rattle.model.specs.rule.Descriptors.{no_processes, with_process, with_descriptor};
ghost use Rattle.descriptors.specs.code.Rows.{IsSameRow, AreRows};
ghost use Rattle.descriptors.specs.rule.Rows.{slot, row, processes};

use crate::process_entry::ProcessEntry;
use model::Opened;
use std::alloc::AllocError;

// The row of the process with the number `pid`.
fn row_at(rows: &[ProcessEntry], pid: usize) -> ProcessEntry
    ensures { IsSameRow result (row rows.now pid) }
{
    match rows.get(pid) {
        Some(row) => *row,
        None => ProcessEntry::new(false),
    }
}

/// Whether the process runs.
#[tactic(auto, unfolding(crate::specs::rule::Rows::processes))]
pub fn is_running(rows: &[ProcessEntry], pid: usize) -> bool
    ensures { result ≡ (processes rows.now).runs pid }
{
    match rows.get(pid) {
        Some(row) => row.runs,
        None => false,
    }
}

/// What the descriptor of the process refers to, if it is open.
#[tactic(auto, unfolding(crate::specs::rule::Rows::processes))]
pub fn opened_at(rows: &[ProcessEntry], pid: usize, fd: u8) -> Option<Opened>
    requires { AreRows rows.now }
    ensures value { result ≡ (processes rows.now).opened pid fd }
    ensures number { IfSome result (λ opened. IsNumber most_descriptions opened.description) }
    ensures within { IfSome result (λ _. fd < most_descriptors) }
{
    match rows.get(pid) {
        Some(row) => row.opened(fd),
        None => None,
    }
}

// Adds places up to the number `pid`.
fn grow(rows: &mut Vec<ProcessEntry>, pid: usize) -> Result<(), AllocError>
    requires number { pid < 65536 }
    requires more { length rows.old.items ≤ pid }
    ensures places { OnOk result (length rows.new.items ≡ pid + 1) }
    ensures same { processes rows.new.items ≡ processes rows.old.items }
    ensures rows { AreRows rows.old.items → AreRows rows.new.items }
{
    rows.resize(pid + 1, ProcessEntry::new(false))?;
    Ok(())
}

/// The same rows, with more of them up to the number `pid`.
pub fn grown(rows: &Vec<ProcessEntry>, pid: usize) -> Result<Vec<ProcessEntry>, AllocError>
    requires number { pid < 65536 }
    requires more { length rows.now.items ≤ pid }
    requires rows { AreRows rows.now.items }
    ensures places { IfOk result (λ more. length more.items ≡ pid + 1) }
    ensures same { IfOk result (λ more. processes more.items ≡ processes rows.now.items) }
    ensures rows { IfOk result (λ more. AreRows more.items) }
{
    let mut more = Vec::from_slice(*rows.allocator(), rows)?;
    grow(&mut more, pid)?;
    Ok(more)
}

/// Sets whether the process runs, and frees its descriptors.
pub fn reset(rows: &mut [ProcessEntry], pid: usize, runs: bool)
    requires within { pid < length rows.old }
    requires number { runs ≡ true → IsNumber most_processes pid }
    requires rows { AreRows rows.old }
    ensures processes { processes rows.new ≡ with_process (processes rows.old) pid runs (λ fd. None) }
    ensures rows { AreRows rows.new }
{
    rows[pid] = ProcessEntry::new(runs);
}

/// Begins the child with the descriptors of the process `pid`.
pub fn copy_row(rows: &mut [ProcessEntry], pid: usize, child: usize)
    requires within { child < length rows.old }
    requires runs { (processes rows.old).runs pid ≡ true }
    requires number { IsNumber most_processes child }
    requires rows { AreRows rows.old }
    ensures processes { processes rows.new ≡ with_process (processes rows.old) child true ((processes rows.old).opened pid) }
    ensures rows { AreRows rows.new }
{
    let row = row_at(rows, pid);
    rows[child] = row;
}

/// Sets what the descriptor refers to, or frees it.
pub fn refer(rows: &mut [ProcessEntry], pid: usize, fd: u8, opened: Option<Opened>)
    requires within { pid < length rows.old }
    requires runs { (processes rows.old).runs pid ≡ true }
    requires fd { fd < most_descriptors }
    requires number { IfSome opened (λ o. IsNumber most_descriptions o.description) }
    requires rows { AreRows rows.old }
    ensures processes { processes rows.new ≡ with_descriptor (processes rows.old) pid fd opened }
    ensures rows { AreRows rows.new }
{
    let row = &mut rows[pid];
    row.refer(fd, opened);
}

/// Whether no process runs.
pub fn is_idle(rows: &[ProcessEntry]) -> bool
    requires { AreRows rows.now }
    ensures { IsTrue result ↔ (processes rows.now ≡ no_processes) }
{
    for pid in 0..rows.len() {
        if is_running(rows, pid) {
            return false;
        }
    }
    true
}

/// Whether both lists of rows stand for the same processes.
pub fn same_rows(rows: &[ProcessEntry], others: &[ProcessEntry]) -> bool
    ensures { IsTrue result ↔ (processes rows.now ≡ processes others.now) }
{
    for pid in 0..rows.len().max(others.len()) {
        if !row_at(rows, pid).same(&row_at(others, pid)) {
            return false;
        }
    }
    true
}
