//! The searches for locks in the table of a node.
ghost use Rattle.std.specs.Prelude.{◌≡◌, ◌≤◌, ◌<◌, ◌++◌, List, IfOk, IsTrue, ◌↔◌, OnOk, MatchOption};
ghost use Rattle.intervals.specs.rule.Bytes.{IsLargest};
ghost use Rattle.model.specs.rule.Locks.{IsFree, IsRegion, IsLowestBlocker, IsClear, IsLowestInWay};
ghost use Rattle.model.specs.declared.lock_info.LockInfo.{LockInfo as SomeLock};
ghost use Rattle.lock_table.specs.code.Rows.{AreRows};
ghost use Rattle.lock_table.specs.rule.Tables.{held, rows_held, HasInWay, IsListing, ListsRegions};
ghost use Rattle.lock_table.specs.code.Blockers.{AreNear, IsLowestBut};

use super::LockTable;
use crate::order::{cmp_regions, keep_lowest};
use crate::owner_locks::OwnerLocks;
use crate::owner_set::OwnerSet;
use crate::place::{blocks_of, next_near, position, row_at, rows_of};
use intervals::span::Span;
use model::{LockInfo, Mode, Owner};
use std::alloc::AllocError;

// The lowest region of the file in the way of the mode in the span. Rows of owners that the set
// doesn't have are passed, and regions of the owner `out` don't count.
fn lowest_in(
    rows: &[OwnerLocks],
    file: u16,
    near: &OwnerSet,
    out: &Option<Owner>,
    span: Span,
    mode: Mode,
) -> Option<LockInfo>
    requires rows { AreRows rows.now }
    requires near { AreNear (rows_held rows.now file) near.now span }
    ensures { IsLowestBut (rows_held rows.now file) out.now span mode result }
{
    let bar = mode.bar();
    let rows = rows_of(rows, file);
    let mut lowest = None;
    let mut at = next_near(rows, 0, near);
    while at < rows.len() {
        let row = &rows[at];
        if row.may_bar(near, bar) {
            keep_lowest(&mut lowest, row.lowest_but(out, span, mode));
        }
        at = next_near(rows, at + 1, near);
    }
    lowest
}

// The largest span that contains `required`, lies in `within`, and has no byte that an owner holds in
// the file in a mode that excludes this one. Rows of owners that the set doesn't have are passed.
fn free_in(
    rows: &[OwnerLocks],
    file: u16,
    near: &OwnerSet,
    required: Span,
    within: Span,
    mode: Mode,
) -> Span
    requires rows { AreRows rows.now }
    requires near { AreNear (rows_held rows.now file) near.now within }
    requires starts_within { within.lo ≤ required.lo }
    requires ends_within { required.hi ≤ within.hi }
    requires clear { IsClear (rows_held rows.now file) required mode }
    ensures { IsLargest (HasInWay (IsRegion (rows_held rows.now file)) mode) required within result }
{
    let _ = &required.lo; // tells the proof that the span has a byte
    let rows = rows_of(rows, file);
    let mut span = within;
    let mut at = next_near(rows, 0, near);
    while at < rows.len() {
        let row = &rows[at];
        if near.has(row.owner) {
            span = row.spans.largest_around(required, span, mode.bar());
        }
        at = next_near(rows, at + 1, near);
    }
    span
}

// Adds the regions of the file.
fn push_rows(rows: &[OwnerLocks], file: u16, locks: &mut Vec<LockInfo>) -> Result<(), AllocError>
    requires { AreRows rows.now }
    ensures { OnOk result ((more : List SomeLock) × (locks.new.items ≡ locks.old.items ++ more) × ListsRegions (rows_held rows.now file) more) }
{
    for row in rows_of(rows, file) {
        row.push_regions(locks)?;
    }
    Ok(())
}

impl LockTable {
    // The lowest region in the way of the mode in the span, by first byte and then by owner.
    // Regions of the owner `out` don't count.
    fn lowest_but(&self, out: &Option<Owner>, file: u16, span: Span, mode: Mode) -> Option<LockInfo>
        ensures { IsLowestBut (held self.now file) out.now span mode result }
    {
        let near = self.index.near(file, span);
        let mut lowest = None;
        for block in blocks_of(&self.blocks, file) {
            let found = lowest_in(block.rows(), file, &near, out, span, mode);
            keep_lowest(&mut lowest, found);
        }
        lowest
    }

    /// The region of another owner that blocks the mode in the span (POSIX.1-2017 `fcntl()`,
    /// F_GETLK): the one with the lowest first byte, and among those with one first byte the one of
    /// the lowest owner. `None` where no other owner holds a byte of the span in a mode that
    /// excludes this one. Takes no memory.
    pub fn blocker(&self, owner: Owner, file: u16, span: Span, mode: Mode) -> Option<LockInfo>
        ensures { MatchOption result (IsFree (held self.now file) owner span mode) (λ lock. IsLowestBlocker (held self.now file) owner span mode lock) }
    {
        self.lowest_but(&Some(owner), file, span, mode)
    }

    /// The region of any owner in the way of the mode in the span: the one with the lowest first
    /// byte, and among those with one first byte the one of the lowest owner. `None` where no byte
    /// of the span is held in a mode that excludes this one. Takes no memory.
    pub fn lowest_in_way(&self, file: u16, span: Span, mode: Mode) -> Option<LockInfo>
        ensures { MatchOption result (IsClear (held self.now file) span mode) (IsLowestInWay (IsRegion (held self.now file)) span mode) }
    {
        self.lowest_but(&None, file, span, mode)
    }

    /// The largest span that contains `required`, lies in `within`, and has no byte that an owner
    /// holds in a mode that excludes this one. Takes no memory.
    pub fn free_around(&self, file: u16, required: Span, within: Span, mode: Mode) -> Span
        requires starts_within { within.lo ≤ required.lo }
        requires ends_within { required.hi ≤ within.hi }
        requires clear { IsClear (held self.now file) required mode }
        ensures { IsLargest (HasInWay (IsRegion (held self.now file)) mode) required within result }
    {
        let _ = &required.lo; // tells the proof that the span has a byte
        let near = self.index.near(file, within);
        let mut span = within;
        for block in blocks_of(&self.blocks, file) {
            span = free_in(block.rows(), file, &near, required, span, mode);
        }
        span
    }

    /// Whether the lock is a region of its owner in the file: a longest run of bytes that the owner
    /// holds in that mode. Takes no memory.
    pub fn has_region(&self, file: u16, lock: &LockInfo) -> bool
        ensures { IsTrue result ↔ IsRegion (held self.now file) lock.now }
    {
        match position(&self.blocks, file, lock.owner) {
            Ok(place) => row_at(&self.blocks, place).has_run(lock.span, lock.mode),
            Err(_) => false,
        }
    }

    /// The regions of a file, by first byte and then by owner.
    ///
    /// # Errors
    /// `AllocError` where a request for memory was refused.
    pub fn locks(&self, file: u16) -> Result<Vec<LockInfo>, AllocError>
        ensures { IfOk result (λ locks. IsListing (held self.now file) locks.items) }
    {
        let mut locks = Vec::new(*self.blocks.allocator());
        for block in blocks_of(&self.blocks, file) {
            push_rows(block.rows(), file, &mut locks)?;
        }
        locks.sort_unstable_by(cmp_regions);
        Ok(locks)
    }
}
