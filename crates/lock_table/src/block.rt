//! A block of rows of a lock table.
//!
//! Each function here that can fail errs with `AllocError`, where a request for memory was refused.
ghost use Rattle.std.specs.Prelude.{◌≡◌, ◌≤◌, ◌<◌, nat_le, [], length, take, drop, insert, remove, filter, not, IfOk};
ghost use Rattle.std.specs.Vec.{vec_capacity};
ghost use Rattle.model.specs.rule.Owners.{same_owner};
ghost use Rattle.lock_table.specs.code.Rows.{begins_to, first_file, IsRowWritten};

use crate::owner_locks::OwnerLocks;
use intervals::span_edit::SpanEdit;
use model::{Mode, Owner};
use std::alloc::{AllocError, Global};
use std::marker::Model;

// The greatest number of rows in a block.
const MOST: usize = 64;

/// Some rows of a table in their order, 64 at most, with memory for as many.
#[derive(Drop)]
pub struct Block {
    rows: Vec<OwnerLocks>,
}

impl Model for Block {
    ghost use Rattle.std.specs.Prelude.{◌≤◌, List, length};
    ghost use Rattle.std.specs.Vec.{vec_capacity};
    ghost use Rattle.lock_table.specs.declared.owner_locks.OwnerLocks.{OwnerLocks as SomeRow};

    ghost Value = { List SomeRow };

    ghost view = { λ b. b.rows.items };

    ghost invariant = { λ b. (length b.rows.items ≤ 64) × (64 ≤ vec_capacity b.rows) };
}

impl Block {
    /// A block without rows.
    pub(crate) fn with_memory(alloc: Global) -> Result<Self, AllocError>
        ensures { IfOk result (λ block. block ≡ []) }
    {
        Ok(Block {
            rows: Vec::with_capacity(alloc, MOST)?,
        })
    }

    /// An equal block.
    pub(crate) fn copy(&self) -> Result<Self, AllocError>
        ensures { IfOk result (λ copy. copy ≡ self.now) }
    {
        let mut rows = Vec::with_capacity(*self.rows.allocator(), MOST)?;
        for row in &self.rows {
            rows.push(row.copy()?)?;
        }
        Ok(Block { rows })
    }

    /// The rows.
    #[inline]
    pub(crate) fn rows(&self) -> &[OwnerLocks]
        ensures { result.now ≡ self.now }
    {
        &self.rows
    }

    /// Whether there is no row.
    pub(crate) fn is_empty(&self) -> bool
        ensures { result ≡ nat_le (length self.now) 0 }
    {
        self.rows.len() == 0
    }

    /// Whether there are as many rows as a block may have.
    pub(crate) fn is_full(&self) -> bool
        ensures { result ≡ nat_le 64 (length self.now) }
    {
        self.rows.len() >= MOST
    }

    /// Whether there is a first row, and it doesn't stand behind the place of an owner with this
    /// mark.
    pub(crate) fn begins_to(&self, mark: usize, owner: Owner) -> bool
        ensures { result ≡ begins_to self.now mark owner }
    {
        match self.rows.first() {
            Some(row) => row.cmp_place(mark, owner).is_le(),
            None => false,
        }
    }

    /// The file of the first row; 0 where there is none.
    pub(crate) fn first_file(&self) -> u16
        ensures { result ≡ first_file self.now }
    {
        match self.rows.first() {
            Some(row) => row.file,
            None => 0,
        }
    }

    /// Makes a planned write of the row at a place, and says whether the row then holds nothing.
    pub(crate) fn write(&mut self, place: usize, write: SpanEdit<Mode>) -> bool
        requires { place < length self.old }
        ensures { IsRowWritten self.old self.new place write result }
    {
        let row = &mut self.rows[place];
        row.spans.apply(write);
        row.spans.is_empty()
    }

    /// Inserts a row, which is not one too many.
    pub(crate) fn insert(&mut self, place: usize, row: OwnerLocks)
        requires place { place ≤ length self.old }
        requires room { length self.old < 64 }
        ensures { self.new ≡ insert self.old place row }
    {
        let Ok(()) = self.rows.insert(place, row) else {
            unreachable!()
        };
    }

    /// Removes the row at a place.
    pub(crate) fn remove(&mut self, place: usize)
        requires { place < length self.old }
        ensures { self.new ≡ remove self.old place }
    {
        self.rows.remove(place);
    }

    /// Removes the rows of an owner.
    pub(crate) fn drop_owner(&mut self, owner: Owner)
        ensures { self.new ≡ filter (λ row. not (same_owner row.owner owner)) self.old }
    {
        self.rows.retain(|row| row.owner != owner);
    }

    /// Moves the rows behind the first `kept` ones to a block that has none.
    pub(crate) fn move_upper(&mut self, kept: usize, upper: &mut Block)
        requires kept { kept ≤ length self.old }
        requires empty { upper.old ≡ [] }
        ensures few { length self.old ≤ 64 }
        ensures kept { self.new ≡ take kept self.old }
        ensures upper { upper.new ≡ drop kept self.old }
    {
        while self.rows.len() > kept {
            let Some(row) = self.rows.pop() else {
                unreachable!()
            };
            let Ok(()) = upper.rows.push(row) else {
                unreachable!()
            };
        }
        upper.rows.reverse();
    }
}
