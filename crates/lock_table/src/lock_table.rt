//! The table of the record locks of one node.
ghost use Rattle.std.specs.Prelude.{◌≡◌, ℕ, ◌≤◌, ◌<◌, ◌+◌, ◌-◌, ◌/◌, IfOk, IfSome, IsTrue, ◌↔◌, OnOk, OnErr, Err, Some, None};
ghost use Rattle.intervals.specs.rule.Bytes.{nothing, put};
ghost use Rattle.model.specs.rule.Locks.{no_locks, with_lock, without_owner, without_owner_anywhere, regions};
ghost use Rattle.model.specs.declared.mode.Mode.{Mode as SomeMode};
ghost use Rattle.lock_table.specs.declared.error.LockError.TheVariants.{NoLocks};
ghost use Rattle.lock_table.specs.code.Rows.{IsSameTable, HoldsLess, HasFlag};
ghost use Rattle.lock_table.specs.rule.Tables.{held};

use crate::block::Block;
use crate::blocks::{RowRoom, copies, drop_rows, remove_row};
use crate::error::LockError;
use crate::flag_set::FlagSet;
use crate::page_index::PageIndex;
use crate::place::{Place, position, same_rows};
use intervals::span::Span;
use intervals::span_edit::SpanEdit;
use model::{Mode, Owner};
use std::alloc::{AllocError, Global};
use std::marker::Model;

mod plans;
mod searches;
mod writes;

// A table of fewer rows than this keeps no index.
const LEAST_ROWS: usize = 32;

// The number of rows for which an index has memory, for each block of several: as many as a block has
// where rows come in order.
const ROWS_OF_BLOCK: usize = 56;

/// The record locks of one node: what each owner holds at each byte of each file, by mode. `set`,
/// `unlock` and a change from `plan` leave an owner at most as many regions in a file as the
/// table's limit; a region is a longest run of bytes in one mode. A call that errs leaves the locks
/// as they were.
#[derive(Drop)]
pub struct LockTable {
    blocks: Vec<Block>,
    index: PageIndex,
    limit: usize,
}

impl Model for LockTable {
    ghost use Rattle.lock_table.specs.code.Rows.{AreRows, AreSome, Covers};
    ghost use Rattle.lock_table.specs.rule.Tables.{TableParts, all_rows, rows_held};

    ghost Value = { TableParts };

    ghost view = { λ t. record { blocks = t.blocks.items; limit = t.limit } };

    ghost invariant = { λ t. AreRows (all_rows t.blocks.items) × AreSome t.blocks.items × Covers t.index (rows_held (all_rows t.blocks.items)) };
}

/// A planned change of what an owner holds in a file, with the memory that it takes: where the
/// owner's row stands, or belongs; room for one more block, if the owner has no row in the file and
/// its block is full; if the table is to keep an index and has none, or one that is small for its
/// rows, `index` has memory for one.
#[derive(Drop)]
pub struct LockEdit {
    pub file: u16,
    pub owner: Owner,
    pub write: SpanEdit<Mode>,
    pub place: Result<Place, Place>,
    pub room: Option<Box<RowRoom>>,
    pub index: Option<Box<PageIndex>>,
}

impl LockTable {
    /// The table without locks, in which an owner may have `limit` regions in a file.
    pub fn new(alloc: Global, limit: usize) -> Self
        ensures locks { held result ≡ no_locks }
        ensures limit { result.limit ≡ limit }
    {
        LockTable {
            blocks: Vec::new(alloc),
            index: PageIndex::none(alloc),
            limit,
        }
    }

    /// An equal table.
    ///
    /// # Errors
    /// `AllocError` where a request for memory was refused.
    pub fn copy(&self) -> Result<Self, AllocError>
        ensures { IfOk result (λ copy. copy ≡ self.now) }
    {
        let alloc = *self.blocks.allocator();
        Ok(LockTable {
            blocks: copies(alloc, &self.blocks)?,
            index: PageIndex::none(alloc),
            limit: self.limit,
        })
    }

    /// Whether both tables have the same locks and the same limit.
    pub fn same(&self, other: &Self) -> bool
        ensures { IsTrue result ↔ IsSameTable self.now other.now }
    {
        self.limit == other.limit && same_rows(&self.blocks, &other.blocks)
    }

    /// Sets each byte of the span to the mode for this owner (POSIX.1-2017 `fcntl()`, F_SETLK with
    /// F_RDLCK or F_WRLCK), whatever other owners hold. To prevent conflicting locks, ask `blocker`
    /// first.
    ///
    /// # Errors
    /// `NoLocks` where the owner would then have more regions in the file than the limit (ENOLCK),
    /// which is tested before memory is requested; `NoMemory` where a request for memory was
    /// refused.
    pub fn set(&mut self, owner: Owner, file: u16, span: Span, mode: Mode) -> Result<(), LockError>
        ensures ok { OnOk result (held self.new ≡ with_lock (held self.old) file owner span (Some mode)) }
        ensures few { OnOk result (regions (put (held self.old file owner) span (Some mode)) ≤ self.old.limit) }
        ensures many { result ≡ Err NoLocks → self.old.limit < regions (put (held self.old file owner) span (Some mode)) }
        ensures refused { self.old.limit < regions (put (held self.old file owner) span (Some mode)) → result ≡ Err NoLocks }
        ensures err { OnErr result (self.new ≡ self.old) }
        ensures limit { self.new.limit ≡ self.old.limit }
    {
        let edit = self.plan(owner, file, span, Some(mode))?;
        self.apply(edit);
        Ok(())
    }

    /// Frees each byte of the span for this owner (POSIX.1-2017 `fcntl()`, F_SETLK with F_UNLCK).
    ///
    /// # Errors
    /// `NoLocks` where the owner would then have more regions in the file than the limit (ENOLCK),
    /// since a region can be cut in two; that is tested before memory is requested; `NoMemory`
    /// where a request for memory was refused.
    pub fn unlock(&mut self, owner: Owner, file: u16, span: Span) -> Result<(), LockError>
        ensures ok { OnOk result (held self.new ≡ with_lock (held self.old) file owner span None) }
        ensures few { OnOk result (regions (put (held self.old file owner) span None) ≤ self.old.limit) }
        ensures many { result ≡ Err NoLocks → self.old.limit < regions (put (held self.old file owner) span None) }
        ensures refused { self.old.limit < regions (put (held self.old file owner) span None) → result ≡ Err NoLocks }
        ensures err { OnErr result (self.new ≡ self.old) }
        ensures limit { self.new.limit ≡ self.old.limit }
    {
        let edit = self.plan(owner, file, span, None)?;
        self.apply(edit);
        Ok(())
    }

    /// Frees each byte of a file for an owner. Takes no memory.
    pub fn drop_owner(&mut self, owner: Owner, file: u16)
        ensures locks { held self.new ≡ without_owner (held self.old) file owner }
        ensures limit { self.new.limit ≡ self.old.limit }
    {
        if let Ok(place) = position(&self.blocks, file, owner) {
            remove_row(&mut self.blocks, place);
        }
    }

    // The files in which the owner may hold bytes, where flag 0 is file 1; `None` where the table
    // doesn't know.
    fn files_of(&self, owner: Owner) -> Option<FlagSet>
        ensures { IfSome result (λ files. (f b : ℕ) (m : SomeMode) → held self.now f owner b ≡ Some m → (1 ≤ f) × (f ≤ 256) × HasFlag files (f - 1)) }
    {
        self.index.files_of(owner)
    }

    // Frees each byte of some files for an owner: the files whose flags are in the word, 0 to 3.
    fn drop_in_word(&mut self, owner: Owner, files: &FlagSet, word: u16)
        requires { word < 4 }
        ensures limit { self.new.limit ≡ self.old.limit }
        ensures less { HoldsLess owner (held self.old) (held self.new) }
        ensures gone { (k : ℕ) → k / 64 ≡ word → HasFlag files.now k → held self.new (k + 1) owner ≡ nothing }
    {
        for bit in 0..64 {
            let flag = word * 64 + bit;
            if files.has(flag as usize) {
                self.drop_owner(owner, flag + 1);
            }
        }
    }

    // Frees each byte of some files for an owner: the files with these flags.
    fn drop_in_files(&mut self, owner: Owner, files: &FlagSet)
        ensures limit { self.new.limit ≡ self.old.limit }
        ensures less { HoldsLess owner (held self.old) (held self.new) }
        ensures gone { (k : ℕ) → k < 256 → HasFlag files.now k → held self.new (k + 1) owner ≡ nothing }
    {
        for word in 0..4 {
            if files.has_some(word as usize) {
                self.drop_in_word(owner, files, word);
            }
        }
    }

    // Removes all rows of an owner.
    fn drop_rows(&mut self, owner: Owner)
        ensures locks { held self.new ≡ without_owner_anywhere (held self.old) owner }
        ensures limit { self.new.limit ≡ self.old.limit }
    {
        drop_rows(&mut self.blocks, owner);
    }

    /// Frees each byte of every file for an owner. Takes no memory.
    pub fn drop_owner_anywhere(&mut self, owner: Owner)
        ensures locks { held self.new ≡ without_owner_anywhere (held self.old) owner }
        ensures limit { self.new.limit ≡ self.old.limit }
    {
        match self.files_of(owner) {
            Some(files) => self.drop_in_files(owner, &files),
            None => self.drop_rows(owner),
        }
    }
}
