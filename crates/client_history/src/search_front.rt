//! A front: a table that the search has reached. A function here that gives a `Result` answers `AllocError` where a
//! request for memory was refused.
ghost use Rattle.std.specs.Prelude.{◌≡◌, ℕ, true, false, [], IfOk, IsTrue, ◌↔◌};
ghost use Rattle.model.specs.rule.Locks.{Locks, no_locks};
ghost use Rattle.lock_table.specs.rule.Tables.{held};
ghost use Rattle.client_history.specs.rule.Explained.{ActStep, the_file, Stands};
ghost use Rattle.client_history.specs.code.Taken.{IsAlsoTaken};

use crate::follow::follow;
use crate::{OpenClientCall, Paths};
use lock_table::lock_table::LockTable;
use std::alloc::{AllocError, Global};

/// A table that the search has reached: the locks, the calls taken that have not ended, in the order of their
/// indexes, and the way to it.
#[derive(Drop)]
pub(crate) struct SearchFront {
    pub table: LockTable,
    pub taken: Vec<usize>,
    path: usize,
    ghost unlimited: { table.limit ≡ 18446744073709551615 },
}

impl SearchFront {
    /// The front before all calls: none was taken, and no lock is held.
    pub(crate) fn new(alloc: Global) -> Self
        ensures locks { held result.table ≡ no_locks }
        ensures taken { result.taken.items ≡ [] }
    {
        SearchFront {
            table: LockTable::new(alloc, usize::MAX),
            taken: Vec::new(alloc),
            path: 0,
        }
    }

    /// A copy, equal to this front.
    pub(crate) fn copy(&self) -> Result<Self, AllocError>
        ensures locks { IfOk result (λ copy. held copy.table ≡ held self.now.table) }
        ensures taken { IfOk result (λ copy. copy.taken.items ≡ self.now.taken.items) }
    {
        Ok(SearchFront {
            table: self.table.copy()?,
            taken: self.taken.clone()?,
            path: self.path,
        })
    }

    /// Whether both fronts took the same calls and have the same locks.
    pub(crate) fn same(&self, other: &Self) -> bool
        ensures locks { IsTrue result → held self.now.table ≡ held other.now.table }
        ensures taken { IsTrue result → self.now.taken.items ≡ other.now.taken.items }
    {
        self.taken == other.taken && self.table.same(&other.table)
    }

    /// The way to the front, as the number of its last step.
    pub(crate) fn path(&self) -> usize {
        self.path
    }

    /// Takes the call, if the table allows it. Answers whether it does.
    pub(crate) fn take(
        &mut self,
        open: &OpenClientCall,
        paths: &mut Paths,
    ) -> Result<bool, AllocError>
        ensures taken { IfOk result (λ did. did ≡ true → ActStep the_file (held self.old.table) «open».now.call.owner «open».now.call.act (held self.new.table)) }
        ensures noted { IfOk result (λ did. did ≡ true → IsAlsoTaken «open».now.index self.old.taken.items self.new.taken.items) }
        ensures never { IfOk result (λ did. did ≡ false → (next : Locks) → ActStep the_file (held self.old.table) «open».now.call.owner «open».now.call.act next → ⊥) }
        ensures stays { IfOk result (λ did. did ≡ false → (held self.new.table ≡ held self.old.table) × (self.new.taken.items ≡ self.old.taken.items)) }
    {
        if !follow(&mut self.table, open.call.owner, &open.call.act)? {
            return Ok(false);
        }
        self.path = paths.push(self.path, open.index)?;
        let place = self.taken.partition_point(|index| *index < open.index);
        self.taken.insert(place, open.index)?;
        Ok(true)
    }

    /// Drops calls that are over from those taken.
    pub(crate) fn forget(&mut self, over: &[usize])
        ensures locks { held self.new.table ≡ held self.old.table }
        ensures taken { (i : ℕ) → Stands self.new.taken.items i ↔ (Stands self.old.taken.items i × (Stands over.now i → ⊥)) }
    {
        self.taken.retain(|index| !over.contains(index));
    }
}
