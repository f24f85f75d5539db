//! A law of locks that block.
ghost use Rattle.lock_table.specs.code.Blockers.{LowestBlockerIsOne};

/// At most one lock is the lowest that blocks an owner, so the answer of `LockTable::blocker` is
/// determined.
pub fn lowest_blocker_is_one()
    ensures { LowestBlockerIsOne }
{}
