//! What a holder gives up when a token server revokes bytes of its token.
ghost use Rattle.std.specs.Prelude.{◌≤◌};
ghost use Rattle.model.specs.rule.Locks.{IsRegion};
ghost use Rattle.lock_table.specs.rule.Tables.{held};
ghost use Rattle.token_set.specs.rule.Tokens.{IsGivenUp};

use intervals::span::Span;
use lock_table::lock_table::LockTable;
use model::{LockInfo, Mode};

/// A holder's answer to a revoke.
#[derive(Clone, Copy, PartialEq, Eq)]
pub enum GaveUp {
    /// The bytes that were given up.
    Released(Span),
    /// A lock of the holder is in the way, so nothing was given up.
    Conflict(LockInfo),
}

impl GaveUp {
    /// A holder's answer to a revoke, by its locks of the file. A lock that excludes the mode is in
    /// the way. If one reaches into `required`, the answer is `Conflict` with the one of the lowest
    /// first byte, and among those with one first byte the one of the lowest owner. Else it is
    /// `Released` with the largest span that contains `required`, lies in `desired` and has no byte
    /// of a lock in the way. Takes no memory.
    pub fn by_locks(
        locks: &LockTable,
        file: u16,
        mode: Mode,
        required: Span,
        desired: Span,
    ) -> GaveUp
        requires starts_within { desired.lo ≤ required.lo }
        requires ends_within { required.hi ≤ desired.hi }
        ensures { IsGivenUp (IsRegion (held locks.now file)) mode required desired result }
    {
        let _ = &required.lo; // tells the proof that the span has a byte
        match locks.lowest_in_way(file, required, mode) {
            Some(lock) => GaveUp::Conflict(lock),
            None => GaveUp::Released(locks.free_around(file, required, desired, mode)),
        }
    }
}
