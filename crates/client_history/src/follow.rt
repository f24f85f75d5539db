//! One call on a table: whether the table allows it, and the locks after it. A function here that gives a `Result`
//! answers `AllocError` where a request for memory was refused.
ghost use Rattle.std.specs.Prelude.{◌≡◌, ◌≢◌, true, false, IfOk, IsTrue, ◌↔◌};
ghost use Rattle.model.specs.rule.Locks.{Locks, IsFree, IsInWay};
ghost use Rattle.lock_table.specs.rule.Tables.{held};
ghost use Rattle.lock_table.specs.declared.error.LockError.TheVariants.{NoMemory};
ghost use Rattle.client_history.specs.rule.Explained.{ActStep, IsBlocked, IsTold, the_file};

use crate::{Act, ToldLock};
use intervals::span::Span;
use lock_table::error::LockError;
use lock_table::lock_table::LockTable;
use model::{LockInfo, Mode, Owner};
use std::alloc::AllocError;

/// The file whose locks are judged. Each file has its own history.
pub(crate) const FILE: u16 = 1;

// The only error of a table in which an owner may have any number of regions.
fn no_memory(error: LockError) -> AllocError
    requires { error ≡ NoMemory }
{
    let _ = error;
    AllocError
}

/// Makes the act on the table, if the table allows it. Else the locks stay.
pub(crate) fn follow(table: &mut LockTable, owner: Owner, act: &Act) -> Result<bool, AllocError>
    requires { table.old.limit ≡ 18446744073709551615 }
    ensures taken { IfOk result (λ yes. yes ≡ true → ActStep the_file (held table.old) owner act.now (held table.new)) }
    ensures never { IfOk result (λ yes. yes ≡ false → (new : Locks) → ActStep the_file (held table.old) owner act.now new → ⊥) }
    ensures stays { IfOk result (λ yes. yes ≡ false → held table.new ≡ held table.old) }
    ensures limit { table.new.limit ≡ 18446744073709551615 }
{
    match *act {
        Act::Locks { mode, span } => {
            if !is_free(table, owner, span, mode) {
                return Ok(false);
            }
            match table.set(owner, FILE, span, mode) {
                Ok(()) => Ok(true),
                Err(error) => Err(no_memory(error)),
            }
        }
        Act::IsDenied { mode, span, told } => is_blocked(table, owner, span, mode, &told),
        Act::IsFree { mode, span } => Ok(is_free(table, owner, span, mode)),
        Act::Frees { span } => match table.unlock(owner, FILE, span) {
            Ok(()) => Ok(true),
            Err(error) => Err(no_memory(error)),
        },
        Act::Drops => {
            table.drop_owner(owner, FILE);
            Ok(true)
        }
    }
}

/// Whether no lock of another owner blocks the mode on the span.
#[tactic(auto, using(crate::proofs::Blocked::blocked_is_not_free))]
pub(crate) fn is_free(table: &LockTable, owner: Owner, span: Span, mode: Mode) -> bool
    ensures { IsTrue result ↔ IsFree (held table.now the_file) owner span mode }
{
    let _ = &span.lo; // tells the proof that the span has a byte
    match table.blocker(owner, FILE, span, mode) {
        Some(_) => false,
        None => true,
    }
}

// Whether a lock of another owner blocks, to which all that the client was told applies.
fn is_blocked(
    table: &LockTable,
    owner: Owner,
    span: Span,
    mode: Mode,
    told: &ToldLock,
) -> Result<bool, AllocError>
    ensures { IfOk result (λ yes. IsTrue yes ↔ IsBlocked (held table.now) the_file owner span mode told.now) }
{
    let _ = &span.lo; // tells the proof that the span has a byte
    let Some(lowest) = table.blocker(owner, FILE, span, mode) else {
        return Ok(false);
    };
    if is_told(told, &lowest) {
        return Ok(true);
    }
    any_denies(table, owner, span, mode, told)
}

// Whether one of all locks is of another owner, blocks, and fits what the client was told.
fn any_denies(
    table: &LockTable,
    owner: Owner,
    span: Span,
    mode: Mode,
    told: &ToldLock,
) -> Result<bool, AllocError>
    ensures { IfOk result (λ yes. IsTrue yes ↔ IsBlocked (held table.now) the_file owner span mode told.now) }
{
    let locks = table.locks(FILE)?;
    for lock in &locks {
        if denies(lock, owner, span, mode, told) {
            return Ok(true);
        }
    }
    Ok(false)
}

// Whether the lock is of another owner, blocks, and fits what the client was told.
fn denies(lock: &LockInfo, owner: Owner, span: Span, mode: Mode, told: &ToldLock) -> bool
    ensures { IsTrue result ↔ ((lock.now.owner ≢ owner) × IsInWay span mode lock.now × IsTold told.now lock.now) }
{
    lock.owner != owner && is_in_way(lock, span, mode) && is_told(told, lock)
}

/// Whether the lock reaches into the span and excludes the mode.
pub(crate) fn is_in_way(lock: &LockInfo, span: Span, mode: Mode) -> bool
    ensures { IsTrue result ↔ IsInWay span mode lock.now }
{
    lock.mode.excludes(mode) && lock.span.lo <= span.hi && span.lo <= lock.span.hi
}

// Whether all that the client was told applies to the lock.
fn is_told(told: &ToldLock, lock: &LockInfo) -> bool
    ensures { IsTrue result ↔ IsTold told.now lock.now }
{
    let mode = match told.mode {
        Some(mode) => mode == lock.mode,
        None => true,
    };
    let span = match told.span {
        Some(span) => span == lock.span,
        None => true,
    };
    let owner = match told.owner {
        Some(owner) => owner == lock.owner,
        None => true,
    };
    mode && span && owner
}
