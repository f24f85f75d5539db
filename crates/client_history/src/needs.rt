//! The calls that a call needs: they may have to come before it.
ghost use Rattle.std.specs.Prelude.{◌≡◌, ◌≢◌, ◌⊎◌, Some, None, true, false, IfOk, IsTrue, MatchOption, ◌↔◌};
ghost use Rattle.model.specs.rule.Locks.{IsInWay};
ghost use Rattle.lock_table.specs.rule.Tables.{held};
ghost use Rattle.client_history.specs.rule.Explained.{ActStep, the_file};
ghost use Rattle.client_history.specs.code.OpenCalls.{FindsNoLock, IsHeldUp, IsNotDenied, IsNeeded, LetsGo, HasRival, IsBarred, IsUntold, MayDeny, MayComeBefore, IsLeftOf};
ghost use Rattle.client_history.specs.code.Moves.{AsksOnly, Meet};

use crate::{Act, FILE, OpenClientCall, ToldLock, is_in_way};
use intervals::span::Span;
use lock_table::lock_table::LockTable;
use model::{LockInfo, Mode, Owner};
use std::alloc::AllocError;

/// Whether the call may be denied here, and its client was told nothing of the lock.
pub(crate) fn is_denied(table: &LockTable, call: &OpenClientCall) -> bool
    ensures yes { result ≡ true → AsksOnly call.now.call.act × ActStep the_file (held table.now) call.now.call.owner call.now.call.act (held table.now) }
    ensures no { result ≡ false → IsNotDenied (held table.now) call.now.call.owner call.now.call.act }
{
    let Act::IsDenied { mode, span, told } = call.call.act else {
        return false;
    };
    if !is_untold(&told) {
        return false;
    }
    let _ = &span.lo; // tells the proof that the span has a byte
    match table.blocker(call.call.owner, FILE, span, mode) {
        Some(_) => true,
        None => false,
    }
}

// Whether the client was told nothing of the lock.
fn is_untold(told: &ToldLock) -> bool
    ensures { IsTrue result ↔ IsUntold told.now }
{
    told.mode.is_none() && told.span.is_none() && told.owner.is_none()
}

/// The lock that the fewest open calls release, of those that block a call that needs its bytes free.
///
/// # Errors
/// `AllocError` where a request for memory was refused.
pub(crate) fn least_kept(
    table: &LockTable,
    open: &[OpenClientCall],
    taken: &[usize],
    call: &OpenClientCall,
) -> Result<Option<LockInfo>, AllocError>
    ensures { IfOk result (λ kept. MatchOption kept (FindsNoLock (held table.now) call.now.call.owner call.now.call.act) (IsHeldUp (held table.now) call.now.call.owner call.now.call.act)) }
{
    let (Act::Locks { mode, span } | Act::IsFree { mode, span }) = call.call.act else {
        return Ok(None);
    };
    let _ = &span.lo; // tells the proof that the span has a byte
    let Some(lowest) = table.blocker(call.call.owner, FILE, span, mode) else {
        return Ok(None);
    };
    let mut kept = lowest;
    let mut least = count_of(&lowest, open, taken);
    for lock in &table.locks(FILE)? {
        if !is_in_its_way(lock, call.call.owner, span, mode) {
            continue;
        }
        let count = count_of(lock, open, taken);
        if count < least {
            least = count;
            kept = *lock;
        }
    }
    Ok(Some(kept))
}

// Whether the lock is of another owner and blocks the mode on the span.
fn is_in_its_way(lock: &LockInfo, owner: Owner, span: Span, mode: Mode) -> bool
    ensures { IsTrue result ↔ ((lock.now.owner ≢ owner) × IsInWay span mode lock.now) }
{
    lock.owner != owner && is_in_way(lock, span, mode)
}

// The number of calls that are left and release the lock.
fn count_of(lock: &LockInfo, open: &[OpenClientCall], taken: &[usize]) -> usize {
    open.iter()
        .filter(|call| releases(lock, call) && call.is_left(taken))
        .count()
}

/// Whether the call needs the other one. If a kept lock blocks the call, the other releases that lock; else the other
/// may have to come before the call.
pub(crate) fn needs(
    open: &[OpenClientCall],
    taken: &[usize],
    call: &OpenClientCall,
    kept: &Option<LockInfo>,
    other: &OpenClientCall,
) -> bool
    ensures { IsTrue result ↔ IsNeeded (IsLeftOf «open».now taken.now) call.now.call kept.now other.now.index other.now.call }
{
    match kept {
        Some(lock) => releases(lock, other),
        None => is_met_by(open, taken, call, other),
    }
}

// Whether the call takes bytes of the lock from its owner, or lets others read them.
fn releases(lock: &LockInfo, call: &OpenClientCall) -> bool
    ensures { IsTrue result ↔ LetsGo lock.now call.now.call.owner call.now.call.act }
{
    if call.call.owner != lock.owner {
        return false;
    }
    match call.call.act {
        Act::Locks { mode, span } => mode == Mode::Read && meet(span, lock.span),
        Act::Frees { span } => meet(span, lock.span),
        Act::Drops => true,
        Act::IsDenied { .. } | Act::IsFree { .. } => false,
    }
}

// Whether the other call may have to come before the call, which no lock blocks: it is of the same owner, or the
// call's lock would bar it, or it makes the lock by which the call is denied.
fn is_met_by(
    open: &[OpenClientCall],
    taken: &[usize],
    call: &OpenClientCall,
    other: &OpenClientCall,
) -> bool
    ensures { IsTrue result ↔ MayComeBefore (IsLeftOf «open».now taken.now) call.now.call other.now.index other.now.call }
{
    if other.call.owner == call.call.owner {
        return call.changes() && (call.call.is_last || other.changes());
    }
    match call.call.act {
        Act::Locks { mode, span } => is_barred(open, taken, other, span, mode),
        Act::IsDenied { mode, span, told } => may_deny(other, span, mode, &told),
        _ => false,
    }
}

// Whether the lock would bar the call: a query that found bytes of it free, or a lock of an owner with another
// change.
fn is_barred(
    open: &[OpenClientCall],
    taken: &[usize],
    call: &OpenClientCall,
    span: Span,
    mode: Mode,
) -> bool
    ensures { IsTrue result ↔ IsBarred (IsLeftOf «open».now taken.now) mode span call.now.index call.now.call.owner call.now.call.act }
{
    match call.call.act {
        Act::IsFree {
            mode: asked,
            span: bytes,
        } => meet(span, bytes) && mode.excludes(asked),
        Act::Locks {
            mode: asked,
            span: bytes,
        } => meet(span, bytes) && mode.excludes(asked) && has_rival(open, taken, call),
        _ => false,
    }
}

// Whether another change of the call's owner is left.
fn has_rival(open: &[OpenClientCall], taken: &[usize], call: &OpenClientCall) -> bool
    ensures { IsTrue result ↔ HasRival (IsLeftOf «open».now taken.now) call.now.index call.now.call.owner }
{
    for other in open {
        if other.is_beside(call) && other.changes() && other.is_left(taken) {
            return true;
        }
    }
    false
}

// Whether the call may make the lock that denied another owner, who was told this of it.
fn may_deny(call: &OpenClientCall, span: Span, mode: Mode, told: &ToldLock) -> bool
    ensures { IsTrue result ↔ (MayDeny mode span told.now call.now.call.act × ((told.now.owner ≡ None) ⊎ (told.now.owner ≡ Some call.now.call.owner))) }
{
    if let Some(owner) = told.owner {
        return owner == call.call.owner && call.changes();
    }
    if told.span.is_some() || told.mode.is_some() {
        return call.changes();
    }
    match call.call.act {
        Act::Locks {
            mode: asked,
            span: bytes,
        } => meet(span, bytes) && asked.excludes(mode),
        _ => false,
    }
}

// Whether the spans have a byte in common.
fn meet(one: Span, other: Span) -> bool
    ensures { IsTrue result ↔ Meet one other }
{
    one.lo <= other.hi && other.lo <= one.hi
}
