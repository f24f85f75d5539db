//! The locks that owners got, and those of them that others observed. A function here that gives a `Result` answers
//! `AllocError` where a request for memory was refused.
use client_history::{Act, ClientCall};
use indexmap::IndexMap;
use intervals::span::{GREATEST, Span};
use model::{Mode, Owner};
use std::alloc::{AllocError, Global};

// A lock that an owner got by a set or a wait that is done, and the time in which it may be held: from the begin of
// that call to the end of the call that gives it up, or for ever. The call that gives it up is the next one, by their
// begins, in which its owner sets, unlocks or drops a byte of it.
#[derive(Clone, Copy)]
struct TimedLock {
    owner: Owner,
    mode: Mode,
    span: Span,
    begin: u64,
    until: u64,
}

/// The number of locks that were got by these calls, and the number of them that were observed. A lock is observed
/// where a call of another owner is denied in a mode that it excludes, for bytes of which at least one is the lock's,
/// and the time from the begin to the end of that call meets the time in which the lock may be held. A denial that
/// names an owner observes locks of that owner alone.
///
/// It looks at each denial once for each lock that is not observed yet and may be held then.
pub(crate) fn got_by(alloc: Global, calls: &[ClientCall]) -> Result<(u64, u64), AllocError> {
    let mut sorted = Vec::from_slice(alloc, calls)?;
    sorted.sort_by_key(|call| call.begin)?;
    let held = held_in(alloc, &sorted)?;
    let mut unseen: Vec<TimedLock> = Vec::new(alloc);
    let mut taken = 0;
    let mut observed = 0u64;
    for call in &sorted {
        if let Act::IsDenied { mode, span, told } = call.act {
            let end = call.end.unwrap_or(u64::MAX);
            for lock in held.iter().skip(taken) {
                if lock.begin > end {
                    break;
                }
                unseen.push(*lock)?;
                taken = taken.saturating_add(1);
            }
            unseen.retain(|lock: &TimedLock| lock.until >= call.begin);
            let before = unseen.len();
            unseen.retain(|lock: &TimedLock| {
                !(lock.begin <= end
                    && lock.owner != call.owner
                    && told.owner.is_none_or(|owner| owner == lock.owner)
                    && meet(span, lock.span)
                    && lock.mode.excludes(mode))
            });
            observed = observed.saturating_add(before.saturating_sub(unseen.len()) as u64);
        }
    }
    Ok((held.len() as u64, observed))
}

// The locks that owners got by these calls, which stand by their begins.
fn held_in(alloc: Global, calls: &[ClientCall]) -> Result<Vec<TimedLock>, AllocError> {
    let mut held: Vec<TimedLock> = Vec::new(alloc);
    let mut kept: IndexMap<Owner, Vec<usize>> = IndexMap::new(alloc);
    for call in calls {
        let (lo, hi) = (0, GREATEST);
        let (mode, span) = match call.act {
            Act::Locks { mode, span } => (Some(mode), span),
            Act::Frees { span } => (None, span),
            Act::Drops => (None, Span { lo, hi }),
            Act::IsDenied { .. } | Act::IsFree { .. } => continue,
        };
        let mut still = Vec::new(alloc);
        for index in kept.swap_remove(&call.owner).unwrap_or(Vec::new(alloc)) {
            match held.get_mut(index) {
                Some(lock) if meet(lock.span, span) => lock.until = call.end.unwrap_or(u64::MAX),
                _ => still.push(index)?,
            }
        }
        if let (Some(mode), Some(_)) = (mode, call.end) {
            still.push(held.len())?;
            held.push(TimedLock {
                owner: call.owner,
                mode,
                span,
                begin: call.begin,
                until: u64::MAX,
            })?;
        }
        kept.insert(call.owner, still)?;
    }
    Ok(held)
}

// Whether the spans have a byte in common.
fn meet(one: Span, other: Span) -> bool {
    one.lo <= other.hi && other.lo <= one.hi
}
