//! The judgement of a history: whether one table explains it. A function here that gives a `Result` answers
//! `AllocError` where a request for memory was refused.
ghost use Rattle.std.specs.Prelude.{IfOk, IsTrue};
ghost use Rattle.client_history.specs.code.Moves.{AreOrdered};
ghost use Rattle.client_history.specs.code.Search.{AreSound};
ghost use Rattle.client_history.specs.rule.Explained.{AreExplainedBefore, IsUnexplainedFrom, IsVerdict};

use crate::explains::{explains, explains_by};
use crate::{ClientCall, Verdict, are_sound, ended_by, look_for_order};
use std::alloc::{AllocError, Global};

/// Judges whether one table of record locks explains what the clients of a file saw. An order that it gives does, by
/// `explains`. Where it says that no order explains the calls up to the end of a call, there is none, and up to each
/// time before that end there is one, by `explains_by`. `steps` is the number of tables that it may look at before it
/// gives up.
pub fn judge(alloc: Global, calls: &[ClientCall], steps: u64) -> Result<Verdict, AllocError>
    ensures { IfOk result (λ verdict. IsVerdict calls.now verdict) }
{
    if !are_sound(calls) {
        return Ok(Verdict::Unknown { call: calls.len() });
    }
    match look_for_order(alloc, calls, steps)? {
        Verdict::Explained { order } => checked(alloc, calls, order),
        Verdict::Unexplained { call, ways } => unexplained(alloc, calls, call, ways),
        Verdict::Unknown { call } => Ok(Verdict::Unknown { call }),
    }
}

// The verdict where the search found this order.
fn checked(alloc: Global, calls: &[ClientCall], order: Vec<usize>) -> Result<Verdict, AllocError>
    ensures { IfOk result (λ verdict. IsVerdict calls.now verdict) }
{
    if explains(alloc, calls, &order)? {
        return Ok(Verdict::Explained { order });
    }
    Ok(Verdict::Unknown { call: calls.len() })
}

// The verdict where the search found that no order explains the calls up to the end of this one, and had gone these
// ways before.
fn unexplained(
    alloc: Global,
    calls: &[ClientCall],
    call: usize,
    ways: Vec<Vec<usize>>,
) -> Result<Verdict, AllocError>
    requires sound { AreSound calls.now }
    requires from { IsUnexplainedFrom calls.now call }
    ensures { IfOk result (λ verdict. IsVerdict calls.now verdict) }
{
    if let Some(end) = calls[call].end {
        if are_explained_before(alloc, calls, end, &ways)? {
            return Ok(Verdict::Unexplained { call, ways });
        }
    }
    Ok(Verdict::Unknown { call })
}

// Whether the first part of some way explains the calls up to each time before that one.
fn are_explained_before(
    alloc: Global,
    calls: &[ClientCall],
    end: u64,
    ways: &[Vec<usize>],
) -> Result<bool, AllocError>
    requires { AreOrdered calls.now }
    ensures { IfOk result (λ yes. IsTrue yes → AreExplainedBefore end calls.now) }
{
    let Some(time) = end.checked_sub(1) else {
        return Ok(true);
    };
    for way in ways {
        if explains_by(alloc, calls, front_by(calls, way, time), time)? {
            return Ok(true);
        }
    }
    Ok(false)
}

// The way up to its last call that ended at that time or earlier.
fn front_by<'a>(calls: &[ClientCall], way: &'a [usize], time: u64) -> &'a [usize] {
    let mut count = 0;
    for (place, i) in way.iter().enumerate() {
        if calls.get(*i).is_some_and(|call| ended_by(call, time)) {
            count = place + 1;
        }
    }
    &way[..count]
}
