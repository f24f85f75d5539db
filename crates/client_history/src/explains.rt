//! The test whether an order of calls explains a history. A function here that gives a `Result` answers `AllocError`
//! where a request for memory was refused.
ghost use Rattle.std.specs.Prelude.{IfOk, IsTrue, ◌↔◌};
ghost use Rattle.client_history.specs.rule.Explained.{IsExplainedBy, always};

use crate::{
    ClientCall, are_answered, are_behind_their_first, are_in_time, exits_are_last, exits_are_whole,
    have_begun, is_legal, marks_of,
};
use std::alloc::{AllocError, Global};

/// Whether the calls in this order, each named by its index, explain what the clients of a file saw. One table of
/// record locks, without locks at first, gives each reply where its call stands. Each call stands once at most,
/// between its begin and its end; each with a reply stands there; nothing of an owner stands behind its exit; and a
/// call that follows another stands behind that one.
pub fn explains(alloc: Global, calls: &[ClientCall], order: &[usize]) -> Result<bool, AllocError>
    ensures { IfOk result (λ yes. IsTrue yes ↔ IsExplainedBy always calls.now order.now) }
{
    explains_by(alloc, calls, order, u64::MAX)
}

/// Whether the calls in this order explain, as in `explains`, what the clients saw up to that time. Each call that
/// ended by then stands there, none that began later does, and with an exit each call of its owner that has a reply.
pub fn explains_by(
    alloc: Global,
    calls: &[ClientCall],
    order: &[usize],
    time: u64,
) -> Result<bool, AllocError>
    ensures { IfOk result (λ yes. IsTrue yes ↔ IsExplainedBy time calls.now order.now) }
{
    let Some(marks) = marks_of(alloc, order, calls.len())? else {
        return Ok(false);
    };
    if !are_answered(calls, &marks, time) {
        return Ok(false);
    }
    if !have_begun(calls, order, time) {
        return Ok(false);
    }
    if !are_in_time(calls, order) {
        return Ok(false);
    }
    if !exits_are_last(alloc, calls, order)? {
        return Ok(false);
    }
    if !exits_are_whole(alloc, calls, order, &marks)? {
        return Ok(false);
    }
    if !are_behind_their_first(alloc, calls, order)? {
        return Ok(false);
    }
    is_legal(alloc, calls, order)
}
