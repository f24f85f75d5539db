//! The tests whether exits stand where they may: behind all calls of their owner, each of which stands there if it
//! has a reply. A function here that gives a `Result` answers `AllocError` where a request for memory was refused.
ghost use Rattle.std.specs.Prelude.{◌≡◌, IfOk, IsTrue, ◌↔◌, length};
ghost use Rattle.client_history.specs.rule.Explained.{AreWithin, ExitsAreLast, ExitsAreWhole};
ghost use Rattle.client_history.specs.code.Moves.{AreMarks};

use crate::client_call::ClientCall;
use indexmap::IndexSet;
use std::alloc::{AllocError, Global};

/// Whether no call of the order stands behind its owner's exit.
pub(crate) fn exits_are_last(
    alloc: Global,
    calls: &[ClientCall],
    order: &[usize],
) -> Result<bool, AllocError>
    requires { AreWithin (length calls.now) order.now }
    ensures { IfOk result (λ yes. IsTrue yes ↔ ExitsAreLast calls.now order.now) }
{
    let mut gone = IndexSet::new(alloc);
    for i in order {
        let call = &calls[*i];
        if gone.contains(&call.owner) {
            return Ok(false);
        }
        if call.is_last {
            gone.insert(call.owner)?;
        }
    }
    Ok(true)
}

/// Whether each call with a reply stands in the order, if its owner's exit does. The marks say which calls stand
/// there.
pub(crate) fn exits_are_whole(
    alloc: Global,
    calls: &[ClientCall],
    order: &[usize],
    marks: &[bool],
) -> Result<bool, AllocError>
    requires { AreMarks order.now (length calls.now) marks.now }
    ensures { IfOk result (λ yes. IsTrue yes ↔ ExitsAreWhole calls.now order.now) }
{
    let mut gone = IndexSet::new(alloc);
    for i in order {
        let call = &calls[*i];
        if call.is_last {
            gone.insert(call.owner)?;
        }
    }
    for (i, call) in calls.iter().enumerate() {
        if call.end.is_some() && gone.contains(&call.owner) && !marks[i] {
            return Ok(false);
        }
    }
    Ok(true)
}
