//! The test whether calls stand behind those that they follow. A function here that gives a `Result` answers
//! `AllocError` where a request for memory was refused.
ghost use Rattle.std.specs.Prelude.{◌≡◌, ℕ, true, false, IfOk, IsTrue, ◌↔◌, Some, length, slice_index_or};
ghost use Rattle.client_history.specs.rule.Explained.{AreWithin, AreBehindTheirFirst};

use crate::client_call::ClientCall;
use std::alloc::{AllocError, Global};

/// Whether each call of the order that follows another stands behind that one.
pub(crate) fn are_behind_their_first(
    alloc: Global,
    calls: &[ClientCall],
    order: &[usize],
) -> Result<bool, AllocError>
    requires { AreWithin (length calls.now) order.now }
    ensures { IfOk result (λ yes. IsTrue yes ↔ AreBehindTheirFirst calls.now order.now) }
{
    let mut marks = Vec::from_elem(alloc, false, calls.len())?;
    for i in order {
        let call = &calls[*i];
        if !is_first_marked(call, &marks) {
            return Ok(false);
        }
        marks[*i] = true;
    }
    Ok(true)
}

// Whether the call that this one follows, if there is one, is marked.
fn is_first_marked(call: &ClientCall, marks: &[bool]) -> bool
    ensures { IsTrue result ↔ ((first : ℕ) → call.now.follows ≡ Some first → slice_index_or marks.now first false ≡ true) }
{
    let Some(first) = call.follows else {
        return true;
    };
    match marks.get(first) {
        Some(mark) => *mark,
        None => false,
    }
}
