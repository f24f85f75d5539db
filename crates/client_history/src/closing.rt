//! The calls that are over when a call ends. A function here that gives a `Result` answers `AllocError` where a
//! request for memory was refused.
ghost use Rattle.std.specs.Prelude.{◌≡◌, IfOk, IsTrue, length, ◌↔◌};
ghost use Rattle.client_history.specs.code.Search.{IsOverWith, AreOver, AreWithout, AreForgotten};

use crate::{OpenClientCall, SearchFront};
use std::alloc::{AllocError, Global};

// Whether the open call is over when the call `end` ends: it is that call, or it has no reply and that call is its
// owner's exit.
fn is_over_with(end: usize, call: &OpenClientCall) -> bool
    ensures { IsTrue result ↔ IsOverWith end call.now }
{
    call.index == end || (call.exit == Some(end) && call.call.end.is_none())
}

/// The indexes of the open calls that are over when the call `end` ends.
pub(crate) fn over_of(
    alloc: Global,
    open: &[OpenClientCall],
    end: usize,
) -> Result<Vec<usize>, AllocError>
    ensures { IfOk result (λ over. AreOver «open».now end over.items) }
{
    let mut over = Vec::new(alloc);
    for call in open {
        if is_over_with(end, call) {
            over.push(call.index)?;
        }
    }
    Ok(over)
}

/// The open calls without those that are over.
pub(crate) fn without(
    alloc: Global,
    open: &[OpenClientCall],
    over: &[usize],
) -> Result<Vec<OpenClientCall>, AllocError>
    ensures { IfOk result (λ left. AreWithout «open».now over.now left.items) }
{
    let mut left = Vec::new(alloc);
    for call in open {
        if !over.contains(&call.index) {
            left.push(*call)?;
        }
    }
    Ok(left)
}

/// Drops the calls that are over from each front.
pub(crate) fn forget_each(fronts: &mut [SearchFront], over: &[usize])
    ensures len { length fronts.new ≡ length fronts.old }
    ensures forgot { AreForgotten over.now fronts.old fronts.new }
{
    for front in fronts.iter_mut() {
        front.forget(over);
    }
}
