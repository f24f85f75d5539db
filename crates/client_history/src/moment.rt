//! The moments at which calls begin and end. A function here that gives a `Result` answers `AllocError` where a
//! request for memory was refused.
ghost use Rattle.std.specs.Prelude.{IfOk};
ghost use Rattle.client_history.specs.code.Moves.{AreBegins, AreEnds, AreOrdered};
ghost use Rattle.client_history.specs.code.OpenCalls.{AreOwnerCalls};

use crate::{ClientCall, OwnerCalls};
use std::alloc::{AllocError, Global};

/// A time at which a call, named by its index, begins or ends.
#[derive(Clone, Copy, Debug, PartialEq, Eq)]
pub(crate) struct Moment {
    pub time: u64,
    pub call: usize,
}

/// The begins of the calls, by time. An exit does not begin before the last call of its owner that has a reply.
pub(crate) fn begins_of(
    alloc: Global,
    calls: &[ClientCall],
    owners: &OwnerCalls,
) -> Result<Vec<Moment>, AllocError>
    requires { AreOwnerCalls calls.now owners.now }
    ensures { IfOk result (λ begins. AreOrdered calls.now → AreBegins calls.now begins.items) }
{
    let mut begins = Vec::new(alloc);
    for (index, call) in calls.iter().enumerate() {
        begins.push(Moment {
            time: owners.begin_of(call),
            call: index,
        })?;
    }
    begins.sort_by_key(|moment| moment.time)?;
    Ok(begins)
}

/// The ends of the calls that have a reply, by time.
pub(crate) fn ends_of(alloc: Global, calls: &[ClientCall]) -> Result<Vec<Moment>, AllocError>
    ensures { IfOk result (λ ends. AreEnds calls.now ends.items) }
{
    let mut ends = Vec::new(alloc);
    for (index, call) in calls.iter().enumerate() {
        if let Some(end) = call.end {
            ends.push(Moment {
                time: end,
                call: index,
            })?;
        }
    }
    ends.sort_by_key(|moment| moment.time)?;
    Ok(ends)
}
