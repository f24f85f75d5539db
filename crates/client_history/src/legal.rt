//! The test whether calls may follow one another in one table.
ghost use Rattle.std.specs.Prelude.{◌≡◌, IfOk, IsTrue, ◌↔◌, length};
ghost use Rattle.client_history.specs.rule.Explained.{AreWithin, IsLegal};

use crate::client_call::ClientCall;
use crate::follow::follow;
use lock_table::lock_table::LockTable;
use std::alloc::{AllocError, Global};

/// Whether the calls of the order may follow one another in one table, which has no lock at first.
///
/// # Errors
/// `AllocError` where a request for memory was refused.
pub(crate) fn is_legal(
    alloc: Global,
    calls: &[ClientCall],
    order: &[usize],
) -> Result<bool, AllocError>
    requires { AreWithin (length calls.now) order.now }
    ensures { IfOk result (λ yes. IsTrue yes ↔ IsLegal calls.now order.now) }
{
    let mut table = LockTable::new(alloc, usize::MAX);
    for i in order {
        let call = &calls[*i];
        if !follow(&mut table, call.owner, &call.act)? {
            return Ok(false);
        }
    }
    Ok(true)
}
