//! The replies to calls whose locks are refused.
ghost use Rattle.std.specs.Prelude.{◌≡◌, MatchResult};

use lock_table::error::LockError;
use model::Reply;
use std::alloc::AllocError;

/// The reply that says why the locks are refused.
///
/// # Errors
/// `AllocError` for `NoMemory`, for which there is no reply.
pub fn lock_reply(error: LockError) -> Result<Reply, AllocError>
    ensures { MatchResult result (λ reply. (error ≡ LockError.NoLocks) × (reply ≡ Reply.NoLocks)) (λ _. error ≡ LockError.NoMemory) }
{
    match error {
        LockError::NoLocks => Ok(Reply::NoLocks),
        LockError::NoMemory => Err(AllocError),
    }
}
