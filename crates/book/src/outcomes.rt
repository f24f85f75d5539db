//! Copies of outcomes.
ghost use Rattle.std.specs.Prelude.{◌≡◌, IfOk};

use messages::{Outcome, Sends, SharedMessage};
use std::alloc::{AllocError, Global};

// A list of these messages, each of which is shared with the other.
fn sends_of(alloc: Global, messages: &[SharedMessage]) -> Result<Sends, AllocError>
    ensures { IfOk result (λ sends. sends ≡ messages.now) }
{
    let mut sends = Sends::nothing();
    for message in messages {
        sends.add(alloc, message.share()?)?;
    }
    Ok(sends)
}

/// An equal outcome. Its messages are shared with the first.
///
/// # Errors
/// `AllocError` where a request for memory was refused.
pub(crate) fn copy_of(alloc: Global, outcome: &Outcome) -> Result<Outcome, AllocError>
    ensures { IfOk result (λ copy. copy ≡ outcome.now) }
{
    Ok(Outcome {
        call: outcome.call,
        reply: outcome.reply,
        sends: sends_of(alloc, outcome.sends.as_slice())?,
    })
}
