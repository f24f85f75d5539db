//! What lies in an inbox.
ghost use Rattle.std.specs.Prelude.{IfOk};
ghost use Rattle.messages.specs.declared.version.Version.TheVariants.{Second};
ghost use Rattle.texts.specs.rule.Reads.{Reads};
ghost use Rattle.message_text.specs.rule.Texts.{IsServedMessage, message_text};

use message_text::message_of;
use messages::{Message, Version};
use std::alloc::{AllocError, Global};

/// What a node or a token server reads.
#[derive(Drop)]
pub enum Letter<I> {
    /// An input of its own: a call of a process of the node, or an incarnation that was declared failed.
    Input(I),
    /// The line of a message that came.
    Line(String),
    /// A tick of the clock went by.
    Tick,
}

/// The message that the line writes, if it is one.
///
/// # Errors
/// `AllocError` where a request for memory was refused.
pub fn message_in(alloc: Global, line: &str) -> Result<Option<Message>, AllocError>
    ensures { IfOk result (λ found. Reads (message_text Second) (IsServedMessage Second) line.now found) }
{
    match message_of(Version::Second, line) {
        Some(written) => Ok(Some(written.message(alloc)?)),
        None => Ok(None),
    }
}
