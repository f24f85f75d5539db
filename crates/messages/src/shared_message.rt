//! Messages that are stored once, with a count of their owners.
ghost use Rattle.std.specs.Prelude.{◌≡◌, ◌↔◌, IsTrue, IfOk};

use crate::message::Message;
use std::alloc::{AllocError, Global};
use std::marker::Model;
use std::sync::Arc;

/// A message that is stored once for all its owners: the list of messages that were sent, the entry
/// that sends it and the entries that deliver it. Contracts see the message.
#[derive(Drop)]
pub struct SharedMessage {
    message: Arc<Message, Global>,
}

impl Model for SharedMessage {
    ghost use Rattle.messages.specs.declared.message.Message.{Message};

    ghost Value = { Message };

    ghost view = { λ s. s.message.value };
}

impl Clone for SharedMessage {
    ghost use Rattle.std.specs.Prelude.{◌≡◌};

    ghost is_clone = { λ a b. b ≡ a };

    fn clone(&self) -> Result<SharedMessage, AllocError> {
        self.share()
    }
}

impl PartialEq for SharedMessage {
    ghost use Rattle.messages.specs.contracts.message.MessagePartialEq.TheImpl.Laws.{laws-law};

    ghost eq = { ⟦<Message as PartialEq>⟧.eq };

    ghost laws = { laws-law };

    fn eq(&self, other: &SharedMessage) -> bool {
        self.get() == other.get()
    }
}

impl Eq for SharedMessage {
    ghost use Rattle.messages.specs.contracts.message.MessageEq.TheImpl.Laws.{laws-law};

    ghost laws = { laws-law };
}

impl SharedMessage {
    /// The message, with one owner.
    ///
    /// # Errors
    /// `AllocError` where a request for memory was refused; the message is dropped.
    pub fn new(alloc: Global, message: Message) -> Result<SharedMessage, AllocError>
        ensures { IfOk result (λ shared. shared ≡ message) }
    {
        Ok(SharedMessage {
            message: Arc::new(alloc, message)?,
        })
    }

    /// The message.
    pub fn get(&self) -> &Message
        ensures { result.now ≡ self.now }
    {
        &*self.message
    }

    /// The same message, with one more owner. It takes no memory.
    ///
    /// # Errors
    /// `AllocError` where the message has as many owners as can be counted.
    pub fn share(&self) -> Result<SharedMessage, AllocError>
        ensures { IfOk result (λ shared. shared ≡ self.now) }
    {
        Ok(SharedMessage {
            message: Arc::try_clone(&self.message)?,
        })
    }

    /// Whether the shared message is equal to the other one.
    pub fn same(&self, other: &Message) -> bool
        ensures { IsTrue result ↔ (self.now ≡ other.now) }
    {
        self.get().same(other)
    }
}
