//! The messages that a step sends.
//!
//! Each function here that can fail errs with `AllocError`, where a request for memory was refused.
ghost use Rattle.std.specs.Prelude.{◌≡◌, ◌↔◌, IsTrue, [], ◌∷◌, ◌++◌, IfOk, OnOk, length};
ghost use Rattle.messages.specs.code.KeptParts.{messages_of};

use crate::items::Items;
use crate::message::Message;
use crate::shared_message::SharedMessage;
use std::alloc::{AllocError, Global};
use std::array;
use std::marker::Model;

// Most steps send no message, or one.
#[derive(Drop)]
enum CompactSends {
    Nothing,
    One(SharedMessage),
    Many(Box<Items<SharedMessage>>),
}

/// The messages that a step sends, in the order in which the rules name them, each stored once for
/// the step's outcome, its entry and the list of those sent. Contracts see their list.
#[derive(Drop)]
pub struct Sends {
    kept: CompactSends,
}

impl Model for Sends {
    ghost use Rattle.std.specs.Prelude.{List};
    ghost use Rattle.messages.specs.declared.message.Message.{Message};
    ghost use Rattle.messages.specs.code.KeptParts.{messages_of};

    ghost Value = { List Message };

    ghost view = { λ s. messages_of s.kept };
}

// The two messages, in this order.
fn pair(
    alloc: Global,
    first: SharedMessage,
    second: SharedMessage,
) -> Result<CompactSends, AllocError>
    ensures { IfOk result (λ kept. messages_of kept ≡ first ∷ second ∷ []) }
{
    let mut items = Items::one(alloc, first)?;
    items.push(second)?;
    Ok(CompactSends::Many(Box::new(alloc, items)?))
}

// These messages, and one more behind them.
fn more(alloc: Global, kept: CompactSends, last: SharedMessage) -> Result<CompactSends, AllocError>
    ensures { IfOk result (λ more. messages_of more ≡ messages_of kept ++ last ∷ []) }
{
    match kept {
        CompactSends::Nothing => Ok(CompactSends::One(last)),
        CompactSends::One(first) => pair(alloc, first, last),
        CompactSends::Many(items) => {
            let mut items = items;
            items.push(last)?;
            Ok(CompactSends::Many(items))
        }
    }
}

impl Sends {
    /// No message. It takes no memory.
    pub fn nothing() -> Sends
        ensures { result ≡ [] }
    {
        Sends {
            kept: CompactSends::Nothing,
        }
    }

    /// The one message.
    pub fn one(alloc: Global, message: Message) -> Result<Sends, AllocError>
        ensures { IfOk result (λ sends. sends ≡ message ∷ []) }
    {
        Ok(Sends {
            kept: CompactSends::One(SharedMessage::new(alloc, message)?),
        })
    }

    /// Adds a message that is stored already behind the others. On an error all messages are dropped.
    pub fn add(&mut self, alloc: Global, message: SharedMessage) -> Result<(), AllocError>
        ensures { OnOk result (self.new ≡ self.old ++ message ∷ []) }
    {
        let kept = std::mem::replace(&mut self.kept, CompactSends::Nothing);
        self.kept = more(alloc, kept, message)?;
        Ok(())
    }

    /// Adds a message behind the others. On an error all messages are dropped.
    pub fn push(&mut self, alloc: Global, message: Message) -> Result<(), AllocError>
        ensures { OnOk result (self.new ≡ self.old ++ message ∷ []) }
    {
        self.add(alloc, SharedMessage::new(alloc, message)?)
    }

    /// Adds the messages of the other list behind those here, in their order. On an error all
    /// messages here are dropped.
    pub fn append(&mut self, alloc: Global, others: Sends) -> Result<(), AllocError>
        ensures { OnOk result (self.new ≡ self.old ++ others) }
    {
        if self.is_empty() {
            *self = others;
            return Ok(());
        }
        for message in others.as_slice() {
            self.add(alloc, message.share()?)?;
        }
        Ok(())
    }

    /// The messages with no more memory than they need, where the system can shrink it.
    pub fn fitted(self) -> Sends
        ensures { result ≡ self }
    {
        match self.kept {
            CompactSends::Many(items) => {
                let mut items = items;
                items.fit();
                Sends {
                    kept: CompactSends::Many(items),
                }
            }
            kept => Sends { kept },
        }
    }

    /// The number of messages.
    pub fn len(&self) -> usize
        ensures { result ≡ length self.now }
    {
        self.as_slice().len()
    }

    /// Whether there is no message.
    pub fn is_empty(&self) -> bool
        ensures { IsTrue result ↔ (self.now ≡ []) }
    {
        self.as_slice().is_empty()
    }

    /// The messages, in the order in which the rules name them.
    pub fn as_slice(&self) -> &[SharedMessage]
        ensures { result.now ≡ self.now }
    {
        match &self.kept {
            CompactSends::Nothing => &[],
            CompactSends::One(message) => array::from_ref(message),
            CompactSends::Many(items) => items.as_slice(),
        }
    }
}
