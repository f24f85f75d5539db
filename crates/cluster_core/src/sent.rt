//! The messages that were sent in a run, in order.
ghost use Rattle.std.specs.Prelude.{◌≡◌, [], ◌∷◌, ◌++◌, IfOk, IfSome, OnOk, OnErr};
ghost use Rattle.messages.specs.rule.Messages.{is_among};
ghost use Rattle.cluster_core.specs.code.Changes.{Knows};

use crate::sent_index::{SentIndex, is_this};
use messages::{Message, SharedMessage};
use std::alloc::{AllocError, Global};
use std::marker::Model;

/// Every message sent, in order of sending; each of several equal ones is listed. An index of them is built when a
/// message is first looked up by content; a caller that names messages by their indexes needs none.
#[derive(Drop)]
pub struct Sent {
    messages: Vec<SharedMessage>,
    index: Option<SentIndex>,
}

impl Model for Sent {
    ghost use Rattle.std.specs.Prelude.{List, IfSome};
    ghost use Rattle.messages.specs.declared.message.Message.{Message};
    ghost use Rattle.cluster_core.specs.code.Changes.{Knows};

    ghost Value = { List Message };

    ghost view = { λ s. s.messages.items };

    ghost invariant = { λ s. IfSome s.index (λ index. Knows index.places index.others.items s.messages.items) };
}

impl Sent {
    /// No message was sent.
    pub fn new(alloc: Global) -> Self
        ensures { result ≡ [] }
    {
        Sent {
            messages: Vec::new(alloc),
            index: None,
        }
    }

    /// Whether an equal message was sent. Without an index this walks the list.
    pub fn contains(&self, message: &Message) -> bool
        ensures { result ≡ is_among self.now message.now }
    {
        match &self.index {
            Some(index) => index.has(self.messages.as_slice(), message),
            None => is_among(self.messages.as_slice(), message),
        }
    }

    /// Builds an index of the messages, if there is none. It is kept from then on, also for messages sent later.
    ///
    /// # Errors
    /// `AllocError` where a request for memory was refused.
    pub(crate) fn keep_index(&mut self, alloc: Global) -> Result<(), AllocError>
        ensures { self.new ≡ self.old }
    {
        if self.index.is_none() {
            self.index = Some(index_of(alloc, self.messages.as_slice())?);
        }
        Ok(())
    }

    /// The messages in order of sending.
    pub fn as_slice(&self) -> &[SharedMessage]
        ensures { result.now ≡ self.now }
    {
        self.messages.as_slice()
    }

    /// The equal message that was sent, so that one copy is kept; or `message` itself, if the index does not find one
    /// at once. Either is shared.
    ///
    /// # Errors
    /// `AllocError` where the message is shared as often as can be counted.
    pub fn as_sent(&self, message: &SharedMessage) -> Result<SharedMessage, AllocError>
        ensures { IfOk result (λ shared. shared ≡ message.now) }
    {
        match self.find(message.get()) {
            Some(found) => found.share(),
            None => message.share(),
        }
    }

    // The equal message that was sent, if the index finds one at once.
    fn find(&self, message: &Message) -> Option<&SharedMessage>
        ensures { IfSome result (λ found. found.now ≡ message.now) }
    {
        self.index.as_ref()?.find(self.messages.as_slice(), message)
    }

    /// Appends these messages, shared, in their order.
    ///
    /// # Errors
    /// `AllocError` where a request for memory was refused, or a message is shared as often as can be counted. The
    /// list is then as it was.
    pub fn extend(&mut self, messages: &[SharedMessage]) -> Result<(), AllocError>
        ensures ok { OnOk result (self.new ≡ self.old ++ messages.now) }
        ensures err { OnErr result (self.new ≡ self.old) }
    {
        match &mut self.index {
            Some(index) => add_noted(&mut self.messages, index, messages),
            None => add_shares(&mut self.messages, messages),
        }
    }
}

// Whether an equal message is in the list.
fn is_among(sent: &[SharedMessage], message: &Message) -> bool
    ensures { result ≡ is_among sent.now message.now }
{
    sent.iter().any(|other| is_this(message, other))
}

// An index of all messages in the list.
fn index_of(alloc: Global, sent: &[SharedMessage]) -> Result<SentIndex, AllocError>
    ensures { IfOk result (λ index. Knows index.places index.others.items sent.now) }
{
    let mut index = SentIndex::new(alloc);
    index.reserve(sent.len())?;
    index.note_from(sent, 0);
    Ok(index)
}

// Appends the messages, shared, to the list and to the index; all of them, or none on an error.
fn add_noted(
    sent: &mut Vec<SharedMessage>,
    index: &mut SentIndex,
    messages: &[SharedMessage],
) -> Result<(), AllocError>
    ensures ok { OnOk result (sent.new.items ≡ sent.old.items ++ messages.now) }
    ensures err { OnErr result (sent.new.items ≡ sent.old.items) }
    ensures knows { Knows index.old.places index.old.others.items sent.old.items → Knows index.new.places index.new.others.items sent.new.items }
{
    index.reserve(messages.len())?;
    let start = sent.len();
    add_shares(sent, messages)?;
    index.note_from(sent.as_slice(), start);
    Ok(())
}

// Appends the messages, shared, to the list; all of them, or none on an error.
fn add_shares(sent: &mut Vec<SharedMessage>, messages: &[SharedMessage]) -> Result<(), AllocError>
    ensures ok { OnOk result (sent.new.items ≡ sent.old.items ++ messages.now) }
    ensures err { OnErr result (sent.new.items ≡ sent.old.items) }
{
    let start = sent.len();
    for message in messages {
        let added = add_share(sent, message);
        if added.is_err() {
            sent.truncate(start);
            return added;
        }
    }
    Ok(())
}

// Appends the message, shared, to the list, or changes nothing on an error.
fn add_share(sent: &mut Vec<SharedMessage>, message: &SharedMessage) -> Result<(), AllocError>
    ensures ok { OnOk result (sent.new.items ≡ sent.old.items ++ message.now ∷ []) }
    ensures err { OnErr result (sent.new.items ≡ sent.old.items) }
{
    sent.push(message.share()?)?;
    Ok(())
}
