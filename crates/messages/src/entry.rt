//! The entries of the journal: an event with its reply and the messages that it sends.
ghost use Rattle.std.specs.Prelude.{◌≡◌, ◌↔◌, IsTrue};
ghost use Rattle.messages.specs.rule.Entries.{NamesItsCall, NamesItsIncarnation, entry_of, kept_name};

use crate::event::{Event, NodeInput};
use crate::kept_reply::KeptReply;
use crate::outcome::Outcome;
use crate::sends::Sends;
use crate::shared_message::SharedMessage;
use model::{CallId, Reply};
use std::marker::Model;

/// An entry of the journal: an event and its outcome. A call has `call`, its name, which is of the
/// call's node; no other event has one. `incarnation` is the live one of the node for an interrupt,
/// a retry or a declaration, the new one for a restart, and the epoch for a failure or a start of a
/// server (each at least 1); it is 0 for every other event.
#[derive(Drop)]
pub struct Entry {
    event: Event,
    // The incarnation in the call's name, where the event is a call, else the one that the event
    // names, or 0.
    incarnation: u16,
    // The number in the call's name, where the event is a call, else 0.
    number: u32,
    reply: KeptReply,
    sends: Sends,
}

const _: () = prove!(size_of::<Entry>() == 88);

impl Model for Entry {
    ghost use Rattle.messages.specs.rule.Entries.{EntryFields, kept, IsKept};

    ghost Value = { EntryFields };

    ghost view = { λ e. kept e.event e.incarnation e.number e.reply e.sends };

    ghost invariant = { λ e. IsKept e.event e.incarnation e.number };
}

// The incarnation and the number that an entry keeps: the ones of the call's name, or the
// incarnation that the event names.
fn kept_name(incarnation: u16, call: Option<CallId>) -> (u16, u32)
    ensures { result ≡ kept_name incarnation call }
{
    match call {
        Some(call) => (call.incarnation, call.number),
        None => (incarnation, 0),
    }
}

impl Entry {
    /// The entry of an event that names no incarnation, with its outcome; `reply` is the outcome's
    /// reply as the entry keeps it.
    pub fn new(event: Event, outcome: Outcome, reply: KeptReply) -> Entry
        requires named { NamesItsCall event outcome.call }
        requires no_incarnation { NamesItsIncarnation event 0 }
        requires reply { reply ≡ outcome.reply }
        ensures { result ≡ entry_of event 0 outcome }
    {
        Entry::at_node(event, 0, outcome, reply)
    }

    /// The entry of an event with its outcome, and the incarnation or epoch that it names, from 1,
    /// else 0; `reply` is the outcome's reply as the entry keeps it.
    #[inline(always)]
    pub fn at_node(event: Event, incarnation: u16, outcome: Outcome, reply: KeptReply) -> Entry
        requires named { NamesItsCall event outcome.call }
        requires incarnated { NamesItsIncarnation event incarnation }
        requires reply { reply ≡ outcome.reply }
        ensures { result ≡ entry_of event incarnation outcome }
    {
        let (incarnation, number) = kept_name(incarnation, outcome.call);
        Entry {
            event,
            incarnation,
            number,
            reply,
            sends: outcome.sends.fitted(),
        }
    }

    pub fn event(&self) -> &Event
        ensures { result.now ≡ self.now.event }
    {
        &self.event
    }

    /// The incarnation or epoch that the event names, at least 1; 0 where it names none.
    pub fn incarnation(&self) -> u16
        ensures value { result ≡ self.now.incarnation }
        ensures incarnated { NamesItsIncarnation self.now.event result }
    {
        match self.event {
            Event::AtNode(_, NodeInput::Call { .. }) => 0,
            _ => self.incarnation,
        }
    }

    /// The name of the call, where the event is a call.
    pub fn call(&self) -> Option<CallId>
        ensures value { result ≡ self.now.call }
        ensures named { NamesItsCall self.now.event result }
    {
        match self.event {
            Event::AtNode(node, NodeInput::Call { .. }) => Some(CallId {
                node,
                incarnation: self.incarnation,
                number: self.number,
            }),
            _ => None,
        }
    }

    /// The call that the event answers, and its reply.
    pub fn reply(&self) -> Option<(CallId, Reply)>
        ensures { result ≡ self.now.reply }
    {
        self.reply.get()
    }

    /// The messages that the event sends, in the order in which the rules name them.
    pub fn sends(&self) -> &[SharedMessage]
        ensures { result.now ≡ self.now.sends }
    {
        self.sends.as_slice()
    }

    /// Whether both entries are equal.
    pub fn same(&self, other: &Entry) -> bool
        ensures { IsTrue result ↔ (self.now ≡ other.now) }
    {
        if !self.event.same(&other.event) || self.incarnation() != other.incarnation() {
            return false;
        }
        if !same_names(&self.call(), &other.call())
            || !same_replies(&self.reply(), &other.reply())
        {
            return false;
        }
        same_messages(self.sends(), other.sends())
    }
}

// Whether both are lists of equal messages in the same order.
fn same_messages(one: &[SharedMessage], other: &[SharedMessage]) -> bool
    ensures { IsTrue result ↔ (one.now ≡ other.now) }
{
    one == other
}

// Whether both are the same call's name, or none.
fn same_names(one: &Option<CallId>, other: &Option<CallId>) -> bool
    ensures { IsTrue result ↔ (one.now ≡ other.now) }
{
    one == other
}

// Whether both are the same reply to the same call, or none.
fn same_replies(one: &Option<(CallId, Reply)>, other: &Option<(CallId, Reply)>) -> bool
    ensures { IsTrue result ↔ (one.now ≡ other.now) }
{
    one == other
}
