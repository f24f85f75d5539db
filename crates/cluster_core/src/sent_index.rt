//! An index of the messages that were sent, by fingerprint.
ghost use Rattle.std.specs.Prelude.{◌≡◌, ◌+◌, ◌<◌, ◌≤◌, [], nat_eq, length, Some, IfSome, OnOk};
ghost use Rattle.std.specs.HashMap.{get, spare as spare_places};
ghost use Rattle.std.specs.Vec.{vec_capacity};
ghost use Rattle.messages.specs.rule.Messages.{same_message};
ghost use Rattle.cluster_core.specs.code.Changes.{fingerprint, has, stands_at, stands_among, KnowsFirst, SaysTheSame};

use messages::{Message, SharedMessage};
use std::alloc::{AllocError, Global};
use std::collections::HashMap;
use std::hash::{FoldHasher, Hash, Hasher};

/// An index of the messages sent: from each fingerprint to the place of one message in the order of sending, from 0,
/// and a list of the places of further messages with a fingerprint that another has.
#[derive(Drop)]
pub(crate) struct SentIndex {
    places: HashMap<u32, u32>,
    others: Vec<usize>,
}

// The fingerprint of a message: 32 bits of its hash.
fn fingerprint(message: &Message) -> u32
    ensures { result ≡ fingerprint message.now }
{
    let mut hasher = FoldHasher::default();
    message.hash(&mut hasher);
    (hasher.finish() % 4_294_967_296) as u32
}

// Whether both messages are equal.
pub(crate) fn is_this(message: &Message, other: &SharedMessage) -> bool
    ensures { result ≡ same_message message.now other.now }
{
    other.same(message)
}

// Whether the message at that place is equal to this one.
fn stands_at(sent: &[SharedMessage], message: &Message, place: usize) -> bool
    ensures { result ≡ stands_at sent.now message.now (Some place) }
{
    match sent.get(place) {
        Some(other) => is_this(message, other),
        None => false,
    }
}

// Whether the message at one of these places is equal to this one.
fn stands_among(sent: &[SharedMessage], message: &Message, places: &[usize]) -> bool
    ensures { result ≡ stands_among sent.now message.now places.now }
{
    places.iter().any(|place| stands_at(sent, message, *place))
}

impl SentIndex {
    /// An index of no messages.
    pub(crate) fn new(alloc: Global) -> SentIndex
        ensures { KnowsFirst result.places result.others.items [] 0 }
    {
        SentIndex {
            places: HashMap::new(alloc),
            others: Vec::new(alloc),
        }
    }

    /// Whether the index has a message equal to this one. `sent` are the messages by their places.
    pub(crate) fn has(&self, sent: &[SharedMessage], message: &Message) -> bool
        ensures { result ≡ has self.now.places self.now.others.items sent.now message.now }
    {
        self.is_placed(sent, message) || stands_among(sent, message, self.others.as_slice())
    }

    // Whether the message at the place for this one's fingerprint is equal to it.
    fn is_placed(&self, sent: &[SharedMessage], message: &Message) -> bool
        ensures { result ≡ stands_at sent.now message.now (get nat_eq self.now.places (fingerprint message.now)) }
    {
        match self.places.get(&fingerprint(message)) {
            Some(place) => stands_at(sent, message, *place as usize),
            None => false,
        }
    }

    /// The message equal to this one, if it is at the place for its fingerprint.
    pub(crate) fn find<'a>(
        &self,
        sent: &'a [SharedMessage],
        message: &Message,
    ) -> Option<&'a SharedMessage>
        ensures { IfSome result (λ found. found.now ≡ message.now) }
    {
        let place = *self.places.get(&fingerprint(message))?;
        let found = sent.get(place as usize)?;
        if found.same(message) {
            Some(found)
        } else {
            None
        }
    }

    /// Makes room for that many more messages.
    ///
    /// # Errors
    /// `AllocError` where a request for memory was refused.
    pub(crate) fn reserve(&mut self, additional: usize) -> Result<(), AllocError>
        ensures same { SaysTheSame self.old.places self.old.others.items self.new.places self.new.others.items }
        ensures places { OnOk result (additional ≤ spare_places self.new.places) }
        ensures others { OnOk result (length self.new.others.items + additional ≤ vec_capacity self.new.others) }
    {
        self.places.reserve(additional)?;
        self.others.reserve(additional)
    }

    // Adds the message at that place. There is room for it.
    fn note(&mut self, sent: &[SharedMessage], place: usize)
        requires within { place < length sent.now }
        requires places { 1 ≤ spare_places self.old.places }
        requires others { length self.old.others.items < vec_capacity self.old.others }
        ensures knows { KnowsFirst self.old.places self.old.others.items sent.now place → KnowsFirst self.new.places self.new.others.items sent.now (place + 1) }
        ensures room_at_places { spare_places self.old.places ≤ spare_places self.new.places + 1 }
        ensures room_for_others { length self.new.others.items + vec_capacity self.old.others ≤ length self.old.others.items + 1 + vec_capacity self.new.others }
    {
        let message = sent[place].get();
        let print = fingerprint(message);
        match self.places.get(&print).copied() {
            Some(first) if stands_at(sent, message, first as usize) => {}
            None if place < 4_294_967_296 => {
                let Ok(_) = self.places.insert(print, place as u32) else {
                    unreachable!()
                };
            }
            _ => self.note_other(sent, place),
        }
    }

    // Adds the message at that place, whose fingerprint another message has. There is room for it.
    fn note_other(&mut self, sent: &[SharedMessage], place: usize)
        requires within { place < length sent.now }
        requires others { length self.old.others.items < vec_capacity self.old.others }
        ensures knows { KnowsFirst self.old.places self.old.others.items sent.now place → KnowsFirst self.new.places self.new.others.items sent.now (place + 1) }
        ensures places { self.new.places ≡ self.old.places }
        ensures room { length self.new.others.items + vec_capacity self.old.others ≤ length self.old.others.items + 1 + vec_capacity self.new.others }
    {
        if !stands_among(sent, sent[place].get(), self.others.as_slice()) {
            self.others.push_reserved(place);
        }
    }

    /// Adds the messages from that place on. There is room for them.
    pub(crate) fn note_from(&mut self, sent: &[SharedMessage], start: usize)
        requires places { length sent.now ≤ start + spare_places self.old.places }
        requires others { length sent.now + length self.old.others.items ≤ start + vec_capacity self.old.others }
        requires within { start ≤ length sent.now }
        ensures { KnowsFirst self.old.places self.old.others.items sent.now start → KnowsFirst self.new.places self.new.others.items sent.now (length sent.now) }
    {
        for place in start..sent.len() {
            self.note(sent, place);
        }
    }
}
