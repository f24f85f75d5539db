//! The slots of a line, with an index from each call to its slot. A function here that gives a `Result` answers
//! `AllocError` where a request for memory was refused.
ghost use Rattle.std.specs.Prelude.{◌≡◌, ◌+◌, ◌<◌, ◌≤◌, ◌^◌, ◌++◌, ◌∷◌, [], List, map, find, length, None, Some, IfOk, IsSome};
ghost use Rattle.token_server.specs.rule.Requests.{is_of_call, requests_in, AreOfDistinctCalls};
ghost use Rattle.token_server.specs.code.Admissions.{unless};

use crate::token_queue::token_request::TokenRequest;
use indexmap::IndexMap;
use model::CallId;
use std::alloc::{AllocError, Global};
use std::marker::Model;

/// Slots in order, each of which holds a request or none. No two requests are of one call.
#[derive(Drop)]
pub struct Slots {
    slots: Vec<Option<TokenRequest>>,
    places: IndexMap<CallId, usize>,
    room: usize,
}

impl Model for Slots {
    ghost use Rattle.std.specs.Prelude.{◌+◌, ◌≤◌, length};
    ghost use Rattle.std.specs.Vec.{vec_capacity};
    ghost use Rattle.indexmap.specs.IndexMap.{spare};
    ghost use Rattle.token_server.specs.code.Admissions.{SlotParts, ArePlaced};

    ghost Value = { SlotParts };

    ghost view = { λ s. record { slots = s.slots.items; room = s.room } };

    ghost invariant = { λ s. ArePlaced s.slots.items s.places × (s.room ≤ spare s.places) × (length s.slots.items + s.room ≤ vec_capacity s.slots) };
}

impl Slots {
    /// No slots and no room.
    pub fn new(alloc: Global) -> Slots
        ensures { result ≡ record { slots = []; room = 0 } }
    {
        Slots {
            slots: Vec::new(alloc),
            places: IndexMap::new(alloc),
            room: 0,
        }
    }

    /// No slots, and room for that many requests.
    pub fn with_room(alloc: Global, room: usize) -> Result<Slots, AllocError>
        ensures { IfOk result (λ slots. slots ≡ record { slots = []; room = room }) }
    {
        Ok(Slots {
            slots: Vec::with_capacity(alloc, room)?,
            places: IndexMap::with_capacity(alloc, room)?,
            room,
        })
    }

    /// The allocator from which the slots take their memory.
    pub fn allocator(&self) -> Global {
        *self.slots.allocator()
    }

    /// The number of requests that may still come without asking for memory.
    pub fn room(&self) -> usize
        ensures { result ≡ self.now.room }
    {
        self.room
    }

    /// The number of requests.
    pub fn len(&self) -> usize
        ensures value { result ≡ length (requests_in self.now.slots) }
        ensures distinct { AreOfDistinctCalls (requests_in self.now.slots) }
        ensures fits { result + self.now.room < 2 ^ 64 }
    {
        let _capacity = self.slots.capacity(); // tells the proof that it is a number of the machine
        self.places.len()
    }

    /// The slots in order.
    pub fn as_slice(&self) -> &[Option<TokenRequest>]
        ensures { result.now ≡ self.now.slots }
    {
        self.slots.as_slice()
    }

    /// The request of the call, if a slot holds one. Looks the call up, without a walk.
    pub fn find(&self, call: CallId) -> Option<TokenRequest>
        ensures { result ≡ find (is_of_call call) (requests_in self.now.slots) }
    {
        match self.places.get(&call).copied() {
            None => None,
            Some(place) => self.slots[place],
        }
    }

    /// Appends a slot that holds the request. Takes no memory.
    pub fn push(&mut self, request: TokenRequest)
        requires room { 0 < self.old.room }
        requires new { find (is_of_call request.call) (requests_in self.old.slots) ≡ None }
        ensures slots { self.new.slots ≡ self.old.slots ++ Some request ∷ [] }
        ensures room { self.new.room + 1 ≡ self.old.room }
    {
        let place = self.slots.len();
        let Ok(_) = self.places.insert(request.call, place) else {
            unreachable!()
        };
        let Ok(()) = self.slots.push(Some(request)) else {
            unreachable!()
        };
        self.room -= 1;
    }

    /// Empties the slot of the call's request, if there is one. Looks the call up, without a walk. Takes no memory.
    pub fn take_out(&mut self, call: CallId)
        ensures slots { self.new.slots ≡ map (unless (is_of_call call)) self.old.slots }
        ensures room { self.new.room ≡ self.old.room }
    {
        let Some(place) = self.places.swap_remove(&call) else {
            return;
        };
        self.slots[place] = None;
    }
}
