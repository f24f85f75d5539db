//! A line: requests in the order in which they are to be served. A function here that gives a `Result` answers
//! `AllocError` where a request for memory was refused.
ghost use Rattle.std.specs.Prelude.{◌≡◌, ◌↔◌, ℕ, ◌+◌, ◌-◌, ◌<◌, ◌≤◌, ◌^◌, ◌++◌, ◌∷◌, [], not, filter, find, drop, length, slice_get, None, IfOk, IsTrue};
ghost use Rattle.token_server.specs.rule.Requests.{is_of_call, requests_in, AreOfDistinctCalls};
ghost use Rattle.token_server.specs.code.Edits.{without, HasRoom};

use crate::token_queue::slots::Slots;
use crate::token_queue::token_request::TokenRequest;
use crate::token_queue::walk::{first_from, same_requests};
use model::CallId;
use std::alloc::{AllocError, Global};
use std::marker::Model;

// A line that `spare_for` makes has at least this much room, so that few are made where few requests wait.
const LEAST_ROOM: usize = 16;

/// Requests in order, each found by its call. No two are of one call. Only functions that give a `Result` take
/// memory: `push` and `append` need room that is there already.
#[derive(Drop)]
pub struct Line {
    slots: Slots,
    front: usize,
}

impl Model for Line {
    ghost use Rattle.token_server.specs.rule.Requests.{LineParts, requests_in};
    ghost use Rattle.token_server.specs.code.Admissions.{IsFront};

    ghost Value = { LineParts };

    ghost view = { λ l. record { requests = requests_in l.slots.slots; room = l.slots.room } };

    ghost invariant = { λ l. IsFront l.slots.slots l.front };
}

impl Line {
    /// An empty line without room.
    pub fn new(alloc: Global) -> Line
        ensures { result ≡ record { requests = []; room = 0 } }
    {
        Line {
            slots: Slots::new(alloc),
            front: 0,
        }
    }

    /// An empty line with room for that many requests.
    pub fn with_room(alloc: Global, room: usize) -> Result<Line, AllocError>
        ensures { IfOk result (λ line. line ≡ record { requests = []; room = room }) }
    {
        Ok(Line {
            slots: Slots::with_room(alloc, room)?,
            front: 0,
        })
    }

    /// The allocator from which the line takes its memory.
    pub fn allocator(&self) -> Global {
        self.slots.allocator()
    }

    /// The number of requests. No two are of one call.
    pub fn len(&self) -> usize
        ensures value { result ≡ length self.now.requests }
        ensures distinct { AreOfDistinctCalls self.now.requests }
        ensures fits { result + self.now.room < 2 ^ 64 }
    {
        self.slots.len()
    }

    /// The number of requests that may still come without asking for memory.
    pub fn room(&self) -> usize
        ensures { result ≡ self.now.room }
    {
        self.slots.room()
    }

    /// The slots in order, from the first request on. Each slot holds a request or none.
    pub fn slots(&self) -> &[Option<TokenRequest>]
        ensures { requests_in result.now ≡ self.now.requests }
    {
        &self.slots.as_slice()[self.front..]
    }

    /// The request of the call, if the line has one. Looks the call up, without a walk.
    pub fn find(&self, call: CallId) -> Option<TokenRequest>
        ensures { result ≡ find (is_of_call call) self.now.requests }
    {
        self.slots.find(call)
    }

    /// The first request, if the line has one.
    pub fn first(&self) -> Option<TokenRequest>
        ensures { result ≡ slice_get self.now.requests 0 }
    {
        let slots = self.slots.as_slice();
        if self.front == slots.len() {
            return None;
        }
        slots[self.front]
    }

    /// Whether both lines hold equal requests in equal order. Walks both.
    pub fn same(&self, other: &Line) -> bool
        ensures { IsTrue result ↔ (self.now.requests ≡ other.now.requests) }
    {
        same_requests(self.slots(), other.slots())
    }

    /// Appends the request. The line has none of its call. Takes no memory.
    pub fn push(&mut self, request: TokenRequest)
        requires room { 0 < self.old.room }
        requires new { find (is_of_call request.call) self.old.requests ≡ None }
        ensures requests { self.new.requests ≡ self.old.requests ++ request ∷ [] }
        ensures room { self.new.room + 1 ≡ self.old.room }
    {
        self.slots.push(request);
    }

    /// Drops the request of the call, if there is one. Looks the call up, without a walk. The others keep their
    /// order. Takes no memory.
    pub fn take_out(&mut self, call: CallId)
        ensures requests { self.new.requests ≡ filter (λ r. not (is_of_call call r)) self.old.requests }
        ensures room { self.new.room ≡ self.old.room }
    {
        self.slots.take_out(call);
        self.front = first_from(self.slots.as_slice(), self.front);
    }

    /// Takes the first request out, if there is one. The others keep their order. Takes no memory.
    pub fn take_first(&mut self) -> Option<TokenRequest>
        ensures first { result ≡ slice_get self.old.requests 0 }
        ensures requests { self.new.requests ≡ drop 1 self.old.requests }
        ensures room { self.new.room ≡ self.old.room }
    {
        let _count = self.len(); // tells the proof that no two are of one call
        match self.first() {
            None => None,
            Some(request) => {
                self.take_out(request.call);
                Some(request)
            }
        }
    }

    /// Drops the requests of the node in that incarnation or an older one, if they are named. Then it walks the line.
    /// The others keep their order. Takes no memory.
    pub fn forget(&mut self, dropped: Option<(u8, u16)>)
        ensures requests { self.new.requests ≡ without dropped self.old.requests }
        ensures room { self.new.room ≡ self.old.room }
    {
        let Some((node, incarnation)) = dropped else {
            return;
        };
        for place in self.front..self.slots.as_slice().len() {
            if let Some(request) = self.slots.as_slice()[place] {
                if request.is_up_to(node, incarnation) {
                    self.slots.take_out(request.call);
                }
            }
        }
        self.front = first_from(self.slots.as_slice(), self.front);
    }

    // Appends the requests in the slots, in their order.
    fn push_all(&mut self, slots: &[Option<TokenRequest>])
        requires room { length (requests_in slots.now) ≤ self.old.room }
        requires distinct { AreOfDistinctCalls (self.old.requests ++ requests_in slots.now) }
        ensures requests { self.new.requests ≡ self.old.requests ++ requests_in slots.now }
        ensures room { self.new.room + length (requests_in slots.now) ≡ self.old.room }
    {
        for slot in slots {
            if let Some(request) = slot {
                self.push(*request);
            }
        }
    }

    /// A copy: equal requests in equal order, and equal room.
    pub fn copy(&self) -> Result<Line, AllocError>
        ensures { IfOk result (λ copy. copy ≡ self.now) }
    {
        let mut copy = Line::with_room(self.allocator(), self.len() + self.room())?;
        copy.push_all(self.slots());
        Ok(copy)
    }

    /// Moves all requests of the other line behind those here, in their order. Takes no memory. The time grows with
    /// the number of requests moved.
    pub fn append(&mut self, other: &mut Line)
        requires room { length other.old.requests ≤ self.old.room }
        requires distinct { AreOfDistinctCalls (self.old.requests ++ other.old.requests) }
        ensures requests { self.new.requests ≡ self.old.requests ++ other.old.requests }
        ensures room { self.new.room + length other.old.requests ≡ self.old.room }
        ensures other { other.new ≡ record { requests = []; room = other.old.room } }
    {
        while let Some(request) = other.take_first() {
            self.push(request);
        }
    }

    /// An empty line for `refill`, where the line has too little room for `more` requests: with room for twice as many
    /// as the requests here and `more` together, and a few. If these together are more than `usize` counts, memory is
    /// refused. (In a box, since a change seldom has one and is handed on often.)
    pub fn spare_for(&self, more: usize) -> Result<Option<Box<Line>>, AllocError>
        ensures { IfOk result (λ spare. HasRoom self.now spare more) }
    {
        if more <= self.room() {
            return Ok(None);
        }
        let Some(needed) = self.len().checked_add(more) else {
            return Err(AllocError);
        };
        let ample = needed.saturating_add(needed).saturating_add(LEAST_ROOM);
        let alloc = self.allocator();
        Ok(Some(Box::new(alloc, Line::with_room(alloc, ample)?)?))
    }

    /// Moves the requests into the empty spare line, if there is one, whose room the line has from then on. Takes no
    /// memory.
    pub fn refill(&mut self, spare: Option<Box<Line>>)
        requires { HasRoom self.old spare 0 }
        ensures requests { self.new.requests ≡ self.old.requests }
        ensures room { (more : ℕ) → HasRoom self.old spare more → more ≤ self.new.room }
    {
        let Some(spare) = spare else {
            return;
        };
        let mut spare = Box::into_inner(spare);
        let _count = self.len(); // tells the proof that no two are of one call
        spare.push_all(self.slots());
        *self = spare;
    }
}
