//! The active requests of a token server, in order. A function here that gives a `Result` answers `AllocError` where
//! a request for memory was refused.
ghost use Rattle.std.specs.Prelude.{◌≡◌, ◌↔◌, ℕ, ◌<◌, ◌≤◌, ◌++◌, [], not, filter, find, length, IfSome, IfOk, IsTrue, None};
ghost use Rattle.std.specs.List.{count_by, remove};
ghost use Rattle.std.specs.Vec.{vec_capacity};
ghost use Rattle.token_server.specs.rule.Requests.{is_of_call, is_up_to};
ghost use Rattle.token_server.specs.rule.Actives.{requests_of, waiting_for};
ghost use Rattle.token_server.specs.code.Edits.{AreDistinct, held_still, held_without, HeldHasRoom};

use crate::token_queue::active_request::ActiveRequest;
use crate::token_queue::token_request::TokenRequest;
use model::CallId;
use std::alloc::{AllocError, Global};
use std::marker::Model;

// A list that `spare_for` makes has at least this much room, so that few lists are made where few requests are
// active.
const LEAST_ROOM: usize = 8;

/// The active requests of a token server, in order, each with the node whose row it waits for. Only `copy` and
/// `spare_for` take memory: `push_all` needs room that is there already.
#[derive(Drop)]
pub struct Active {
    held: Vec<ActiveRequest>,
    room: usize,
}

impl Model for Active {
    ghost use Rattle.std.specs.Prelude.{◌+◌, ◌≤◌, length};
    ghost use Rattle.std.specs.Vec.{vec_capacity};
    ghost use Rattle.token_server.specs.rule.Actives.{ActiveParts};

    ghost Value = { ActiveParts };

    ghost view = { λ a. record { held = a.held.items; room = a.room } };

    ghost invariant = { λ a. length a.held.items + a.room ≤ vec_capacity a.held };
}

impl Active {
    /// An empty list without room.
    pub fn new(alloc: Global) -> Active
        ensures { result ≡ record { held = []; room = 0 } }
    {
        Active {
            held: Vec::new(alloc),
            room: 0,
        }
    }

    /// The requests in order, each with the node whose row it waits for.
    pub fn as_slice(&self) -> &[ActiveRequest]
        ensures { result.now ≡ self.now.held }
    {
        self.held.as_slice()
    }

    /// The number of requests that may still come before memory is asked for.
    pub fn room(&self) -> usize
        ensures { result ≡ self.now.room }
    {
        self.room
    }

    /// The request of the call, if the list has one. Walks the list.
    pub fn find(&self, call: CallId) -> Option<TokenRequest>
        ensures { result ≡ find (is_of_call call) (requests_of self.now.held) }
    {
        match find(&self.held, call) {
            Some(held) => Some(held.request),
            None => None,
        }
    }

    /// A copy: equal requests in equal order, and equal room.
    pub fn copy(&self) -> Result<Active, AllocError>
        ensures { IfOk result (λ copy. copy ≡ self.now) }
    {
        let many = self.held.len() + self.room;
        let mut held = Vec::with_capacity(*self.held.allocator(), many)?;
        let Ok(()) = held.extend_from_slice(&self.held) else {
            unreachable!()
        };
        Ok(Active {
            held,
            room: self.room,
        })
    }

    /// Whether both lists hold equal requests in equal order. Nodes and room are not compared.
    pub fn same(&self, other: &Active) -> bool
        ensures { IsTrue result ↔ (requests_of self.now.held ≡ requests_of other.now.held) }
    {
        same_requests(&self.held, &other.held)
    }

    /// Appends the requests, in room that is there already.
    pub fn push_all(&mut self, fresh: &[ActiveRequest])
        requires { length fresh.now ≤ self.old.room }
        ensures { self.new.held ≡ self.old.held ++ fresh.now }
    {
        let Ok(()) = self.held.extend_from_slice(fresh) else {
            unreachable!()
        };
        self.room -= fresh.len();
    }

    /// Removes the request of the call, if one is named and has one. No call has two requests here, so the walk stops
    /// at the first.
    pub fn end_one(&mut self, ended: Option<CallId>)
        requires { AreDistinct (requests_of self.old.held) }
        ensures held { self.new.held ≡ held_still ended self.old.held }
        ensures room { self.new.room ≡ self.old.room }
    {
        if let Some(call) = ended {
            end_one(&mut self.held, call);
        }
    }

    /// Removes the requests of the node in that incarnation or an older one, if they are named.
    pub fn forget(&mut self, dropped: Option<(u8, u16)>)
        ensures held { self.new.held ≡ held_without dropped self.old.held }
        ensures room { self.new.room ≡ self.old.room }
    {
        if let Some((node, incarnation)) = dropped {
            forget(&mut self.held, node, incarnation);
        }
    }

    /// Sets the nodes whose rows the first requests wait for: request i waits for `ats[i]`. Requests beyond `ats`
    /// keep theirs.
    pub fn wait_for(&mut self, ats: &[u8])
        ensures held { self.new.held ≡ waiting_for ats.now self.old.held }
        ensures room { self.new.room ≡ self.old.room }
    {
        wait_for(&mut self.held, ats);
    }

    /// An empty list for `refill`, where the list has too little room for these requests: with room for those here and
    /// these, and where that fits in `usize` for twice as many and a few.
    pub fn spare_for(
        &self,
        fresh: &[ActiveRequest],
    ) -> Result<Option<Vec<ActiveRequest>>, AllocError>
        ensures { IfOk result (λ spare. HeldHasRoom self.now spare (length fresh.now)) }
    {
        if fresh.len() <= self.room {
            return Ok(None);
        }
        let many = self.held.len().saturating_add(fresh.len());
        let ample = match many.checked_mul(2) {
            Some(twice) => twice.saturating_add(LEAST_ROOM),
            None => many,
        };
        Ok(Some(Vec::with_capacity(*self.held.allocator(), ample)?))
    }

    /// Moves the requests into the spare list, if there is one, whose room the list has from then on.
    pub fn refill(&mut self, spare: Option<Vec<ActiveRequest>>)
        requires { HeldHasRoom self.old spare 0 }
        ensures held { self.new.held ≡ self.old.held }
        ensures room { (more : ℕ) → HeldHasRoom self.old spare more → more ≤ self.new.room }
    {
        let Some(mut spare) = spare else {
            return;
        };
        self.room = spare.capacity() - self.held.len();
        let Ok(()) = spare.extend_from_slice(&self.held) else {
            unreachable!()
        };
        self.held = spare;
    }
}

// Whether both hold equal requests. Their nodes are not compared.
fn same_request(one: &ActiveRequest, other: &ActiveRequest) -> bool
    ensures { IsTrue result ↔ (one.now.request ≡ other.now.request) }
{
    one.request == other.request
}

// Whether both lists hold equal requests in equal order. Nodes are not compared.
fn same_requests(one: &[ActiveRequest], other: &[ActiveRequest]) -> bool
    ensures { IsTrue result ↔ (requests_of one.now ≡ requests_of other.now) }
{
    if one.len() != other.len() {
        return false;
    }
    for place in 0..one.len() {
        if !same_request(&one[place], &other[place]) {
            return false;
        }
    }
    true
}

// The entry of the call, if there is one: its request, with the node whose row it waits for.
fn find(held: &[ActiveRequest], call: CallId) -> Option<ActiveRequest>
    ensures { result ≡ find (λ h. is_of_call call h.request) held.now }
{
    held.iter().find(|held| held.is_of_call(call)).copied()
}

// The index of the first request of the call, if there is one. Where no call has two requests, removing it leaves
// exactly the requests of other calls.
fn place_of(held: &[ActiveRequest], call: CallId) -> Option<usize>
    ensures within { IfSome result (λ place. place < length held.now) }
    ensures one { IfSome result (λ place. count_by (is_of_call call) (requests_of held.now) ≤ 1 → remove held.now place ≡ filter (λ h. not (is_of_call call h.request)) held.now) }
    ensures none { result ≡ None → filter (λ h. not (is_of_call call h.request)) held.now ≡ held.now }
{
    for place in 0..held.len() {
        if held[place].is_of_call(call) {
            return Some(place);
        }
    }
    None
}

// Removes the request of the call, if there is one. No call has two requests here.
fn end_one(held: &mut Vec<ActiveRequest>, call: CallId)
    requires { count_by (is_of_call call) (requests_of held.old.items) ≤ 1 }
    ensures items { held.new.items ≡ filter (λ h. not (is_of_call call h.request)) held.old.items }
    ensures len { length held.new.items ≤ length held.old.items }
    ensures capacity { vec_capacity held.new ≡ vec_capacity held.old }
{
    if let Some(place) = place_of(held, call) {
        held.remove(place);
    }
}

// Removes the requests of the node in that incarnation or an older one.
fn forget(held: &mut Vec<ActiveRequest>, node: u8, incarnation: u16)
    ensures items { held.new.items ≡ filter (λ h. not (is_up_to node incarnation h.request)) held.old.items }
    ensures len { length held.new.items ≤ length held.old.items }
    ensures capacity { vec_capacity held.new ≡ vec_capacity held.old }
{
    held.retain(|held| !held.is_up_to(node, incarnation));
}

// Sets the nodes whose rows the first requests wait for: request i waits for `ats[i]`. Requests beyond `ats` keep
// theirs.
fn wait_for(held: &mut Vec<ActiveRequest>, ats: &[u8])
    ensures items { held.new.items ≡ waiting_for ats.now held.old.items }
    ensures len { length held.new.items ≡ length held.old.items }
    ensures capacity { vec_capacity held.new ≡ vec_capacity held.old }
{
    for place in 0..ats.len().min(held.len()) {
        let request = held[place].request;
        held[place] = ActiveRequest {
            request,
            at: ats[place],
        };
    }
}
