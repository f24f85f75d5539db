//! The place of a node: what a running cluster knows of it.
ghost use Rattle.std.specs.Prelude.{◌≡◌, ◌≢◌, ◌≤◌, ◌↔◌, ◌++◌, ◌∷◌, Contains, Err, None, Some, [], false, true, IfErr, IfOk, OnErr};
ghost use Rattle.book.specs.rule.States.{seat_state, incarnation_of};
ghost use Rattle.actors.specs.declared.call_error.CallError.TheVariants.{Busy, Fenced, Stranger};

use crate::call_error::CallError;
use book::{Name, Seat};
use std::alloc::Global;

/// The knowledge that a running cluster has of a node: its last incarnation and whether that one is alive, the
/// processes that have a client, and the seat of an incarnation that the worker has not taken.
#[derive(Drop)]
pub(crate) struct NodePlace<J: Name> {
    incarnation: u16,
    alive: bool,
    clients: Vec<u16>,
    seat: Option<Seat<J>>,
    ghost from_one: { 1 ≤ incarnation },
}

impl<J: Name> NodePlace<J> {
    /// The place of a node in its first incarnation, whose seat lies at its desk.
    pub(crate) fn new(alloc: Global) -> NodePlace<J> {
        NodePlace {
            incarnation: 1,
            alive: true,
            clients: Vec::new(alloc),
            seat: None,
        }
    }

    /// Hands out a client of the process. Gives the incarnation that it is of.
    ///
    /// # Errors
    /// In this order: `Fenced` while the node is declared failed; `Busy` where the process has a client already;
    /// `NoMemory` where a request for memory was refused.
    pub(crate) fn hand_out(&mut self, pid: u16) -> Result<u16, CallError>
        ensures from_one { IfOk result (λ incarnation. 1 ≤ incarnation) }
        ensures value { IfOk result (λ incarnation. incarnation ≡ self.old.incarnation) }
        ensures fenced { self.old.alive ≡ false ↔ result ≡ Err Fenced }
        ensures busy { (self.old.alive ≡ true) × Contains self.old.clients.items pid ↔ result ≡ Err Busy }
        ensures handed_out { IfOk result (λ incarnation. self.new.clients.items ≡ self.old.clients.items ++ pid ∷ []) }
        ensures unchanged { OnErr result (self.new.clients.items ≡ self.old.clients.items) }
        ensures refused { IfErr result (λ why. why ≢ Stranger) }
        ensures node { (self.new.incarnation ≡ self.old.incarnation) × (self.new.alive ≡ self.old.alive) × (self.new.seat ≡ self.old.seat) }
    {
        if !self.alive {
            return Err(CallError::Fenced);
        }
        if self.clients.contains(&pid) {
            return Err(CallError::Busy);
        }
        if self.clients.push(pid).is_err() {
            return Err(CallError::NoMemory);
        }
        Ok(self.incarnation)
    }

    /// Notes that the node is declared failed. Gives the incarnation that failed.
    pub(crate) fn end(&mut self) -> u16
        ensures value { result ≡ self.old.incarnation }
        ensures ended { self.new.alive ≡ false }
    {
        self.alive = false;
        self.incarnation
    }

    /// Notes that the node begins again, on this seat, and that no process has a client.
    pub(crate) fn begin(&mut self, seat: Seat<J>)
        ensures { (self.new.incarnation ≡ incarnation_of (seat_state seat)) × (self.new.alive ≡ true) × (self.new.clients.items ≡ []) × (self.new.seat ≡ Some seat) }
    {
        self.incarnation = seat.incarnation();
        self.alive = true;
        self.clients.clear();
        self.seat = Some(seat);
    }

    /// Takes the seat that waits for the worker, if there is one.
    pub(crate) fn take_seat(&mut self) -> Option<Seat<J>>
        ensures taken { result ≡ self.old.seat }
        ensures none { self.new.seat ≡ None }
    {
        self.seat.take()
    }
}
