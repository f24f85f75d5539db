//! Desks, where the steps of actors are made, and the locks of desks and of the book.
ghost use Rattle.std.specs.Prelude.{◌≡◌, IfOk};
ghost use Rattle.book.specs.rule.Commits.{Names};
ghost use Rattle.book.specs.code.Copies.{IsStepFrom};

use crate::{CallError, Cluster, Gate, GatePoint};
use book::{Mark, Name, Prepared, Seat, Stamp};
use std::hint;
use std::sync::{Mutex, MutexGuard, Wait};

/// The work at the desk of an actor: its seat, and whether calls are open at the node, as its worker knows.
#[derive(Drop)]
pub(crate) struct Work<J: Name> {
    pub(crate) seat: Seat<J>,
    pub(crate) has_open: bool,
}

/// The place where the steps of an actor are made, by one thread at a time. The worker takes the work for each
/// letter, and a client of a node for a call that needs no other actor.
pub(crate) type Desk<J> = Mutex<Work<J>>;

// How often a thread looks whether it can have the value before it sleeps, and how many pauses of the processor it
// makes between two looks: some two microseconds, about as long as a step holds the lock of the book.
const LOOKS: u32 = 40;

const PAUSES: u32 = 32;

/// The value under its lock. The thread looks for the lock a few times before it sleeps: a step of a script's run
/// holds a lock for less time than it takes to sleep and be woken. (Each look takes the lock from the cache of the
/// thread that holds it, so threads that look often slow all others; those that look seldom leave it free.)
pub(crate) fn lock<'a, T, R: Wait>(rt: &R, value: &'a Mutex<T>) -> MutexGuard<'a, T> {
    for _ in 0..LOOKS {
        if let Some(held) = value.try_lock() {
            return held;
        }
        for _ in 0..PAUSES {
            hint::spin_loop();
        }
    }
    value.lock(rt)
}

impl<J: Name, G: Gate> Cluster<'_, J, G> {
    /// Commits a step that the seat prepared, under the lock of the book. The gate is told before the lock is taken,
    /// and after it is given back.
    pub(crate) fn commit<R: Wait>(
        &self,
        rt: &R,
        seat: &mut Seat<J>,
        prepared: Prepared,
        seen: Option<&Mark>,
    ) -> Result<Stamp, CallError>
        requires { Names prepared seat.old → IsStepFrom seat.old prepared }
        ensures { IfOk result (λ stamp. stamp.event ≡ prepared.event) }
    {
        let actor = seat.actor();
        self.gate.at(GatePoint::Prepared(actor));
        let committed = lock(rt, self.book).commit(self.begun.alloc, seat, prepared, seen);
        let stamp = committed?;
        self.begun.halt.note_step();
        self.gate.at(GatePoint::Committed(actor, stamp.position()));
        Ok(stamp)
    }
}
