//! Gates: where a test can hold an actor between preparing and committing a step.
use messages::Actor;

/// A moment in the work of an actor, of which a gate is told.
#[derive(Clone, Copy, Debug, PartialEq, Eq)]
pub enum GatePoint {
    /// The actor has prepared a step, which it will commit. It holds no lock but that of its own seat.
    Prepared(Actor),
    /// The actor has committed the step as the entry at this position, from 1. It holds no lock but that of its own
    /// seat. No message of the step was sent, and no call was answered.
    Committed(Actor, u32),
}

/// The trait of what is told of each such moment. The actor waits there until `at` returns.
pub trait Gate {
    fn at(&self, point: GatePoint);

    /// Whether the gate is open to clients. It is asked once, when the cluster begins. If it is open, a client may
    /// make a call that needs no other actor on its own thread. The gate of `run_threads` is told of such a step too,
    /// that of `with_cluster` isn't.
    fn is_open(&self) -> bool {
        false
    }
}

/// A gate at which no actor waits. It is not open to clients.
#[derive(Clone, Copy, Debug, Default, PartialEq, Eq)]
pub struct OpenGate;

impl Gate for OpenGate {
    fn at(&self, _point: GatePoint) {}

    fn is_open(&self) -> bool {
        true
    }
}
