//! What actors wrote of their steps, and what was written of declarations and starts.
use messages::{Entry, MemberEvent};

/// Two readings of a clock: what they are of came about no earlier than `began` and no later than `ended`.
#[derive(Clone, Copy)]
pub struct Interval {
    pub began: u64,
    pub ended: u64,
}

/// An entry that an actor made.
#[derive(Drop)]
pub struct LoggedEntry {
    pub entry: Entry,
    pub interval: Interval,
}

/// A declaration or a start.
#[derive(Clone, Copy)]
pub struct LoggedChange {
    pub event: MemberEvent,
    pub interval: Interval,
}
