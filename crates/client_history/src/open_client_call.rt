//! Open calls: they have begun and not ended.
ghost use Rattle.std.specs.Prelude.{◌≡◌, ◌≢◌, true, false, IsTrue, ◌↔◌};
ghost use Rattle.client_history.specs.code.Moves.{AsksOnly};
ghost use Rattle.client_history.specs.code.OpenCalls.{Changes, IsLeft};

use crate::{ClientCall, changes};

/// A call that has begun and not ended, with its index, and the index of its owner's exit, if there is one.
#[derive(Clone, Copy)]
pub(crate) struct OpenClientCall {
    pub index: usize,
    pub call: ClientCall,
    pub exit: Option<usize>,
}

impl OpenClientCall {
    /// Whether the call changes locks; else it only asks.
    pub(crate) fn changes(&self) -> bool
        ensures changes { IsTrue result ↔ Changes self.now.call.act }
        ensures asks { result ≡ false → AsksOnly self.now.call.act }
    {
        changes(&self.call.act)
    }

    /// Whether the call is left: it was not taken, and neither was its owner's exit.
    pub(crate) fn is_left(&self, taken: &[usize]) -> bool
        ensures { IsTrue result ↔ IsLeft self.now taken.now }
    {
        if taken.contains(&self.index) {
            return false;
        }
        match self.exit {
            Some(exit) => !taken.contains(&exit),
            None => true,
        }
    }

    /// Whether both are calls of one owner, and not the same one.
    pub(crate) fn is_beside(&self, other: &OpenClientCall) -> bool
        ensures { IsTrue result ↔ ((self.now.index ≢ other.now.index) × (self.now.call.owner ≡ other.now.call.owner)) }
    {
        self.index != other.index && self.call.owner == other.call.owner
    }
}
