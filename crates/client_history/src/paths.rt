//! The ways that the search went, as trees of steps. A function here that gives a `Result` answers `AllocError` where
//! a request for memory was refused.
use std::alloc::{AllocError, Global};

// A step of a way: a call that was taken, and the number of the step before it.
#[derive(Clone, Copy)]
struct Step {
    before: usize,
    call: usize,
}

/// The ways that the search went, each named by the number of its last step; 0 is the empty way. Ways share their
/// common beginnings.
#[derive(Drop)]
pub(crate) struct Paths {
    steps: Vec<Step>,
}

impl Paths {
    /// The empty way alone.
    pub(crate) fn new(alloc: Global) -> Self {
        Paths {
            steps: Vec::new(alloc),
        }
    }

    /// The way with one call more.
    pub(crate) fn push(&mut self, before: usize, call: usize) -> Result<usize, AllocError> {
        self.steps.push(Step { before, call })?;
        Ok(self.steps.len())
    }

    /// The calls of a way, from the first to the last.
    pub(crate) fn order_of(&self, last: usize) -> Result<Vec<usize>, AllocError> {
        let mut order = Vec::new(*self.steps.allocator());
        let mut at = last;
        for _ in 0..self.steps.len() {
            let Some(step) = at.checked_sub(1).and_then(|index| self.steps.get(index)) else {
                break;
            };
            order.push(step.call)?;
            at = step.before;
        }
        order.reverse();
        Ok(order)
    }
}
