//! Moments before which nothing that is left of logs had ended.
ghost use Rattle.std.specs.Prelude.{◌≤◌, ℕ, List, IfOk, OnOk, length};
ghost use Rattle.merges.specs.rule.Merges.{LogFields};
ghost use Rattle.merges.specs.code.Merging.{Covers, EndsFrom};

use crate::log::Log;
use std::alloc::{AllocError, Global};
use std::collections::BinaryHeap;
use std::marker::Model;

/// For each log a moment before which nothing that is left of it had ended: the earliest such moment is at hand, however many
/// logs there are.
#[derive(Drop)]
pub(crate) struct Ends {
    // How much earlier than the last moment of all, and the log's index; the greatest comes first.
    heap: BinaryHeap<(u64, usize)>,
}

impl Model for Ends {
    ghost use Rattle.std.specs.Prelude.{ℕ, List};
    ghost use Rattle.std.specs.BinaryHeap.{heap_items, IsHeap};
    ghost use Rattle.std.specs.Ordering.{nat_cmp, ordering_then};

    ghost Value = { List (ℕ × ℕ) };

    ghost view = { λ e. heap_items e.heap };

    ghost invariant = { λ e. IsHeap (λ x y. ordering_then (nat_cmp x.0 y.0) (nat_cmp x.1 y.1)) (heap_items e.heap) };
}

impl Ends {
    /// The first moment of all for each of that many logs.
    pub(crate) fn new(alloc: Global, count: usize) -> Result<Ends, AllocError>
        ensures { IfOk result (λ ends. (logs : List LogFields) → length logs ≤ count → Covers ends logs) }
    {
        let mut heap = BinaryHeap::new(alloc);
        for index in 0..count {
            heap.push((u64::MAX, index))?;
        }
        Ok(Ends { heap })
    }

    /// A moment before which nothing that is left had ended. It is the latest such moment.
    pub(crate) fn least(&mut self, logs: &[Log]) -> Result<u64, AllocError>
        ensures covers { OnOk result (Covers self.old logs.now → Covers self.new logs.now) }
        ensures lower { IfOk result (λ end. Covers self.old logs.now → EndsFrom end (length logs.now) logs.now) }
    {
        for _ in 0..logs.len() {
            if self.is_exact(logs) {
                break;
            }
            self.renew(logs)?;
        }
        Ok(self.lower())
    }

    // The earliest of the moments.
    fn lower(&self) -> u64
        ensures { (logs : List LogFields) → Covers self.now logs → EndsFrom result (length logs) logs }
    {
        match self.heap.peek() {
            Some(top) => u64::MAX.saturating_sub(top.0),
            None => 0,
        }
    }

    // Whether the log of the earliest moment has an entry that ended then.
    fn is_exact(&self, logs: &[Log]) -> bool {
        let Some(top) = self.heap.peek() else {
            return true;
        };
        match logs.get(top.1) {
            Some(log) => log.least_end() == u64::MAX.saturating_sub(top.0),
            None => true,
        }
    }

    // Asks the log of the earliest moment for a later one.
    fn renew(&mut self, logs: &[Log]) -> Result<(), AllocError>
        ensures { OnOk result (Covers self.old logs.now → Covers self.new logs.now) }
    {
        let Some((_, index)) = self.heap.pop() else {
            return Ok(());
        };
        let end = match logs.get(index) {
            Some(log) => log.least_end(),
            None => 0,
        };
        Ok(self.heap.push((u64::MAX - end, index))?)
    }
}
