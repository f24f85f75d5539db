//! Which logs are worth a try.
use crate::log::Log;
use std::alloc::{AllocError, Global};
use std::collections::BinaryHeap;

/// Logs that may go on, by their indices, and those whose next entries began too late to be put yet. A merge is right whatever the
/// queue says: it only saves tries.
#[derive(Drop)]
pub(crate) struct Queue {
    open: Vec<usize>,
    // How much earlier than the last moment of all the next entry began, and the log's index; the greatest comes first.
    waiting: BinaryHeap<(u64, usize)>,
}

// What is known of a log's next entry.
enum Next {
    MayCome,
    Began(u64),
    UsedUp,
}

impl Queue {
    /// That many logs, all of which may go on.
    pub(crate) fn new(alloc: Global, count: usize) -> Result<Queue, AllocError> {
        let mut open = Vec::new(alloc);
        for index in 0..count {
            open.push(index)?;
        }
        let waiting = BinaryHeap::new(alloc);
        Ok(Queue { open, waiting })
    }

    /// Those that may go on.
    pub(crate) fn open(&self) -> &[usize] {
        self.open.as_slice()
    }

    /// What began no later than that moment may come from now on.
    pub(crate) fn open_until(&mut self, moment: u64) -> Result<(), AllocError> {
        for _ in 0..self.waiting.len() {
            match self.waiting.peek() {
                Some(top) if u64::MAX.saturating_sub(top.0) <= moment => {}
                _ => break,
            }
            if let Some((_, index)) = self.waiting.pop() {
                self.open.push(index)?;
            }
        }
        Ok(())
    }

    /// Sorts out the logs that are used up, and those whose next entries began later than that moment.
    pub(crate) fn sort_out(&mut self, logs: &[Log], moment: u64) -> Result<(), AllocError> {
        let mut position = 0;
        while position < self.open.len() {
            let index = self.open[position];
            match next_of(logs, index, moment) {
                Next::MayCome => position += 1,
                Next::Began(began) => {
                    self.open.swap_remove(position);
                    self.waiting.push((u64::MAX - began, index))?;
                }
                Next::UsedUp => {
                    self.open.swap_remove(position);
                }
            }
        }
        Ok(())
    }
}

fn next_of(logs: &[Log], index: usize, moment: u64) -> Next {
    let Some(log) = logs.get(index) else {
        return Next::UsedUp;
    };
    match log.first() {
        Some(next) if next.interval.began <= moment => Next::MayCome,
        Some(next) => Next::Began(next.interval.began),
        None => Next::UsedUp,
    }
}
