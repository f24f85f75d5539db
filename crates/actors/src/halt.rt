//! The flags that end the workers of a cluster.
use std::sync::atomic::{AtomicU64, Ordering};

// This many requests for memory may be refused one after the other, with no step between them.
const MOST_REFUSED: u64 = 100;

/// Whether the workers of a cluster are to end; how many requests for memory were refused since the last step; and
/// whether those were too many. In that case no step can be expected any more, and the workers are to end.
#[derive(Drop)]
pub(crate) struct Halt {
    is_set: AtomicU64,
    refused: AtomicU64,
    is_short: AtomicU64,
}

impl Halt {
    /// The flags of workers that go on.
    pub(crate) fn new() -> Halt {
        Halt {
            is_set: AtomicU64::new(0),
            refused: AtomicU64::new(0),
            is_short: AtomicU64::new(0),
        }
    }

    /// Says that the workers are to end.
    pub(crate) fn set(&self) {
        self.is_set.store(1, Ordering::SeqCst);
    }

    /// Whether the workers are to end.
    pub(crate) fn is_set(&self) -> bool {
        self.is_set.load(Ordering::SeqCst) != 0
    }

    /// Whether the workers are to end because too many requests for memory were refused.
    pub(crate) fn is_short(&self) -> bool {
        self.is_short.load(Ordering::SeqCst) != 0
    }

    /// Notes that a step was taken. (Where no request was refused before it, nothing is written: workers and clients
    /// read what lies beside it at each letter and call, and a write would take it from their caches.)
    pub(crate) fn note_step(&self) {
        if self.refused.load(Ordering::SeqCst) != 0 {
            self.refused.store(0, Ordering::SeqCst);
        }
    }

    /// Notes that a request for memory was refused.
    pub(crate) fn note_refused(&self) {
        if self.refused.fetch_add(1, Ordering::SeqCst) >= MOST_REFUSED {
            self.is_short.store(1, Ordering::SeqCst);
            self.set();
        }
    }
}
