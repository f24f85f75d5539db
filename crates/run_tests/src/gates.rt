//! Gates that hold actors, at most 10,000 turns of one millisecond.
use actors::{Gate, GatePoint};
use messages::Actor;
use std::sync::atomic::{AtomicU64, Ordering};
use std::thread;
use std::time::{Clock, Duration};

const TURNS: u64 = 10_000;

/// Waits until the word is set, and says whether it was.
pub fn wait_for<R: Clock>(rt: &R, word: &AtomicU64) -> bool {
    for _ in 0..TURNS {
        if word.load(Ordering::SeqCst) != 0 {
            return true;
        }
        thread::sleep(rt, Duration::from_millis(1));
    }
    false
}

/// Once armed, holds the next step that node 1 prepares until it is let go, and up to that step those of node 2. A step that
/// node 2 commits while it is held lets it go.
#[derive(Drop)]
pub struct Holder<'a, R: Clock> {
    rt: &'a R,
    is_open: bool,
    armed: AtomicU64,
    came: AtomicU64,
    let_go: AtomicU64,
    late: AtomicU64,
}

impl<'a, R: Clock> Holder<'a, R> {
    pub fn new(rt: &'a R, is_open: bool) -> Holder<'a, R> {
        Holder {
            rt,
            is_open,
            armed: AtomicU64::new(0),
            came: AtomicU64::new(0),
            let_go: AtomicU64::new(0),
            late: AtomicU64::new(0),
        }
    }

    /// The next step that node 1 prepares is held.
    pub fn arm(&self) {
        self.armed.store(1, Ordering::SeqCst);
    }

    /// Waits until a step of node 1 is held, and says whether it is.
    pub fn wait_for_node(&self) -> bool {
        wait_for(self.rt, &self.came)
    }

    /// The step that is held goes on.
    pub fn let_go(&self) {
        self.let_go.store(1, Ordering::SeqCst);
    }

    /// Whether a step was let go, and in time.
    pub fn was_let_go(&self) -> bool {
        self.let_go.load(Ordering::SeqCst) == 1 && self.late.load(Ordering::SeqCst) == 0
    }

    // Whether a step of node 1 is still to come that is held.
    fn is_armed(&self) -> bool {
        self.armed.load(Ordering::SeqCst) == 1
    }

    // Holds a step until the word is set.
    fn hold(&self, word: &AtomicU64) {
        if !wait_for(self.rt, word) {
            self.late.store(1, Ordering::SeqCst);
        }
    }
}

impl<R: Clock> Gate for Holder<'_, R> {
    fn at(&self, point: GatePoint) {
        match point {
            GatePoint::Prepared(Actor::Node(1)) if self.is_armed() => {
                self.came.store(1, Ordering::SeqCst);
                self.armed.store(0, Ordering::SeqCst);
                self.hold(&self.let_go);
            }
            GatePoint::Prepared(Actor::Node(2)) if self.is_armed() => self.hold(&self.came),
            GatePoint::Committed(Actor::Node(2), _) => {
                if self.came.load(Ordering::SeqCst) == 1 {
                    self.let_go();
                }
            }
            _ => {}
        }
    }

    fn is_open(&self) -> bool {
        self.is_open
    }
}
