//! Hints that say quickly that no call with some number, or of some process, is open.
ghost use Rattle.std.specs.Prelude.{◌≡◌, ◌==◌, false, All};
ghost use Rattle.node_core.specs.code.Plans.{IsHinted};
ghost use Rattle.node_core.specs.declared.open_call.OpenCall.{OpenCall as Call};

use crate::open_call::OpenCall;

// The number of flags for processes.
const FLAGS: usize = 256;

/// What the open calls can be at most: none has a number above `greatest`, and the process of each
/// has its flag set, which it shares with other processes. A wrong hint only costs time.
#[derive(Clone, Copy)]
pub struct Hints {
    greatest: u32,
    callers: [bool; FLAGS],
}

impl Hints {
    /// The hints for no calls.
    pub(crate) fn none() -> Self {
        Hints {
            greatest: 0,
            callers: [false; FLAGS],
        }
    }

    /// The hints for these calls.
    pub(crate) fn of(calls: &[OpenCall]) -> Self
        ensures { All (IsHinted result) calls.now }
    {
        let mut hints = Hints::none();
        for call in calls {
            hints.add(call);
        }
        hints
    }

    /// Adds a call to the hints.
    pub(crate) fn add(&mut self, call: &OpenCall)
        ensures kept { (c : Call) → IsHinted self.old c → IsHinted self.new c }
        ensures added { IsHinted self.new call.now }
    {
        self.greatest = self.greatest.max(call.number);
        self.callers[call.pid as usize % FLAGS] = true;
    }

    /// Whether a call may have this number.
    pub(crate) fn has_number(&self, number: u32) -> bool
        ensures { result ≡ false → (c : Call) → IsHinted self.now c → (c.number == number) ≡ false }
    {
        number <= self.greatest
    }

    /// Whether a call may be of this process.
    pub(crate) fn has_caller(&self, pid: u16) -> bool
        ensures { result ≡ false → (c : Call) → IsHinted self.now c → (c.pid == pid) ≡ false }
    {
        self.callers[pid as usize % FLAGS]
    }
}
