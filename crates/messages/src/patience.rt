//! The ticks that go by before something is tried again.
ghost use Rattle.std.specs.Prelude.{◌≡◌};
ghost use Rattle.messages.specs.rule.Distances.{after_tick, at_first, is_due};

// The number of ticks before the first try, and the greatest number between two tries.
const FIRST_TICKS: u32 = 16;

const MOST_TICKS: u32 = 256;

/// The ticks that go by before something is tried again: 16 at first, after each try twice as many as before it, and 256
/// at most.
#[derive(Clone, Copy, Debug, PartialEq, Eq)]
pub struct Patience {
    between: u32,
    left: u32,
}

impl Patience {
    /// No tick went by.
    pub fn new() -> Patience
        ensures { result ≡ at_first }
    {
        Patience {
            between: FIRST_TICKS,
            left: FIRST_TICKS,
        }
    }

    /// Whether the next tick brings a try.
    pub fn is_due(self) -> bool
        ensures { result ≡ is_due self }
    {
        self.left < 2
    }

    /// The patience after a tick.
    pub fn after_tick(self) -> Patience
        ensures { result ≡ after_tick self }
    {
        if self.left < 2 {
            let between = self.between.saturating_mul(2).min(MOST_TICKS);
            return Patience {
                between,
                left: between,
            };
        }
        Patience {
            between: self.between,
            left: self.left - 1,
        }
    }
}
