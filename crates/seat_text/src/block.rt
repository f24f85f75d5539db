//! The blocks of logs.
ghost use Rattle.std.specs.Prelude.{◌≡◌, length};
ghost use Rattle.seat_text.specs.rule.Logs.{steps_of, interval_of};

use merges::Interval;
use messages::{Actor, Entry, MemberEvent, Sends, Shape};

/// Whose log it is: the actor of a cluster of this shape, which worked only once it began again, where `again` says so.
#[derive(Clone, Copy)]
pub struct LogHead {
    pub shape: Shape,
    pub actor: Actor,
    pub again: bool,
}

/// A declaration or a start, with the incarnation or the epoch that its line names, and the messages that the actor sends
/// when it begins by it.
#[derive(Drop)]
pub struct LogChange {
    pub event: MemberEvent,
    pub incarnation: u16,
    pub sends: Sends,
}

/// An entry, with the tag of the call that it answers, where that had one.
#[derive(Drop)]
pub struct LogStep {
    pub entry: Entry,
    pub tag: Option<u64>,
}

/// What a block says.
#[derive(Drop)]
pub enum Said {
    /// The line was refused, with this code.
    Refused(u16),
    /// The line was none; what may not stand there begins at this column.
    NoLine(u64),
    /// There was a declaration or a start, or none, and there were these entries.
    Did(Option<LogChange>, Vec<LogStep>),
}

/// What a log says of one line, or a tick, that came to the actor; `clock` is what its line `at` says, where it has one.
#[derive(Drop)]
pub struct Block {
    pub clock: Option<Interval>,
    pub said: Said,
}

impl Block {
    /// The number of its entries.
    pub(crate) fn count(&self) -> usize
        ensures { result ≡ length (steps_of self.now.said) }
    {
        match &self.said {
            Said::Did(_, steps) => steps.len(),
            _ => 0,
        }
    }
}

/// When a block with this line `at` came about; one without it, at any time.
pub(crate) fn interval_of(clock: Option<Interval>) -> Interval
    ensures { result ≡ interval_of clock }
{
    clock.unwrap_or(Interval {
        began: 0,
        ended: u64::MAX,
    })
}
