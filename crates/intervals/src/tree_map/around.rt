//! Searches of a map downwards and upwards from a span.
ghost use Rattle.std.specs.Prelude.{◌≤◌, ◌+◌, None, MatchOption};
ghost use Rattle.intervals.specs.rule.Bytes.{greatest, IsBarred};
ghost use Rattle.intervals.specs.code.Runs.{IsLowestFree, IsHighestFree};
ghost use Rattle.intervals.specs.rule.Runs.{value_at};
ghost use Rattle.intervals.specs.code.Entries.{NoneBelow, IsPrevious};

use super::TreeMap;
use crate::byte_run::{ByteRun, is_barred, last_to};
use crate::span_map::Exact;

impl<V: Exact> TreeMap<V> {
    // The last run that begins below the byte.
    fn previous(&self, byte: u64) -> Option<ByteRun<V>>
        ensures { MatchOption result (NoneBelow (value_at self.now) byte) (IsPrevious (value_at self.now) byte) }
    {
        if byte == 0 {
            return None;
        }
        let part = self.row.part(self.row.place(byte - 1));
        last_to(part, byte - 1)
    }

    // The lowest byte, from `low` on, such that no byte from it on and below `from` is barred.
    pub(super) fn lowest_free(&self, low: u64, from: u64, bar: Option<V>) -> u64
        requires free { IsBarred (value_at self.now) bar from → ⊥ }
        requires order { low ≤ from }
        ensures { IsLowestFree (IsBarred (value_at self.now) bar) low from result }
    {
        let mut end = from;
        while let Some(run) = self.previous(end) {
            if run.hi < low {
                break;
            }
            if is_barred(bar, run.value) {
                return run.hi + 1;
            }
            end = run.lo;
        }
        low
    }

    // The highest byte, up to `high`, such that no byte above `to` and up to it is barred.
    pub(super) fn highest_free(&self, to: u64, high: u64, bar: Option<V>) -> u64
        requires order { to ≤ high }
        requires bounded { high ≤ greatest }
        ensures { IsHighestFree (IsBarred (value_at self.now) bar) to high result }
    {
        let mut start = to + 1;
        while let Some(run) = self.next(start) {
            if run.lo > high {
                break;
            }
            if is_barred(bar, run.value) {
                return run.lo.saturating_sub(1).max(to);
            }
            start = run.hi + 1;
        }
        high
    }
}
