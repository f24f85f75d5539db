//! Runs of bytes that have one value, and searches in sorted vectors of them.
ghost use Rattle.std.specs.Prelude.{◌≡◌, ◌≤◌, ◌<◌, ◌+◌, ◌++◌, take, drop, length, if◌then◌else◌, Some, IsTrue, ◌↔◌, MatchOption};
ghost use Rattle.intervals.specs.rule.Bytes.{begins_after, starts_below, IsBarred};
ghost use Rattle.intervals.specs.code.Runs.{IsBarredValue, AreRuns, EndsBelow, EndsFrom, IsLowestFree, IsHighestFree};
ghost use Rattle.intervals.specs.rule.Runs.{value_at};
ghost use Rattle.intervals.specs.code.Entries.{BeginAbove, IsLastTo};

use crate::span_map::Exact;

pub(crate) mod writes;

/// Consecutive bytes of a file with one value, from `lo` to `hi`, both included.
#[derive(Clone, Copy, PartialEq, Eq)]
pub struct ByteRun<V> {
    pub lo: u64,
    pub hi: u64,
    pub value: V,
}

// The number of runs that end below the byte. Found by halving, unless all do or none does.
fn ends_below<V>(runs: &[ByteRun<V>], byte: u64) -> usize
    requires { AreRuns runs.now }
    ensures within { result ≤ length runs.now }
    ensures ended { EndsBelow (take result runs.now) byte }
    ensures reached { EndsFrom (drop result runs.now) byte }
{
    match runs.first() {
        Some(run) if run.hi < byte => {}
        _ => return 0,
    }
    match runs.last() {
        Some(run) if run.hi < byte => runs.len(),
        _ => runs.partition_point(|run| run.hi < byte),
    }
}

// The runs that end below the byte, and the other ones.
#[inline]
pub(crate) fn split_before<V>(runs: &[ByteRun<V>], byte: u64) -> (&[ByteRun<V>], &[ByteRun<V>])
    requires { AreRuns runs.now }
    ensures whole { runs.now ≡ result.0.now ++ result.1.now }
    ensures first { AreRuns result.0.now }
    ensures last { AreRuns result.1.now }
    ensures ended { EndsBelow result.0.now byte }
    ensures reached { EndsFrom result.1.now byte }
{
    runs.split_at(ends_below(runs, byte))
}

// The last run that begins at the byte or below it. Found by halving.
fn last_by_halves<V: Exact>(runs: &[ByteRun<V>], byte: u64) -> Option<ByteRun<V>>
    requires { AreRuns runs.now }
    ensures { MatchOption result (BeginAbove runs.now byte) (IsLastTo runs.now byte) }
{
    let (below, _) = runs.split_at(runs.partition_point(|run| run.lo <= byte));
    match below.split_last() {
        Some((run, _)) => Some(*run),
        None => None,
    }
}

// The last run that begins at the byte or below it. Found by halving, unless it is the last run, or
// none does.
pub(crate) fn last_to<V: Exact>(runs: &[ByteRun<V>], byte: u64) -> Option<ByteRun<V>>
    requires { AreRuns runs.now }
    ensures { MatchOption result (BeginAbove runs.now byte) (IsLastTo runs.now byte) }
{
    match runs.split_first() {
        Some((run, _)) if run.lo <= byte => {}
        _ => return None,
    }
    match runs.split_last() {
        Some((run, _)) if run.lo <= byte => Some(*run),
        _ => last_by_halves(runs, byte),
    }
}

// The number of runs that begin below the byte. Found by halving.
pub(crate) fn begin_below<V: Exact>(runs: &[ByteRun<V>], byte: u64) -> usize
    requires { AreRuns runs.now }
    ensures count { result ≡ starts_below V.PartialEq.eq (value_at runs.now) byte }
    ensures within { result ≤ length runs.now }
{
    runs.partition_point(|run| run.lo < byte)
}

// The number of runs of `value`, 0 or 1, that begin right after a byte with the value `before`.
pub(crate) fn begin_after<V: Exact>(before: Option<V>, value: Option<V>) -> usize
    ensures { result ≡ (if begins_after V.PartialEq.eq before value then 1 else 0) }
{
    if value.is_none() || before == value {
        return 0;
    }
    1
}

// Whether `value` is the barred value `bar`, or `bar` is `None`, which bars every value.
pub(crate) fn is_barred<V: Exact>(bar: Option<V>, value: V) -> bool
    ensures { IsTrue result ↔ IsBarredValue bar value }
{
    match bar {
        None => true,
        Some(barred) => value == barred,
    }
}

// The lowest byte, from `low` on, such that no byte from it on and below `from` is barred. The runs
// end below `from`; they are read downwards to the first one that is barred or ends below `low`.
pub(crate) fn lowest_free<V: Exact>(runs: &[ByteRun<V>], low: u64, from: u64, bar: Option<V>) -> u64
    requires runs { AreRuns runs.now }
    requires ended { EndsBelow runs.now from }
    requires order { low ≤ from }
    ensures { IsLowestFree (IsBarred (value_at runs.now) bar) low from result }
{
    let mut rest = runs;
    while let Some((run, below)) = rest.split_last() {
        if run.hi < low {
            break;
        }
        if is_barred(bar, run.value) {
            return run.hi + 1;
        }
        rest = below;
    }
    low
}

// The highest byte, up to `high`, such that no byte above `to` and up to it is barred. The runs end
// above `to`; they are read upwards to the first one that is barred or begins above `high`.
pub(crate) fn highest_free<V: Exact>(runs: &[ByteRun<V>], to: u64, high: u64, bar: Option<V>) -> u64
    requires runs { AreRuns runs.now }
    requires reached { EndsFrom runs.now (to + 1) }
    requires order { to ≤ high }
    ensures { IsHighestFree (IsBarred (value_at runs.now) bar) to high result }
{
    for run in runs {
        if run.lo > high {
            break;
        }
        if is_barred(bar, run.value) {
            return run.lo.saturating_sub(1).max(to);
        }
    }
    high
}
