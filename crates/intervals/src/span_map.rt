//! What a map from bytes to values can do, however it is kept.
ghost use Rattle.std.specs.Prelude.{◌≡◌, ℕ, ◌≤◌, ◌<◌, true, Bool, Option, Some, None, IsTrue, ◌↔◌, OnOk, OnErr, IfOk, MatchOption};
ghost use Rattle.intervals.specs.rule.Bytes.{greatest, put, nothing, AllAre, IsBarred, NoneIn, IsFirstIn, IsRun, IsLargest, number_of_runs};

use crate::span::Span;
use std::alloc::{AllocError, Global};

/// Values that are equal exactly where `==` holds of them.
pub trait Exact: Copy + Eq {
    ghost exact: { (a b : Self) → Self.PartialEq.eq a b ≡ true → a ≡ b };
}

/// A map from the bytes of a file to values, however it is kept. No byte past the greatest offset
/// has a value. A call that fails with `AllocError`, because a request for memory was refused,
/// leaves the map as it was.
pub trait SpanMap<V: Exact>: Drop {
    /// The value of each byte of a map, if it has one.
    ghost at: { Self → ℕ → Option V };

    /// The map in which no byte has a value.
    fn new(alloc: Global) -> Self
        ensures { at result ≡ nothing };

    /// Gives each byte of the span the value, and leaves the other bytes as they were.
    fn set(&mut self, span: Span, value: V) -> Result<(), AllocError>
        ensures ok { OnOk result (at self.new ≡ put (at self.old) span (Some value)) }
        ensures err { OnErr result (self.new ≡ self.old) };

    /// Takes the value from each byte of the span, and leaves the other bytes as they were.
    fn clear(&mut self, span: Span) -> Result<(), AllocError>
        ensures ok { OnOk result (at self.new ≡ put (at self.old) span None) }
        ensures err { OnErr result (self.new ≡ self.old) };

    /// The value of the byte, if it has one.
    fn get(&self, byte: u64) -> Option<V>
        ensures { result ≡ at self.now byte };

    /// Whether no byte has a value.
    fn is_empty(&self) -> bool
        ensures empty { IsTrue result ↔ (at self.now ≡ nothing) }
        ensures bounded { (b : ℕ) → greatest < b → at self.now b ≡ None };

    /// Whether each byte of the span has the value.
    fn covers(&self, span: Span, value: V) -> bool
        ensures { IsTrue result ↔ AllAre (at self.now) span (Some value) };

    /// The lowest byte of the span that has the barred value `bar`; with `bar` `None`, the lowest
    /// byte that has any value.
    fn first_where(&self, span: Span, bar: Option<V>) -> Option<u64>
        ensures { MatchOption result (NoneIn (IsBarred (at self.now) bar) span) (λ b. IsFirstIn (IsBarred (at self.now) bar) span b) };

    /// The longest run of one value that contains the byte, with that value; `None` where the byte
    /// has no value.
    fn run_at(&self, byte: u64) -> Option<(Span, V)>
        ensures { MatchOption result (at self.now byte ≡ None) (λ run. IsRun (at self.now) run.0 run.1 × (run.0.lo ≤ byte) × (byte ≤ run.0.hi)) };

    /// The number of bytes at which a longest run begins.
    fn starts(&self) -> usize
        ensures { result ≡ number_of_runs V.PartialEq.eq (at self.now) };

    /// The largest span that contains `required`, lies in `within`, and has no byte with the barred
    /// value `bar`; with `bar` `None`, no byte with any value.
    fn largest_around(&self, required: Span, within: Span, bar: Option<V>) -> Span
        requires starts_within { within.lo ≤ required.lo }
        requires ends_within { required.hi ≤ within.hi }
        requires free { NoneIn (IsBarred (at self.now) bar) required }
        ensures { IsLargest (IsBarred (at self.now) bar) required within result };

    /// An equal map.
    fn copy(&self) -> Result<Self, AllocError>
        ensures { IfOk result (λ copy. copy ≡ self.now) };

    /// Whether both maps have the same value at each byte.
    fn same(&self, other: &Self) -> bool
        ensures { IsTrue result ↔ (at self.now ≡ at other.now) };
}
