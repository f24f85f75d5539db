//! Tokens for reading: as they are, or as they will be after a planned write.
ghost use Rattle.std.specs.Prelude.{◌≡◌, ◌+◌, ◌<◌, ◌≤◌, ℕ, true, false, Option};
ghost use Rattle.intervals.specs.rule.Bytes.{greatest, IsLargest, NoneIn, put, largest_around};
ghost use Rattle.intervals.specs.code.Runs.{IsLowestFree, IsHighestFree};
ghost use Rattle.token_set.specs.rule.Tokens.{conflicts, level_conflicts};
ghost use Rattle.token_set.specs.rule.Tokens.{token_of};
ghost use Rattle.token_set.specs.code.Views.{viewed, InWay};

use crate::set::TokenSet;
use intervals::span::Span;
use model::{Level, Mode};

/// A token for reading: as it is, or with a write that isn't made yet.
#[derive(Clone, Copy)]
pub enum TokenView<'a> {
    /// The token as it is.
    Now(&'a TokenSet),
    /// The token with the level, or none, at each byte of the span `span`.
    With {
        token: &'a TokenSet,
        span: Span,
        level: Option<Level>,
    },
}

impl<'a> TokenView<'a> {
    /// Whether some byte of the span conflicts with a lock of the mode on another node. Takes no
    /// memory.
    pub fn conflicts(self, span: Span, mode: Mode) -> bool
        ensures { result ≡ conflicts (viewed self.entry) span mode }
    {
        match self {
            TokenView::Now(token) => token.conflicts(span, mode),
            TokenView::With {
                token,
                span: over,
                level,
            } => conflicts_with(token, over, level, span, mode),
        }
    }

    /// The largest span that contains `required`, lies in `within`, and has no byte that conflicts
    /// with a lock of the mode on another node. Takes no memory.
    pub fn free_around(self, required: Span, within: Span, mode: Mode) -> Span
        requires starts_within { within.lo ≤ required.lo }
        requires ends_within { required.hi ≤ within.hi }
        requires free { NoneIn (λ b. level_conflicts (viewed self b) mode ≡ true) required }
        ensures largest { IsLargest (λ b. level_conflicts (viewed self.entry b) mode ≡ true) required within result }
        ensures value { result ≡ largest_around (λ b. level_conflicts (viewed self.entry b) mode) required within }
    {
        let _ = &required.lo; // tells the proof that the span has a byte
        let _ = &within.lo;
        match self {
            TokenView::Now(token) => token.free_around(required, within, mode),
            TokenView::With {
                token,
                span: over,
                level,
            } => Span {
                lo: lowest_free_with(token, over, level, within.lo, required.lo, mode),
                hi: highest_free_with(token, over, level, required.hi, within.hi, mode),
            },
        }
    }
}

// Whether a byte of that level conflicts with a lock of the mode on another node.
fn is_in_way(level: Option<Level>, mode: Mode) -> bool
    ensures { result ≡ level_conflicts level mode }
{
    match (level, mode) {
        (None, _) | (Some(Level::Shared), Mode::Read) => false,
        _ => true,
    }
}

// Whether some byte of the span conflicts with the mode, where each byte of `over` has the level.
fn conflicts_with(
    token: &TokenSet,
    over: Span,
    level: Option<Level>,
    span: Span,
    mode: Mode,
) -> bool
    ensures { result ≡ conflicts (put (token_of token.now) over level) span mode }
{
    if conflicts_within(over, level, span, mode) {
        return true;
    }
    if conflicts_below(token, over, span, mode) {
        return true;
    }
    conflicts_above(token, over, span, mode)
}

// Whether the span shares a byte with `over`, whose level conflicts with the mode.
fn conflicts_within(over: Span, level: Option<Level>, span: Span, mode: Mode) -> bool
    ensures some { result ≡ true → (b : ℕ) × (over.lo ≤ b) × (b ≤ over.hi) × (span.lo ≤ b) × (b ≤ span.hi) × (level_conflicts level mode ≡ true) }
    ensures none { result ≡ false → (b : ℕ) → over.lo ≤ b → b ≤ over.hi → span.lo ≤ b → b ≤ span.hi → level_conflicts level mode ≡ false }
{
    let _ = &over.lo; // tells the proof that the span has a byte
    let _ = &span.lo;
    if span.hi < over.lo || over.hi < span.lo {
        return false;
    }
    is_in_way(level, mode)
}

// Whether some byte of the span below `over` conflicts with the mode.
fn conflicts_below(token: &TokenSet, over: Span, span: Span, mode: Mode) -> bool
    ensures some { result ≡ true → (b : ℕ) × (b < over.lo) × (span.lo ≤ b) × (b ≤ span.hi) × InWay (token_of token.now) mode b }
    ensures none { result ≡ false → (b : ℕ) → b < over.lo → span.lo ≤ b → b ≤ span.hi → InWay (token_of token.now) mode b → ⊥ }
{
    let _ = &over.lo; // tells the proof that the span has a byte
    let _ = &span.lo;
    if over.lo <= span.lo {
        return false;
    }
    let below = Span {
        lo: span.lo,
        hi: span.hi.min(over.lo - 1),
    };
    token.conflicts(below, mode)
}

// Whether some byte of the span above `over` conflicts with the mode.
fn conflicts_above(token: &TokenSet, over: Span, span: Span, mode: Mode) -> bool
    ensures some { result ≡ true → (b : ℕ) × (over.hi < b) × (span.lo ≤ b) × (b ≤ span.hi) × InWay (token_of token.now) mode b }
    ensures none { result ≡ false → (b : ℕ) → over.hi < b → span.lo ≤ b → b ≤ span.hi → InWay (token_of token.now) mode b → ⊥ }
{
    let _ = &over.lo; // tells the proof that the span has a byte
    let _ = &span.lo;
    if span.hi <= over.hi {
        return false;
    }
    let above = Span {
        lo: span.lo.max(over.hi + 1),
        hi: span.hi,
    };
    token.conflicts(above, mode)
}

// The lowest byte, from `low` on, such that no byte from it on and below `from` conflicts with the
// mode.
fn lowest_free(token: &TokenSet, low: u64, from: u64, mode: Mode) -> u64
    requires order { low ≤ from }
    requires bounded { from ≤ greatest + 1 }
    ensures { IsLowestFree (InWay (token_of token.now) mode) low from result }
{
    if low == from {
        return from;
    }
    let next = Span {
        lo: from - 1,
        hi: from - 1,
    };
    if token.conflicts(next, mode) {
        return from;
    }
    let within = Span {
        lo: low,
        hi: from - 1,
    };
    token.free_around(next, within, mode).lo
}

// The highest byte, up to `high`, such that no byte above `to` and up to it conflicts with the
// mode.
fn highest_free(token: &TokenSet, to: u64, high: u64, mode: Mode) -> u64
    requires order { to ≤ high }
    requires bounded { high ≤ greatest }
    ensures { IsHighestFree (InWay (token_of token.now) mode) to high result }
{
    if to == high {
        return high;
    }
    let next = Span {
        lo: to + 1,
        hi: to + 1,
    };
    if token.conflicts(next, mode) {
        return to;
    }
    let within = Span {
        lo: to + 1,
        hi: high,
    };
    token.free_around(next, within, mode).hi
}

// The lowest byte, from `low` on, such that no byte from it on and below `from` conflicts, where
// each byte of `over` has the level: found above `over`, then in it, then below it.
fn lowest_free_with(
    token: &TokenSet,
    over: Span,
    level: Option<Level>,
    low: u64,
    from: u64,
    mode: Mode,
) -> u64
    requires order { low ≤ from }
    requires bounded { from ≤ greatest }
    ensures { IsLowestFree (InWay (put (token_of token.now) over level) mode) low from result }
{
    let _ = &over.lo; // tells the proof that the span has a byte
    let end = from.min(over.hi + 1).max(low);
    let lowest = lowest_free(token, end, from, mode);
    if lowest > end || end == low {
        return lowest;
    }
    if over.lo < end && is_in_way(level, mode) {
        return end;
    }
    lowest_free(token, low, end.min(over.lo).max(low), mode)
}

// The highest byte, up to `high`, such that no byte above `to` and up to it conflicts, where each
// byte of `over` has the level: found below `over`, then in it, then above it.
fn highest_free_with(
    token: &TokenSet,
    over: Span,
    level: Option<Level>,
    to: u64,
    high: u64,
    mode: Mode,
) -> u64
    requires order { to ≤ high }
    requires bounded { high ≤ greatest }
    ensures { IsHighestFree (InWay (put (token_of token.now) over level) mode) to high result }
{
    let _ = &over.lo; // tells the proof that the span has a byte
    if over.hi <= to {
        return highest_free(token, to, high, mode);
    }
    let end = high.min(over.lo.max(to + 1) - 1);
    let highest = highest_free(token, to, end, mode);
    if highest < end || end == high {
        return highest;
    }
    if is_in_way(level, mode) {
        return end;
    }
    highest_free(token, high.min(over.hi), high, mode)
}
