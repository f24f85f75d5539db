//! The token of one node for one file.
//!
//! Each function here that can fail errs with `AllocError`, where a request for memory was refused,
//! and changes nothing then.
ghost use Rattle.std.specs.Prelude.{◌≡◌, ◌≤◌, ◌<◌, true, false, Some, None, [], IfOk, OnOk, OnErr, IsTrue, ◌↔◌, MatchOption};
ghost use Rattle.intervals.specs.rule.Bytes.{NoneIn, put};
ghost use Rattle.intervals.specs.code.Edits.{written};
ghost use Rattle.model.specs.rule.Locks.{IsRegion};
ghost use Rattle.lock_table.specs.rule.Tables.{held};
ghost use Rattle.token_set.specs.rule.Tokens.{Token, no_token, serves, covers, raised, level_conflicts, token_of, lowered, IsGivenUp, after_giving_up};
ghost use Rattle.token_set.specs.code.Sets.{bar_of, HasLevels, IsFirstExclusive, at_exclusive, NothingFrom, IsNextRun};
ghost use Rattle.token_set.specs.code.Edits.{edited};

use crate::edit::TokenEdit;
use crate::gave_up::GaveUp;
use intervals::span::Span;
use intervals::span_edit::SpanEdit;
use intervals::span_map::SpanMap;
use intervals::tree_map::TreeMap;
use lock_table::lock_table::LockTable;
use model::{Level, Mode};
use std::alloc::{AllocError, Global};
use std::marker::Model;

mod plans;
mod reads;

// The level of each byte, if it has one.
type Levels = TreeMap<Level>;

/// The token of one node for one file: the level of each byte, or none where the node may lock
/// nothing without asking. (Byte-range tokens: Schmuck and Haskin, FAST 2002.)
#[derive(Drop)]
pub struct TokenSet {
    levels: Levels,
    // Whether some byte may be exclusive. If this is false no byte of the token conflicts with a
    // read lock, and none is read to see that.
    may_exclude: bool,
}

impl Model for TokenSet {
    ghost use Rattle.intervals.specs.declared.tree_map.TreeMap.{TreeMap};
    ghost use Rattle.model.specs.declared.level.Level.{Level};

    ghost Value = { TreeMap Level };

    ghost view = { λ t. t.levels };

    ghost use Rattle.std.specs.Prelude.{◌≡◌, false};
    ghost use Rattle.token_set.specs.code.Sets.{ExcludesNone};
    ghost use Rattle.token_set.specs.rule.Tokens.{token_of};

    ghost invariant = { λ t. t.may_exclude ≡ false → ExcludesNone (token_of t.levels) };
}

// The level of the bytes that conflict with a lock of the mode on another node; `None` where bytes
// of any level do.
fn bar_of(mode: Mode) -> Option<Level>
    ensures { result ≡ bar_of mode }
{
    match mode {
        Mode::Read => Some(Level::Exclusive),
        Mode::Write => None,
    }
}

// Whether the level is exclusive.
pub(crate) fn is_exclusive(level: Option<Level>) -> bool
    ensures { result ≡ false → level_conflicts level Mode.Read ≡ false }
{
    match level {
        Some(Level::Exclusive) => true,
        _ => false,
    }
}

// The first run of exclusive bytes in the span.
fn first_exclusive(levels: &Levels, span: Span) -> Option<Span>
    ensures { MatchOption result (NoneIn (λ b. token_of levels.now b ≡ Some Level.Exclusive) span) (IsFirstExclusive (token_of levels.now) span) }
{
    let lo = levels.first_where(span, Some(Level::Exclusive))?;
    let (run, _) = levels.run_at(lo)?;
    Some(Span {
        lo,
        hi: run.hi.min(span.hi),
    })
}

// Gives `level` in `new` to each byte of the span that is exclusive in `levels`.
fn set_exclusive(
    new: &mut Levels,
    levels: &Levels,
    span: Span,
    level: Level,
) -> Result<(), AllocError>
    ensures { OnOk result (token_of new.new ≡ at_exclusive (token_of levels.now) span level (token_of new.old)) }
{
    let mut lo = span.lo;
    while lo <= span.hi {
        let rest = Span { lo, hi: span.hi };
        let Some(exclusive) = first_exclusive(levels, rest) else {
            break;
        };
        new.set(exclusive, level)?;
        lo = exclusive.hi + 1;
    }
    Ok(())
}

// The levels after each byte of the span without a level is raised to shared.
fn shared(levels: &Levels, span: Span) -> Result<Levels, AllocError>
    ensures { IfOk result (λ new. token_of new ≡ raised (token_of levels.now) span Mode.Read) }
{
    let mut new = levels.copy()?;
    new.set(span, Level::Shared)?;
    set_exclusive(&mut new, levels, span, Level::Exclusive)?;
    Ok(new)
}

// The levels after each exclusive byte of the span is lowered to shared.
fn unexclusive(levels: &Levels, span: Span) -> Result<Levels, AllocError>
    ensures { IfOk result (λ new. token_of new ≡ lowered (token_of levels.now) span Mode.Read) }
{
    let mut new = levels.copy()?;
    set_exclusive(&mut new, levels, span, Level::Shared)?;
    Ok(new)
}

// Whether each byte of the span has a level.
fn has_levels(levels: &Levels, span: Span) -> bool
    ensures { IsTrue result ↔ HasLevels (token_of levels.now) span }
{
    let mut lo = span.lo;
    while let Some((run, _)) = levels.run_at(lo) {
        if span.hi <= run.hi {
            return true;
        }
        lo = run.hi + 1;
    }
    false
}

// Whether a byte of that level may be locked in the mode.
fn serves(level: Option<Level>, mode: Mode) -> bool
    ensures { result ≡ serves level mode }
{
    match (level, mode) {
        (None, _) => false,
        (Some(Level::Shared), Mode::Write) => false,
        _ => true,
    }
}

// Whether each byte of the inner span is in the outer one.
fn is_within(inner: Span, outer: Span) -> bool
    ensures { IsTrue result → (outer.lo ≤ inner.lo) × (inner.hi ≤ outer.hi) }
{
    outer.lo <= inner.lo && inner.hi <= outer.hi
}

// Whether the write gives each byte of the span a level that serves the mode.
fn is_served(write: &SpanEdit<Level>, span: Span, mode: Mode) -> bool
    ensures { IsTrue result → (t : Token) → covers (put t write.now.span write.now.value) span mode ≡ true }
{
    is_within(span, write.span) && serves(write.value, mode)
}

// The longest run of one level that contains the lowest byte with a level from `from` on.
fn run_from(levels: &Levels, from: u64) -> Option<(Span, Level)>
    ensures { MatchOption result (NothingFrom (token_of levels.now) from) (λ run. IsNextRun (token_of levels.now) from run.0 run.1) }
{
    let run = levels.next(from)?;
    let span = Span {
        lo: run.lo,
        hi: run.hi,
    };
    Some((span, run.value))
}

impl TokenSet {
    /// The token without bytes.
    pub fn new(alloc: Global) -> Self
        ensures token { token_of result ≡ no_token }
        ensures runs { result ≡ [] }
    {
        TokenSet {
            levels: Levels::new(alloc),
            may_exclude: false,
        }
    }

    // The token with these levels.
    fn of(levels: Levels) -> Self
        ensures { result ≡ levels }
    {
        TokenSet {
            levels,
            may_exclude: true,
        }
    }

    // Makes a planned write. Takes no memory.
    fn write(&mut self, edit: SpanEdit<Level>)
        ensures { token_of self.new ≡ written edit self.old }
    {
        self.may_exclude = self.may_exclude || is_exclusive(edit.value);
        self.levels.apply(edit);
    }

    /// Makes a planned change. Takes no memory.
    pub fn apply(&mut self, edit: TokenEdit)
        ensures { token_of self.new ≡ edited edit self.old }
    {
        match edit {
            TokenEdit::Same => {}
            TokenEdit::Write(edit) => self.write(edit),
            TokenEdit::Whole(token) => *self = token,
        }
    }

    /// Raises each byte of the span: for write to exclusive; for read to shared where it has no
    /// level, so that an exclusive byte stays exclusive.
    pub fn grant(&mut self, span: Span, mode: Mode) -> Result<(), AllocError>
        ensures ok { OnOk result (token_of self.new ≡ raised (token_of self.old) span mode) }
        ensures err { OnErr result (self.new ≡ self.old) }
    {
        let edit = self.plan_grant(span, mode)?;
        self.apply(edit);
        Ok(())
    }

    /// Gives up bytes that a token server revokes for a mode, as far as the node's locks of the
    /// file allow. A write lock is in the way of either mode, a read lock of write. If no lock in
    /// the way reaches into `required`, the largest span that contains `required`, lies in
    /// `desired` and has no byte of a lock in the way is lowered, and `Released` names it. Else the
    /// token stays, and `Conflict` names the lock in the way that reaches into `required`: the one
    /// of the lowest first byte, and among those with one first byte the one of the lowest owner.
    /// (Revocation with required and desired ranges: Schmuck and Haskin, FAST 2002.)
    pub fn give_up(
        &mut self,
        mode: Mode,
        required: Span,
        desired: Span,
        locks: &LockTable,
        file: u16,
    ) -> Result<GaveUp, AllocError>
        requires starts_within { desired.lo ≤ required.lo }
        requires ends_within { required.hi ≤ desired.hi }
        ensures answer { IfOk result (λ answer. IsGivenUp (IsRegion (held locks.now file)) mode required desired answer) }
        ensures token { IfOk result (λ answer. token_of self.new ≡ after_giving_up (token_of self.old) mode answer) }
        ensures err { OnErr result (self.new ≡ self.old) }
    {
        let answer = GaveUp::by_locks(locks, file, mode, required, desired);
        let edit = self.plan_give_up(mode, &answer)?;
        self.apply(edit);
        Ok(answer)
    }

    /// An equal token.
    pub fn copy(&self) -> Result<Self, AllocError>
        ensures { IfOk result (λ copy. copy ≡ self.now) }
    {
        Ok(TokenSet {
            levels: self.levels.copy()?,
            may_exclude: self.may_exclude,
        })
    }

    /// Whether both tokens have the same level at each byte.
    pub fn same(&self, other: &Self) -> bool
        ensures { IsTrue result ↔ (token_of self.now ≡ token_of other.now) }
    {
        self.levels.same(&other.levels)
    }
}
