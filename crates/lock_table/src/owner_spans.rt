//! The bytes that one owner holds in one file.
//!
//! Each function here that can fail errs with `AllocError`, where a request for memory was refused.
ghost use Rattle.std.specs.Prelude.{◌≡◌, ◌≤◌, ◌<◌, ◌↔◌, ℕ, nat_le, length, None, [], IfOk, IsTrue, MatchOption};
ghost use Rattle.intervals.specs.rule.Bytes.{greatest, nothing, put, IsBarred, IsFirstIn, IsLargest, IsRun, NoneIn};
ghost use Rattle.intervals.specs.rule.Runs.{value_at};
ghost use Rattle.intervals.specs.code.Edits.{written};
ghost use Rattle.intervals.specs.code.Entries.{NoneFrom, IsNext};
ghost use Rattle.model.specs.rule.Locks.{regions};

use intervals::byte_run::ByteRun;
use intervals::span::Span;
use intervals::span_edit::SpanEdit;
use intervals::span_map::SpanMap;
use intervals::tree_map::TreeMap;
use model::Mode;
use std::alloc::{AllocError, Global};
use std::marker::Model;

/// The bytes that one owner holds in one file, each with its mode. If the owner never set a write
/// lock there, a search for exclusive bytes reads nothing.
#[derive(Drop)]
pub(crate) struct OwnerSpans {
    spans: TreeMap<Mode>,
    // No byte is exclusive. When the last exclusive byte is freed, this stays false.
    is_shared: bool,
}

impl Model for OwnerSpans {
    ghost use Rattle.std.specs.Prelude.{◌≡◌, List, true};
    ghost use Rattle.intervals.specs.declared.byte_run.ByteRun.{ByteRun};
    ghost use Rattle.model.specs.declared.mode.Mode.{Mode as SomeMode};
    ghost use Rattle.intervals.specs.rule.Runs.{value_at};
    ghost use Rattle.lock_table.specs.code.SharedSpans.{IsShared};

    ghost Value = { List (ByteRun SomeMode) };

    ghost view = { λ s. s.spans };

    ghost invariant = { λ s. s.is_shared ≡ true → IsShared (value_at s.spans) };
}

impl OwnerSpans {
    /// No bytes. It takes no memory.
    pub(crate) fn new(alloc: Global) -> Self
        ensures at { value_at result ≡ nothing }
        ensures runs { result ≡ [] }
    {
        OwnerSpans {
            spans: TreeMap::new(alloc),
            is_shared: true,
        }
    }

    /// An equal value.
    pub(crate) fn copy(&self) -> Result<Self, AllocError>
        ensures { IfOk result (λ copy. copy ≡ self.now) }
    {
        Ok(OwnerSpans {
            spans: self.spans.copy()?,
            is_shared: self.is_shared,
        })
    }

    /// Whether both have the same bytes in the same modes.
    pub(crate) fn same(&self, other: &Self) -> bool
        ensures { IsTrue result ↔ (value_at self.now ≡ value_at other.now) }
    {
        self.spans.same(&other.spans)
    }

    /// Whether no byte is held.
    pub(crate) fn is_empty(&self) -> bool
        ensures empty { IsTrue result ↔ (value_at self.now ≡ nothing) }
        ensures bounded { (b : ℕ) → greatest < b → value_at self.now b ≡ None }
    {
        self.spans.is_empty()
    }

    /// The longest run of bytes in one mode that contains the byte; `None` where the byte isn't
    /// held.
    pub(crate) fn run_at(&self, byte: u64) -> Option<(Span, Mode)>
        ensures { MatchOption result (value_at self.now byte ≡ None) (λ run. IsRun (value_at self.now) run.0 run.1 × (run.0.lo ≤ byte) × (byte ≤ run.0.hi)) }
    {
        self.spans.run_at(byte)
    }

    /// The first run that ends at the byte or above it.
    pub(crate) fn next(&self, byte: u64) -> Option<ByteRun<Mode>>
        ensures { MatchOption result (NoneFrom (value_at self.now) byte) (IsNext (value_at self.now) byte) }
    {
        self.spans.next(byte)
    }

    /// Whether there are at most `most` regions with the span set to the mode, or freed.
    pub(crate) fn stays_within(&self, span: Span, mode: Option<Mode>, most: usize) -> bool
        ensures { result ≡ nat_le (regions (put (value_at self.now) span mode)) most }
    {
        self.spans.stays_within(span, mode, most)
    }

    /// Whether no byte has the mode `bar` (with `None`: any mode), as far as is known without
    /// reading the bytes.
    pub(crate) fn is_free_of(&self, bar: Option<Mode>) -> bool
        ensures { IsTrue result → (b : ℕ) → IsBarred (value_at self.now) bar b → ⊥ }
    {
        self.is_shared && bar == Some(Mode::Write)
    }

    /// The first byte of the span that has the mode `bar`; with `bar` `None`, that has any mode.
    pub(crate) fn first_where(&self, span: Span, bar: Option<Mode>) -> Option<u64>
        ensures { MatchOption result (NoneIn (IsBarred (value_at self.now) bar) span) (λ b. IsFirstIn (IsBarred (value_at self.now) bar) span b) }
    {
        if self.is_free_of(bar) {
            return None;
        }
        self.spans.first_where(span, bar)
    }

    /// The largest span that contains `required`, lies in `within`, and has no byte in the mode
    /// `bar`; with `bar` `None`, no byte in any mode.
    pub(crate) fn largest_around(&self, required: Span, within: Span, bar: Option<Mode>) -> Span
        requires starts_within { within.lo ≤ required.lo }
        requires ends_within { required.hi ≤ within.hi }
        requires free { NoneIn (IsBarred (value_at self.now) bar) required }
        ensures { IsLargest (IsBarred (value_at self.now) bar) required within result }
    {
        if self.is_free_of(bar) {
            return within;
        }
        self.spans.largest_around(required, within, bar)
    }

    /// Plans a write: the mode, or none, that each byte of the span gets. `apply` makes it as long
    /// as there are no more runs than now.
    pub(crate) fn plan(&self, span: Span, mode: Option<Mode>) -> Result<SpanEdit<Mode>, AllocError>
        ensures span { IfOk result (λ edit. edit.span ≡ span) }
        ensures value { IfOk result (λ edit. edit.value ≡ mode) }
        ensures enough { IfOk result (λ edit. length self.now ≤ edit.runs) }
    {
        self.spans.plan(span, mode)
    }

    /// Makes a planned write, and takes no memory. If there are more runs than the edit holds
    /// memory for, nothing changes.
    pub(crate) fn apply(&mut self, edit: SpanEdit<Mode>)
        ensures { value_at self.new ≡ written edit self.old }
    {
        if edit.value == Some(Mode::Write) {
            self.is_shared = false;
        }
        self.spans.apply(edit);
    }
}
