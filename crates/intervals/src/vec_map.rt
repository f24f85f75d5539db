//! A span map as one sorted vector of runs.
//!
//! Each function here that can fail errs with `AllocError`, where a request for memory was refused.
ghost use Rattle.std.specs.Prelude.{◌≡◌, ◌≤◌, ◌<◌, ◌+◌, ℕ, nat_le, length, [], IfOk, OnOk, OnErr, IsTrue, ◌↔◌, MatchOption, Some, None};
ghost use Rattle.intervals.specs.rule.Bytes.{greatest, nothing, number_of_runs, put, IsBarred, NoneIn, IsFirstIn, IsLargest, IsRun};
ghost use Rattle.intervals.specs.rule.Runs.{bytes_of, value_at};
ghost use Rattle.intervals.specs.code.Edits.{written};

use crate::byte_run::writes::write;
use crate::byte_run::{
    ByteRun, begin_after, begin_below, highest_free, is_barred, lowest_free, split_before,
};
use crate::span::Span;
use crate::span_edit::SpanEdit;
use crate::span_map::{Exact, SpanMap};
use std::alloc::{AllocError, Global};
use std::marker::Model;

/// A map from bytes to values, as a sorted vector of longest runs. A look-up halves the runs until
/// it is at the byte, and then reads only the runs up to the answer. A write finds both ends of its
/// span in the same way and moves the runs behind it once, in place; where the vector has no room
/// all runs move to memory for twice as many.
#[derive(Drop)]
pub struct VecMap<V> {
    runs: Vec<ByteRun<V>>,
}

impl<V> Model for VecMap<V> {
    ghost use Rattle.std.specs.Prelude.{List, ◌+◌};
    ghost use Rattle.intervals.specs.declared.byte_run.ByteRun.{ByteRun};
    ghost use Rattle.intervals.specs.rule.Bytes.{greatest};
    ghost use Rattle.intervals.specs.code.Runs.{AreRuns, EndsBelow};

    ghost Value = { List (ByteRun V) };

    ghost view = { λ m. m.runs.items };

    ghost invariant = { λ m. AreRuns m.runs.items × EndsBelow m.runs.items (greatest + 1) };
}

impl<V: Exact> VecMap<V> {
    /// Plans a write: the value, or none, that each byte of the span gets. `apply` makes it as long
    /// as the map has no more runs than now.
    pub fn plan(&self, span: Span, value: Option<V>) -> Result<SpanEdit<V>, AllocError>
        ensures written { IfOk result (λ edit. written edit self.now ≡ put (value_at self.now) span value) }
        ensures span { IfOk result (λ edit. edit.span ≡ span) }
        ensures value { IfOk result (λ edit. edit.value ≡ value) }
        ensures enough { IfOk result (λ edit. length self.now ≤ edit.runs) }
    {
        let runs = self.runs.len();
        let most = runs.saturating_mul(2).saturating_add(2);
        let alloc = *self.runs.allocator();
        Ok(SpanEdit {
            span,
            value,
            runs,
            room: Vec::with_capacity(alloc, most)?,
            spare: None,
        })
    }

    /// Makes a planned write, and takes no memory. A map of more runs than the edit holds memory
    /// for stays as it is.
    pub fn apply(&mut self, edit: SpanEdit<V>)
        ensures { value_at self.new ≡ written edit self.old }
    {
        let SpanEdit {
            span,
            value,
            runs,
            room,
            spare: _,
        } = edit;
        if self.runs.len() <= runs {
            write(&mut self.runs, room, span, value);
        }
    }

    /// Whether `apply` makes this write: the map has no more runs than the edit holds memory for.
    pub fn fits(&self, edit: &SpanEdit<V>) -> bool
        ensures { result ≡ nat_le (length self.now) edit.now.runs }
    {
        self.runs.len() <= edit.runs
    }

    /// The longest runs of one value, in ascending order.
    pub fn runs(&self) -> &[ByteRun<V>]
        ensures { result.now ≡ self.now }
    {
        &self.runs
    }

    // The run that contains the byte, if the byte has a value.
    fn run_of(&self, byte: u64) -> Option<ByteRun<V>>
        ensures { MatchOption result (value_at self.now byte ≡ None) (λ run. IsRun (value_at self.now) (bytes_of run) run.value × (run.lo ≤ byte) × (byte ≤ run.hi) × (run.hi ≤ greatest)) }
    {
        let (_, rest) = split_before(&self.runs, byte);
        match rest.first() {
            Some(run) if run.lo <= byte => Some(*run),
            _ => None,
        }
    }

    // The value of the byte below `byte`, if there is such a byte and it has a value.
    fn before(&self, byte: u64) -> Option<V>
        ensures first { byte ≡ 0 → result ≡ None }
        ensures other { (b : ℕ) → b + 1 ≡ byte → result ≡ value_at self.now b }
    {
        if byte == 0 {
            return None;
        }
        self.get(byte - 1)
    }

    /// The number of bytes at which a longest run would begin if each byte of the span had the
    /// value, or none. Takes no memory.
    pub fn starts_with(&self, span: Span, value: Option<V>) -> usize
        ensures { result ≡ number_of_runs V.PartialEq.eq (put (value_at self.now) span value) }
    {
        let below = begin_below(&self.runs, span.lo);
        let above = self.runs.len() - begin_below(&self.runs, span.hi + 2);
        let first = begin_after(self.before(span.lo), value);
        let next = begin_after(value, self.get(span.hi + 1));
        below + above + first + next
    }
}

impl<V: Exact> SpanMap<V> for VecMap<V> {
    ghost at = { value_at };

    fn new(alloc: Global) -> Self
        ensures at { value_at result ≡ nothing }
        ensures runs { result ≡ [] }
    {
        VecMap {
            runs: Vec::new(alloc),
        }
    }

    fn set(&mut self, span: Span, value: V) -> Result<(), AllocError> {
        let edit = self.plan(span, Some(value))?;
        self.apply(edit);
        Ok(())
    }

    fn clear(&mut self, span: Span) -> Result<(), AllocError> {
        let edit = self.plan(span, None)?;
        self.apply(edit);
        Ok(())
    }

    fn get(&self, byte: u64) -> Option<V> {
        self.run_of(byte).map(|run| run.value)
    }

    fn is_empty(&self) -> bool {
        self.runs.is_empty()
    }

    fn covers(&self, span: Span, value: V) -> bool {
        match self.run_of(span.lo) {
            Some(run) => span.hi <= run.hi && run.value == value,
            None => false,
        }
    }

    fn first_where(&self, span: Span, bar: Option<V>) -> Option<u64>
        ensures { MatchOption result (NoneIn (IsBarred (value_at self.now) bar) span) (λ b. IsFirstIn (IsBarred (value_at self.now) bar) span b) }
    {
        let (_, rest) = split_before(&self.runs, span.lo);
        for run in rest {
            if run.lo > span.hi {
                break;
            }
            if is_barred(bar, run.value) {
                return Some(run.lo.max(span.lo));
            }
        }
        None
    }

    fn run_at(&self, byte: u64) -> Option<(Span, V)> {
        let run = self.run_of(byte)?;
        Some((
            Span {
                lo: run.lo,
                hi: run.hi,
            },
            run.value,
        ))
    }

    fn starts(&self) -> usize {
        self.runs.len()
    }

    fn largest_around(&self, required: Span, within: Span, bar: Option<V>) -> Span
        requires starts_within { within.lo ≤ required.lo }
        requires ends_within { required.hi ≤ within.hi }
        requires free { NoneIn (IsBarred (value_at self.now) bar) required }
        ensures { IsLargest (IsBarred (value_at self.now) bar) required within result }
    {
        let (below, _) = split_before(&self.runs, required.lo);
        let (_, above) = split_before(&self.runs, required.hi + 1);
        Span {
            lo: lowest_free(below, within.lo, required.lo, bar),
            hi: highest_free(above, required.hi, within.hi, bar),
        }
    }

    // The copy has room for the two more runs that a write can make.
    fn copy(&self) -> Result<Self, AllocError> {
        let most = self.runs.len().saturating_add(2);
        let mut runs = Vec::with_capacity(*self.runs.allocator(), most)?;
        runs.extend_from_slice(&self.runs)?;
        Ok(VecMap { runs })
    }

    fn same(&self, other: &Self) -> bool {
        self.runs == other.runs
    }
}
