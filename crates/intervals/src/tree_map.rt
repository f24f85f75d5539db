//! A span map as a row of small sorted vectors of runs.
//!
//! Each function here that can fail errs with `AllocError`, where a request for memory was refused.
ghost use Rattle.std.specs.Prelude.{◌≡◌, ◌≤◌, ◌+◌, ℕ, nat_le, length, None, [], IfOk, MatchOption};
ghost use Rattle.intervals.specs.rule.Bytes.{greatest, nothing, number_of_runs, put, IsRun, IsBarred, NoneIn, IsFirstIn, IsLargest};
ghost use Rattle.intervals.specs.rule.Runs.{bytes_of, value_at};
ghost use Rattle.intervals.specs.code.Edits.{written};
ghost use Rattle.intervals.specs.code.Entries.{NoneFrom, IsNext};

use crate::byte_run::{ByteRun, begin_after, is_barred, split_before};
use crate::row::{Row, next_of};
use crate::span::Span;
use crate::span_edit::SpanEdit;
use crate::span_map::{Exact, SpanMap};
use std::alloc::{AllocError, Global};
use std::marker::Model;

mod around;

// A write of a map of at least so many runs takes memory for a multiple of this number.
const MANY: usize = 1024;

/// A map from bytes to values, as a row of sorted vectors of longest runs, of 64 runs at most if
/// memory allows. A look-up halves the row, and then one vector, until it is at the byte, unless
/// that is at an end of them. A write finds both ends of its span in the same way and moves only the
/// runs behind it in its own vector. A vector with more than 64 runs is cut in two if the planned
/// write holds memory for that.
#[derive(Drop)]
pub struct TreeMap<V> {
    row: Row<V>,
    starts: usize,
}

impl<V> Model for TreeMap<V> {
    ghost use Rattle.std.specs.Prelude.{◌≡◌, List, ◌+◌, length};
    ghost use Rattle.intervals.specs.declared.byte_run.ByteRun.{ByteRun};
    ghost use Rattle.intervals.specs.rule.Bytes.{greatest};
    ghost use Rattle.intervals.specs.code.Runs.{AreRuns, EndsBelow};
    ghost use Rattle.intervals.specs.code.Parts.{row_runs, AreSome};

    ghost Value = { List (ByteRun V) };

    ghost view = { λ m. row_runs m.row };

    ghost invariant = { λ m. AreRuns (row_runs m.row) × EndsBelow (row_runs m.row) (greatest + 1) × AreSome m.row.rest.items × (m.starts ≡ length (row_runs m.row)) };
}

// The number of runs for which a write of a map of `runs` runs takes memory. It is rounded up, so
// that the size of the request seldom changes as a map grows.
fn rounded(runs: usize) -> usize
    ensures { runs ≤ result }
{
    if runs < MANY {
        return runs;
    }
    runs.saturating_add(MANY - runs % MANY)
}

impl<V: Exact> TreeMap<V> {
    /// Plans a write: the value, or none, that each byte of the span gets. `apply` makes it as long
    /// as the map has no more runs than now.
    pub fn plan(&self, span: Span, value: Option<V>) -> Result<SpanEdit<V>, AllocError>
        ensures written { IfOk result (λ edit. written edit self.now ≡ put (value_at self.now) span value) }
        ensures span { IfOk result (λ edit. edit.span ≡ span) }
        ensures value { IfOk result (λ edit. edit.value ≡ value) }
        ensures enough { IfOk result (λ edit. length self.now ≤ edit.runs) }
    {
        let runs = self.starts;
        let most = rounded(runs).saturating_mul(2).saturating_add(2);
        let alloc = *self.row.rest.allocator();
        Ok(SpanEdit {
            span,
            value,
            runs,
            room: Vec::with_capacity(alloc, most)?,
            spare: self.row.spare_for(span)?,
        })
    }

    /// Whether `apply` makes this write: the map has no more runs than the edit holds memory for.
    pub fn fits(&self, edit: &SpanEdit<V>) -> bool
        ensures { result ≡ nat_le (length self.now) edit.now.runs }
    {
        self.starts <= edit.runs
    }

    /// Makes a planned write, and takes no memory. A map of more runs than the edit holds memory
    /// for stays as it is.
    pub fn apply(&mut self, edit: SpanEdit<V>)
        ensures { value_at self.new ≡ written edit self.old }
    {
        if self.starts > edit.runs {
            return;
        }
        let SpanEdit {
            span,
            value,
            runs: _,
            room,
            spare,
        } = edit;
        let (had, has) = self.row.write(span, value, room, spare);
        self.starts = self.starts - had + has;
    }

    // The run that contains the byte, if the byte has a value.
    #[inline]
    fn run_of(&self, byte: u64) -> Option<ByteRun<V>>
        ensures { MatchOption result (value_at self.now byte ≡ None) (λ run. IsRun (value_at self.now) (bytes_of run) run.value × (run.lo ≤ byte) × (byte ≤ run.hi) × (run.hi ≤ greatest)) }
    {
        let at = self.row.place(byte);
        let (_, runs) = split_before(self.row.part(at), byte);
        match runs.split_first() {
            Some((run, _)) if run.lo <= byte => Some(*run),
            _ => None,
        }
    }

    /// The first run that ends at the byte or above.
    pub fn next(&self, byte: u64) -> Option<ByteRun<V>>
        ensures { MatchOption result (NoneFrom (value_at self.now) byte) (IsNext (value_at self.now) byte) }
    {
        let at = self.row.place(byte);
        let (_, runs) = split_before(self.row.part(at), byte);
        match next_of(runs, self.row.above(at)) {
            Some((run, _, _)) => Some(run),
            None => None,
        }
    }

    // The value of the byte below `byte`, if there is such a byte and it has a value.
    fn before(&self, byte: u64) -> Option<V>
        ensures first { byte ≡ 0 → result ≡ None }
        ensures other { (b : ℕ) → b + 1 ≡ byte → result ≡ value_at self.now b }
    {
        if byte == 0 {
            return None;
        }
        self.get(byte - 1)
    }

    /// The number of bytes at which a longest run would begin if each byte of the span had the
    /// value, or none. Takes no memory, and reads only the vectors around the span.
    pub fn starts_with(&self, span: Span, value: Option<V>) -> usize
        ensures { result ≡ number_of_runs V.PartialEq.eq (put (value_at self.now) span value) }
    {
        let within = self.row.begin_within(span.lo, span.hi + 2);
        let first = begin_after(self.before(span.lo), value);
        let next = begin_after(value, self.get(span.hi + 1));
        self.starts - within + first + next
    }

    /// Whether at most `most` longest runs would begin if each byte of the span had the value, or
    /// none. Takes no memory. A write makes at most two more begin, so no run is read where the map
    /// has two fewer than `most`.
    #[inline]
    pub fn stays_within(&self, span: Span, value: Option<V>, most: usize) -> bool
        ensures { result ≡ nat_le (number_of_runs V.PartialEq.eq (put (value_at self.now) span value)) most }
    {
        let _ = &span.lo; // tells the proof that the span has a byte
        if self.starts + 2 <= most {
            return true;
        }
        self.starts_with(span, value) <= most
    }
}

impl<V: Exact> SpanMap<V> for TreeMap<V> {
    ghost at = { value_at };

    fn new(alloc: Global) -> Self
        ensures at { value_at result ≡ nothing }
        ensures runs { result ≡ [] }
    {
        TreeMap {
            row: Row::new(alloc),
            starts: 0,
        }
    }

    fn set(&mut self, span: Span, value: V) -> Result<(), AllocError> {
        let edit = self.plan(span, Some(value))?;
        self.apply(edit);
        Ok(())
    }

    fn clear(&mut self, span: Span) -> Result<(), AllocError> {
        let edit = self.plan(span, None)?;
        self.apply(edit);
        Ok(())
    }

    fn get(&self, byte: u64) -> Option<V> {
        self.run_of(byte).map(|run| run.value)
    }

    fn is_empty(&self) -> bool {
        self.starts == 0
    }

    fn covers(&self, span: Span, value: V) -> bool {
        match self.run_of(span.lo) {
            Some(run) => span.hi <= run.hi && run.value == value,
            None => false,
        }
    }

    fn first_where(&self, span: Span, bar: Option<V>) -> Option<u64>
        ensures { MatchOption result (NoneIn (IsBarred (value_at self.now) bar) span) (λ b. IsFirstIn (IsBarred (value_at self.now) bar) span b) }
    {
        let at = self.row.place(span.lo);
        let (_, mut runs) = split_before(self.row.part(at), span.lo);
        let mut parts = self.row.above(at);
        while let Some((run, more, later)) = next_of(runs, parts) {
            if run.lo > span.hi {
                break;
            }
            if is_barred(bar, run.value) {
                return Some(run.lo.max(span.lo));
            }
            runs = more;
            parts = later;
        }
        None
    }

    fn run_at(&self, byte: u64) -> Option<(Span, V)> {
        let run = self.run_of(byte)?;
        Some((
            Span {
                lo: run.lo,
                hi: run.hi,
            },
            run.value,
        ))
    }

    fn starts(&self) -> usize {
        self.starts
    }

    fn largest_around(&self, required: Span, within: Span, bar: Option<V>) -> Span
        requires starts_within { within.lo ≤ required.lo }
        requires ends_within { required.hi ≤ within.hi }
        requires free { NoneIn (IsBarred (value_at self.now) bar) required }
        ensures { IsLargest (IsBarred (value_at self.now) bar) required within result }
    {
        Span {
            lo: self.lowest_free(within.lo, required.lo, bar),
            hi: self.highest_free(required.hi, within.hi, bar),
        }
    }

    fn copy(&self) -> Result<Self, AllocError> {
        Ok(TreeMap {
            row: self.row.copy()?,
            starts: self.starts,
        })
    }

    fn same(&self, other: &Self) -> bool {
        self.row.same(&other.row)
    }
}
