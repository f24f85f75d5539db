//! The writes to a row of parts, and the memory that they take.
ghost use Rattle.std.specs.Prelude.{◌≡◌, ◌≤◌, ◌<◌, ◌+◌, ◌-◌, ◌++◌, [], drop, length, ℕ};
ghost use Rattle.std.specs.Vec.{vec_len, vec_capacity};
ghost use Rattle.intervals.specs.rule.Bytes.{greatest, put};
ghost use Rattle.intervals.specs.code.Runs.{AreRuns, EndsBelow};
ghost use Rattle.intervals.specs.rule.Runs.{value_at};
ghost use Rattle.intervals.specs.code.Entries.{BeginAbove};
ghost use Rattle.intervals.specs.code.Parts.{AreSome, row_runs, runs_below, part_at, runs_above, runs_to, IsPut, IsRewritten};

use super::{MOST, Row, Spare, kept_of, make_room};
use crate::byte_run::ByteRun;
use crate::byte_run::writes::splice;
use crate::part::Part;
use crate::span::Span;
use crate::span_map::Exact;
use std::alloc::AllocError;

impl<V: Exact> Row<V> {
    // Memory for one more part, if a write of the span may leave more than `MOST` runs in one part.
    pub(crate) fn spare_for(&self, span: Span) -> Result<Option<Box<Spare<V>>>, AllocError>
        requires runs { AreRuns (row_runs self.now) }
        requires some { AreSome self.now.rest.items }
    {
        if self.rest.is_empty() && self.first.len() <= MOST - 2 {
            return Ok(None);
        }
        let at = self.place(span.lo.saturating_sub(1));
        let to = self.place_from(at, span.hi + 1);
        let mut len = self.part(at).len();
        if at < to {
            len = len.saturating_add(self.part(to).len());
        }
        if len <= MOST - 2 {
            return Ok(None);
        }
        Ok(Some(self.spare(len)?))
    }

    // Memory for one more part, of at least `least` runs.
    fn spare(&self, least: usize) -> Result<Box<Spare<V>>, AllocError> {
        let alloc = *self.rest.allocator();
        let mut places = Vec::new(alloc);
        if self.rest.len() == self.rest.capacity() {
            places = Vec::with_capacity(
                alloc,
                self.rest.len().saturating_mul(2).saturating_add(4),
            )?;
        }
        let part = Part::with_capacity(alloc, MOST.max(least).saturating_add(2))?;
        Ok(Box::new(alloc, Spare { part, places })?)
    }

    // Gives each byte of the span the value, or no value, in the part at place `at`. The result is
    // the number of runs that the part had before and has after. Takes no memory.
    #[inline]
    fn write_part(
        &mut self,
        at: usize,
        room: Vec<ByteRun<V>>,
        span: Span,
        value: Option<V>,
    ) -> (usize, usize)
        requires within { at ≤ vec_len self.old.rest }
        requires empty { room.items ≡ [] }
        requires room { length (part_at self.old at) + length (part_at self.old at) < vec_capacity room }
        requires runs { AreRuns (part_at self.old at) }
        requires bounded { EndsBelow (part_at self.old at) (greatest + 1) }
        requires some { AreSome self.old.rest.items }
        ensures { IsRewritten self.old self.new at 0 span value result.0 result.1 }
    {
        if at == 0 {
            let had = self.first.len();
            self.first.write(room, span, value);
            return (had, self.first.len());
        }
        let had = self.rest[at - 1].len();
        self.rest[at - 1].write(room, span, value);
        let has = self.rest[at - 1].len();
        if has == 0 {
            self.rest.remove(at - 1);
        }
        (had, has)
    }

    // Moves the upper ones of the runs to the spare part, if they are too many for one part and
    // there is a spare one; else the result has no runs. Where it has some, the row has a place for
    // it. Takes no memory.
    fn cut(
        &mut self,
        runs: &mut Vec<ByteRun<V>>,
        spare: Option<Box<Spare<V>>>,
        span: Span,
    ) -> Part<V>
        ensures runs { runs.new.items ++ result ≡ runs.old.items }
        ensures first { self.new.first ≡ self.old.first }
        ensures rest { self.new.rest.items ≡ self.old.rest.items }
        ensures kept { 0 < length result → 0 < vec_len runs.new }
        ensures place { 0 < length result → vec_len self.new.rest < vec_capacity self.new.rest }
    {
        let alloc = *self.rest.allocator();
        if runs.len() <= MOST {
            return Part::new(alloc);
        }
        let Some(spare) = spare else {
            return Part::new(alloc);
        };
        let Spare { part, places } = Box::into_inner(spare);
        make_room(&mut self.rest, places);
        if self.rest.len() == self.rest.capacity() {
            return Part::new(alloc);
        }
        let kept = kept_of(runs, span);
        part.with_rest(runs, kept)
    }

    // Replaces the runs of the part at place `at` and of the `more` parts above it by `runs`. Takes
    // no memory.
    fn put(&mut self, at: usize, more: usize, runs: Vec<ByteRun<V>>)
        requires within { at + more ≤ vec_len self.old.rest }
        requires some { AreSome self.old.rest.items }
        ensures placed { IsPut self.old self.new at more runs.items }
        ensures below { 0 < vec_len runs → runs_to self.new at ≡ runs_below self.old at ++ runs.items }
        ensures above { 0 < vec_len runs → runs_above self.new at ≡ runs_above self.old (at + more) }
        ensures place { 0 < vec_len runs → at ≤ vec_len self.new.rest }
        ensures len { vec_len self.new.rest ≤ vec_len self.old.rest }
        ensures capacity { vec_capacity self.old.rest ≤ vec_capacity self.new.rest }
    {
        drop(self.rest.drain(at..at + more));
        if at == 0 {
            self.first.put(runs);
        } else if runs.is_empty() {
            self.rest.remove(at - 1);
        } else {
            self.rest[at - 1].put(runs);
        }
    }

    // Inserts the part above the one at place `at`, if it has runs. The row has a place for it.
    fn insert(&mut self, at: usize, part: Part<V>)
        requires within { 0 < length part → at ≤ vec_len self.old.rest }
        requires place { 0 < length part → vec_len self.old.rest < vec_capacity self.old.rest }
        requires some { AreSome self.old.rest.items }
        ensures runs { 0 < length part → row_runs self.new ≡ runs_to self.old at ++ (part ++ runs_above self.old at) }
        ensures none { length part ≡ 0 → row_runs self.new ≡ row_runs self.old }
        ensures some { AreSome self.new.rest.items }
    {
        if part.len() == 0 {
            return;
        }
        let Ok(()) = self.rest.insert(at, part) else {
            unreachable!()
        };
    }

    // Gives each byte of the span the value, or no value, in the part at place `at` and the `more`
    // parts above it. The result is the number of runs that these parts had before and have after.
    // Takes no memory.
    fn write_parts(
        &mut self,
        at: usize,
        more: usize,
        span: Span,
        value: Option<V>,
        mut room: Vec<ByteRun<V>>,
        spare: Option<Box<Spare<V>>>,
    ) -> (usize, usize)
        requires within { at + more ≤ vec_len self.old.rest }
        requires runs { AreRuns (row_runs self.old) }
        requires bounded { EndsBelow (row_runs self.old) (greatest + 1) }
        requires some { AreSome self.old.rest.items }
        requires ended { EndsBelow (runs_below self.old (at + more)) (span.hi + 1) }
        requires above { BeginAbove (runs_above self.old at) (span.lo - 1) }
        requires empty { room.items ≡ [] }
        requires room { length (row_runs self.old) + length (row_runs self.old) < vec_capacity room }
        ensures { IsRewritten self.old self.new at more span value result.0 result.1 }
    {
        let had = self.count(at, more);
        splice(&mut room, self.part(at), self.part(at + more), span, value);
        let has = room.len();
        let upper = self.cut(&mut room, spare, span);
        self.put(at, more, room);
        self.insert(at, upper);
        (had, has)
    }

    // Gives each byte of the span the value, or no value: in one part where that stays small, else
    // in all parts near the span, one of which may be cut with the spare memory. The result is the
    // number of runs that these parts had before and have after. Takes no memory.
    #[inline]
    pub(crate) fn write(
        &mut self,
        span: Span,
        value: Option<V>,
        room: Vec<ByteRun<V>>,
        spare: Option<Box<Spare<V>>>,
    ) -> (usize, usize)
        requires runs { AreRuns (row_runs self.old) }
        requires bounded { EndsBelow (row_runs self.old) (greatest + 1) }
        requires some { AreSome self.old.rest.items }
        requires empty { room.items ≡ [] }
        requires room { length (row_runs self.old) + length (row_runs self.old) < vec_capacity room }
        ensures runs { AreRuns (row_runs self.new) }
        ensures bounded { EndsBelow (row_runs self.new) (greatest + 1) }
        ensures some { AreSome self.new.rest.items }
        ensures bytes { (b : ℕ) → value_at (row_runs self.new) b ≡ put (value_at (row_runs self.old)) span value b }
        ensures had { result.0 ≤ length (row_runs self.old) }
        ensures count { length (row_runs self.new) + result.0 ≡ length (row_runs self.old) + result.1 }
    {
        let at = self.place(span.lo.saturating_sub(1));
        let to = self.place_from(at, span.hi + 1);
        if at == to && self.part(at).len() <= MOST - 2 {
            return self.write_part(at, room, span, value);
        }
        self.write_parts(at, to - at, span, value, room, spare)
    }
}
