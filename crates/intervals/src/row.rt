//! A row: all runs of a map, as parts of a limited size in ascending order.
ghost use Rattle.std.specs.Prelude.{◌≡◌, true, ◌≤◌, ◌<◌, ◌+◌, ◌-◌, ◌++◌, ◌↔◌, [], ◌∷◌, drop, length, IfOk, IfSome, IsTrue, MatchOption};
ghost use Rattle.std.specs.Vec.{vec_len};
ghost use Rattle.intervals.specs.rule.Bytes.{greatest, starts_below};
ghost use Rattle.intervals.specs.code.Runs.{AreRuns, EndsBelow};
ghost use Rattle.intervals.specs.rule.Runs.{value_at};
ghost use Rattle.intervals.specs.code.Entries.{BeginAbove};
ghost use Rattle.intervals.specs.code.Parts.{all_runs, AreSome, BeginsTo, row_runs, runs_below, part_at, runs_above, runs_within};

use crate::byte_run::{ByteRun, begin_below};
use crate::part::Part;
use crate::span::Span;
use crate::span_map::Exact;
use std::alloc::{AllocError, Global};

mod writes;

// The greatest number of runs in a part: a part of more runs is cut in two.
pub(crate) const MOST: usize = 64;

/// A row of parts. The first part may have no runs, each other part has some.
#[derive(Drop)]
pub(crate) struct Row<V> {
    pub(crate) first: Part<V>,
    pub(crate) rest: Vec<Part<V>>,
}

/// Memory for one more part of a row: a part, and places for all parts in case the row has no place
/// left.
#[derive(Drop)]
pub(crate) struct Spare<V> {
    part: Part<V>,
    places: Vec<Part<V>>,
}

// The number of the parts that begin at the byte or below it. Found by halving, unless the last part
// does.
#[inline(never)]
fn begin_to<V: Exact>(parts: &[Part<V>], byte: u64) -> usize
    requires runs { AreRuns (all_runs parts.now) }
    requires some { AreSome parts.now }
    ensures within { result ≤ length parts.now }
    ensures begins { 0 < result → BeginsTo (all_runs (drop (result - 1) parts.now)) byte }
    ensures above { BeginAbove (all_runs (drop result parts.now)) byte }
{
    match parts.last() {
        Some(part) if part.first() <= byte => parts.len(),
        _ => parts.partition_point(|part| part.first() <= byte),
    }
}

// The first run of `runs` and then of `parts`, with the runs and parts behind it.
#[inline]
pub(crate) fn next_of<'a, V: Exact>(
    runs: &'a [ByteRun<V>],
    parts: &'a [Part<V>],
) -> Option<(ByteRun<V>, &'a [ByteRun<V>], &'a [Part<V>])>
    requires { AreSome parts.now }
    ensures next { MatchOption result (runs.now ++ all_runs parts.now ≡ []) (λ x. runs.now ++ all_runs parts.now ≡ x.0 ∷ (x.1.now ++ all_runs x.2.now)) }
    ensures some { IfSome result (λ x. AreSome x.2.now) }
{
    if let Some((run, rest)) = runs.split_first() {
        return Some((*run, rest, parts));
    }
    let (part, later) = parts.split_first()?;
    let (run, rest) = part.runs().split_first()?;
    Some((*run, rest, later))
}

// Moves the row to `room` if the row has no place for one more part and `room` has one.
fn make_room<V: Exact>(row: &mut Vec<Part<V>>, mut room: Vec<Part<V>>)
    ensures { row.new.items ≡ row.old.items }
{
    if row.len() < row.capacity() || room.capacity() <= row.len() {
        return;
    }
    room.clear();
    let Ok(()) = room.append(row) else {
        unreachable!()
    };
    *row = room;
}

// Of runs that are too many for one part: how many stay in the lower one. It is half of them; one
// eighth where the write was at their lower end, and seven eighths where it was at their upper end,
// so that parts are full where runs are written in order.
fn kept_of<V: Exact>(runs: &[ByteRun<V>], span: Span) -> usize
    requires { 64 < length runs.now }
    ensures some { 0 < result }
    ensures within { result ≤ length runs.now }
{
    let len = runs.len();
    match (runs.first(), runs.last()) {
        (Some(run), _) if span.lo <= run.lo => len / 8,
        (_, Some(run)) if run.hi <= span.hi => len - len / 8,
        _ => len / 2,
    }
}

// Whether both lists have the same runs in the same order.
fn are_same<V: Exact>(runs: &[ByteRun<V>], others: &[ByteRun<V>]) -> bool
    ensures { result ≡ true → runs.now ≡ others.now }
{
    runs == others
}

// Whether both lists of parts have the same runs in the same parts.
fn are_same_parts<V: Exact>(parts: &[Part<V>], others: &[Part<V>]) -> bool
    ensures { result ≡ true → parts.now ≡ others.now }
{
    if parts.len() != others.len() {
        return false;
    }
    for i in 0..parts.len() {
        if !are_same(parts[i].runs(), others[i].runs()) {
            return false;
        }
    }
    true
}

// Equal parts, each with room for at least `least` runs.
fn copies<V: Exact>(
    alloc: Global,
    parts: &[Part<V>],
    least: usize,
) -> Result<Vec<Part<V>>, AllocError>
    ensures { IfOk result (λ copies. copies.items ≡ parts.now) }
{
    let mut copies = Vec::with_capacity(alloc, parts.len())?;
    for part in parts {
        copies.push(part.copy(alloc, least)?)?;
    }
    Ok(copies)
}

impl<V: Exact> Row<V> {
    // A row without runs. It takes no memory.
    pub(crate) fn new(alloc: Global) -> Row<V>
        ensures first { result.first ≡ [] }
        ensures rest { result.rest.items ≡ [] }
    {
        Row {
            first: Part::new(alloc),
            rest: Vec::new(alloc),
        }
    }

    // An equal row. A row of one part is copied with no more room than its runs take and two more.
    pub(crate) fn copy(&self) -> Result<Row<V>, AllocError>
        ensures first { IfOk result (λ copy. copy.first ≡ self.now.first) }
        ensures rest { IfOk result (λ copy. copy.rest.items ≡ self.now.rest.items) }
    {
        let alloc = *self.rest.allocator();
        let least = if self.rest.is_empty() { 0 } else { MOST + 2 };
        Ok(Row {
            first: self.first.copy(alloc, least)?,
            rest: copies(alloc, &self.rest, least)?,
        })
    }

    // Whether both rows have the same runs in the same parts, which rows have that were written
    // alike.
    fn is_alike(&self, other: &Row<V>) -> bool
        ensures { result ≡ true → row_runs self.now ≡ row_runs other.now }
    {
        are_same(self.first.runs(), other.first.runs()) && are_same_parts(&self.rest, &other.rest)
    }

    // Whether both rows have the same runs, in whichever parts.
    pub(crate) fn same(&self, other: &Row<V>) -> bool
        requires some { AreSome self.now.rest.items }
        requires other { AreSome other.now.rest.items }
        ensures { IsTrue result ↔ (row_runs self.now ≡ row_runs other.now) }
    {
        self.is_alike(other) || self.has_runs_of(other)
    }

    // Whether both rows have the same runs, in whichever parts, found by reading them side by side.
    fn has_runs_of(&self, other: &Row<V>) -> bool
        requires some { AreSome self.now.rest.items }
        requires other { AreSome other.now.rest.items }
        ensures { IsTrue result ↔ (row_runs self.now ≡ row_runs other.now) }
    {
        let (mut runs, mut parts) = (self.first.runs(), self.rest.as_slice());
        let (mut others, mut behind) = (other.first.runs(), other.rest.as_slice());
        while let Some((run, more, later)) = next_of(runs, parts) {
            let Some((twin, rest, last)) = next_of(others, behind) else {
                return false;
            };
            if twin != run {
                return false;
            }
            (runs, parts) = (more, later);
            (others, behind) = (rest, last);
        }
        match next_of(others, behind) {
            Some(_) => false,
            None => true,
        }
    }

    // The place of the last part that begins at the byte or below it, or 0, the place of the first
    // part.
    #[inline(always)]
    pub(crate) fn place(&self, byte: u64) -> usize
        requires runs { AreRuns (row_runs self.now) }
        requires some { AreSome self.now.rest.items }
        ensures within { result ≤ vec_len self.now.rest }
        ensures ended { EndsBelow (runs_below self.now result) byte }
        ensures begins { 0 < result → BeginsTo (runs_above self.now (result - 1)) byte }
        ensures above { BeginAbove (runs_above self.now result) byte }
    {
        match self.rest.split_first() {
            Some((part, _)) if part.first() <= byte => begin_to(&self.rest, byte),
            _ => 0,
        }
    }

    // The place that `place` gives, where `from` is the one of a lower byte. If the part above that
    // one begins above the byte, it is the same, and nothing is halved.
    #[inline(always)]
    pub(crate) fn place_from(&self, from: usize, byte: u64) -> usize
        requires within { from ≤ vec_len self.now.rest }
        requires ended { EndsBelow (runs_below self.now from) byte }
        requires runs { AreRuns (row_runs self.now) }
        requires some { AreSome self.now.rest.items }
        ensures within { result ≤ vec_len self.now.rest }
        ensures ended { EndsBelow (runs_below self.now result) byte }
        ensures above { BeginAbove (runs_above self.now result) byte }
    {
        match self.above(from).split_first() {
            Some((part, _)) if part.first() <= byte => self.place(byte),
            _ => from,
        }
    }

    // The runs of the part at place `at`.
    #[inline(always)]
    pub(crate) fn part(&self, at: usize) -> &[ByteRun<V>]
        requires { at ≤ vec_len self.now.rest }
        ensures { result.now ≡ part_at self.now at }
    {
        if at == 0 {
            return self.first.runs();
        }
        self.rest[at - 1].runs()
    }

    // The parts above the one at place `at`.
    #[inline]
    pub(crate) fn above(&self, at: usize) -> &[Part<V>]
        requires { at ≤ vec_len self.now.rest }
        ensures { result.now ≡ drop at self.now.rest.items }
    {
        let (_, above) = self.rest.split_at(at);
        above
    }

    // The number of runs that begin at `lo` or above and below `hi`.
    pub(crate) fn begin_within(&self, lo: u64, hi: u64) -> usize
        requires order { lo ≤ hi }
        requires runs { AreRuns (row_runs self.now) }
        requires bounded { EndsBelow (row_runs self.now) (greatest + 1) }
        requires some { AreSome self.now.rest.items }
        ensures count { starts_below V.PartialEq.eq (value_at (row_runs self.now)) lo + result ≡ starts_below V.PartialEq.eq (value_at (row_runs self.now)) hi }
        ensures within { starts_below V.PartialEq.eq (value_at (row_runs self.now)) hi ≤ length (row_runs self.now) }
    {
        let at = self.place(lo);
        let near = self.part(at);
        let above = self.above(at);
        let mut count = begin_below(near, hi) - begin_below(near, lo);
        for part in above {
            if part.first() >= hi {
                break;
            }
            count += begin_below(part.runs(), hi);
        }
        count
    }

    // The number of runs in the part at place `at` and the `more` parts above it.
    fn count(&self, at: usize, more: usize) -> usize
        requires within { at + more ≤ vec_len self.now.rest }
        requires few { length (row_runs self.now) ≤ greatest + 1 }
        ensures { result ≡ length (runs_within self.now at more) }
    {
        let (near, _) = self.above(at).split_at(more);
        let mut count = self.part(at).len();
        for part in near {
            count += part.len();
        }
        count
    }
}
