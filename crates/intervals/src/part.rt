//! A part of a row: a sorted vector of runs with the byte at which its first run begins.
ghost use Rattle.std.specs.Prelude.{◌≡◌, ◌≤◌, ◌<◌, ◌+◌, ◌++◌, [], ℕ, ◌==◌, length, IfOk};
ghost use Rattle.std.specs.Vec.{vec_len, vec_capacity};
ghost use Rattle.intervals.specs.rule.Bytes.{greatest, put};
ghost use Rattle.intervals.specs.code.Runs.{begins_at, AreRuns, EndsBelow};
ghost use Rattle.intervals.specs.rule.Runs.{value_at};

use crate::byte_run::ByteRun;
use crate::byte_run::writes::{append_all, write};
use crate::span::Span;
use crate::span_map::Exact;
use std::alloc::{AllocError, Global};
use std::marker::Model;

/// Some of a map's runs, as a sorted vector, with the byte at which the first of them begins. A
/// search over the parts of a row compares these bytes and reads no run.
#[derive(Drop)]
pub(crate) struct Part<V> {
    first: u64,
    runs: Vec<ByteRun<V>>,
}

// The byte at which the first of the runs begins; 0 where there is no run.
#[inline(always)]
fn first_of<V: Exact>(runs: &[ByteRun<V>]) -> u64
    ensures { result ≡ begins_at runs.now }
{
    match runs.first() {
        Some(run) => run.lo,
        None => 0,
    }
}

impl<V> Model for Part<V> {
    ghost use Rattle.std.specs.Prelude.{◌≡◌, List};
    ghost use Rattle.intervals.specs.declared.byte_run.ByteRun.{ByteRun};
    ghost use Rattle.intervals.specs.code.Runs.{begins_at};

    ghost Value = { List (ByteRun V) };

    ghost view = { λ m. m.runs.items };

    ghost invariant = { λ m. m.first ≡ begins_at m.runs.items };
}

impl<V: Exact> Part<V> {
    // A part without runs. It takes no memory.
    pub(crate) fn new(alloc: Global) -> Part<V>
        ensures { result ≡ [] }
    {
        Part {
            first: 0,
            runs: Vec::new(alloc),
        }
    }

    // A part without runs, with room for `most` of them.
    pub(crate) fn with_capacity(alloc: Global, most: usize) -> Result<Part<V>, AllocError>
        ensures { IfOk result (λ part. part ≡ []) }
    {
        Ok(Part {
            first: 0,
            runs: Vec::with_capacity(alloc, most)?,
        })
    }

    // The runs of the part, in ascending order.
    #[inline(always)]
    pub(crate) fn runs(&self) -> &[ByteRun<V>]
        ensures { result.now ≡ self.now }
    {
        &self.runs
    }

    // The number of runs in the part.
    #[inline(always)]
    pub(crate) fn len(&self) -> usize
        ensures { result ≡ length self.now }
    {
        self.runs.len()
    }

    // The byte at which the first run of the part begins; 0 where the part has no run.
    #[inline(always)]
    pub(crate) fn first(&self) -> u64
        ensures { result ≡ begins_at self.now }
    {
        self.first
    }

    // Gives each byte of the span the value, or no value, by `run::write`.
    #[inline]
    pub(crate) fn write(&mut self, room: Vec<ByteRun<V>>, span: Span, value: Option<V>)
        requires empty { room.items ≡ [] }
        requires room { length self.old + length self.old < vec_capacity room }
        requires runs { AreRuns self.old }
        requires bounded { EndsBelow self.old (greatest + 1) }
        ensures runs { AreRuns self.new }
        ensures bounded { EndsBelow self.new (greatest + 1) }
        ensures bytes { (b : ℕ) → value_at self.new b ≡ put (value_at self.old) span value b }
    {
        write(&mut self.runs, room, span, value);
        self.first = first_of(&self.runs);
    }

    // Replaces the runs of the part. Where its own memory has room for the new runs they are moved
    // there. Takes no memory.
    pub(crate) fn put(&mut self, mut runs: Vec<ByteRun<V>>)
        ensures { self.new ≡ runs.items }
    {
        self.first = first_of(&runs);
        if runs.len() > self.runs.capacity() {
            self.runs = runs;
            return;
        }
        self.runs.clear();
        let Ok(()) = self.runs.append(&mut runs) else {
            unreachable!()
        };
    }

    // Moves the runs behind the first `kept` ones from `runs` to this part, in place of its own
    // runs, if it has room for them; else this part comes back without runs. Takes no memory.
    pub(crate) fn with_rest(mut self, runs: &mut Vec<ByteRun<V>>, kept: usize) -> Part<V>
        requires { kept ≤ vec_len runs.old }
        ensures runs { runs.new.items ++ result ≡ runs.old.items }
        ensures kept { 0 < kept → 0 < length result → 0 < vec_len runs.new }
    {
        self.runs.clear();
        self.first = 0;
        if runs.len() - kept > self.runs.capacity() {
            return self;
        }
        let (_, rest) = runs.split_at(kept);
        append_all(&mut self.runs, rest);
        self.first = first_of(rest);
        runs.truncate(kept);
        self
    }

    // An equal part, with room for at least `least` runs.
    pub(crate) fn copy(&self, alloc: Global, least: usize) -> Result<Part<V>, AllocError>
        ensures { IfOk result (λ copy. copy ≡ self.now) }
    {
        let most = self.runs.len().saturating_add(2).max(least);
        let mut runs = Vec::with_capacity(alloc, most)?;
        runs.extend_from_slice(&self.runs)?;
        Ok(Part {
            first: self.first,
            runs,
        })
    }
}
