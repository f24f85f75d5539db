//! The writes to sorted vectors of runs.
ghost use Rattle.std.specs.Prelude.{◌≡◌, ◌≤◌, ◌<◌, ◌+◌, ◌++◌, [], take, length, ℕ, if◌then◌else◌, Some};
ghost use Rattle.std.specs.Vec.{vec_len, vec_capacity};
ghost use Rattle.intervals.specs.rule.Bytes.{greatest, put};
ghost use Rattle.intervals.specs.code.Runs.{AreRuns, EndsBelow, EndsFrom};
ghost use Rattle.intervals.specs.rule.Runs.{bytes_of, value_at};

use super::{ByteRun, split_before};
use crate::span::Span;
use crate::span_map::Exact;

// Adds a run above the other runs; where it joins the last one, that one grows. There is room for
// it.
pub(crate) fn append<V: Exact>(runs: &mut Vec<ByteRun<V>>, run: ByteRun<V>)
    requires made { AreRuns runs.old.items }
    requires below { EndsBelow runs.old.items run.lo }
    requires rises { run.lo ≤ run.hi }
    requires room { vec_len runs.old < vec_capacity runs.old }
    ensures made { AreRuns runs.new.items }
    ensures below { EndsBelow runs.new.items (run.hi + 1) }
    ensures bytes { (b : ℕ) → value_at runs.new.items b ≡ put (value_at runs.old.items) (bytes_of run) (Some run.value) b }
    ensures len { vec_len runs.new ≤ vec_len runs.old + 1 }
    ensures capacity { vec_capacity runs.old ≤ vec_capacity runs.new }
{
    if let Some(last) = runs.last_mut() {
        if last.hi + 1 == run.lo && last.value == run.value {
            last.hi = run.hi;
            return;
        }
    }
    let Ok(()) = runs.push(run) else {
        unreachable!()
    };
}

// Adds runs that stand above the ones in `new`, all at once. There is room for them.
#[inline]
pub(crate) fn append_all<V: Exact>(new: &mut Vec<ByteRun<V>>, runs: &[ByteRun<V>])
    requires room { vec_len new.old + length runs.now ≤ vec_capacity new.old }
    ensures items { new.new.items ≡ new.old.items ++ runs.now }
    ensures len { vec_len new.new ≡ vec_len new.old + length runs.now }
    ensures capacity { vec_capacity new.old ≤ vec_capacity new.new }
{
    let Ok(()) = new.extend_from_slice(runs) else {
        unreachable!()
    };
}

// Copies what the runs have below byte `to` into the empty vector: first the runs that end below
// it, then the lower piece of the next run. There is room for all of them.
fn append_below<V: Exact>(new: &mut Vec<ByteRun<V>>, runs: &[ByteRun<V>], to: u64)
    requires empty { new.old.items ≡ [] }
    requires runs { AreRuns runs.now }
    requires room { length runs.now ≤ vec_capacity new.old }
    ensures made { AreRuns new.new.items }
    ensures below { EndsBelow new.new.items to }
    ensures inside { (b : ℕ) → b < to → value_at new.new.items b ≡ value_at runs.now b }
    ensures len { vec_len new.new ≤ length runs.now }
    ensures capacity { vec_capacity new.old ≤ vec_capacity new.new }
{
    let (below, rest) = split_before(runs, to);
    append_all(new, below);
    match rest.split_first() {
        Some((run, _)) if run.lo < to => append(
            new,
            ByteRun {
                lo: run.lo,
                hi: to - 1,
                value: run.value,
            },
        ),
        _ => {}
    }
}

// Adds what the runs, which end at `from` or above, have from byte `from` on: the first run is cut
// there and may join the last one of `new`, the other ones follow unchanged. There is room for all
// of them.
fn append_above<V: Exact>(new: &mut Vec<ByteRun<V>>, runs: &[ByteRun<V>], from: u64)
    requires made { AreRuns new.old.items }
    requires below { EndsBelow new.old.items from }
    requires runs { AreRuns runs.now }
    requires reached { EndsFrom runs.now from }
    requires bounded { EndsBelow runs.now (greatest + 1) }
    requires start { from ≤ greatest + 1 }
    requires room { vec_len new.old + length runs.now ≤ vec_capacity new.old }
    ensures made { AreRuns new.new.items }
    ensures below { EndsBelow new.new.items (greatest + 1) }
    ensures inside { (b : ℕ) → from ≤ b → value_at new.new.items b ≡ value_at runs.now b }
    ensures under { (b : ℕ) → b < from → value_at new.new.items b ≡ value_at new.old.items b }
    ensures capacity { vec_capacity new.old ≤ vec_capacity new.new }
{
    if let Some((run, rest)) = runs.split_first() {
        append(
            new,
            ByteRun {
                lo: run.lo.max(from),
                hi: run.hi,
                value: run.value,
            },
        );
        append_all(new, rest);
    }
}

// Fills the empty vector with what `first` has below the span, the value (or none) at each byte of
// the span, and what `last` has above it. There is room for all of these runs and one more.
pub(crate) fn splice<V: Exact>(
    new: &mut Vec<ByteRun<V>>,
    first: &[ByteRun<V>],
    last: &[ByteRun<V>],
    span: Span,
    value: Option<V>,
)
    requires empty { new.old.items ≡ [] }
    requires room { length first.now + length last.now < vec_capacity new.old }
    requires first { AreRuns first.now }
    requires last { AreRuns last.now }
    requires bounded { EndsBelow last.now (greatest + 1) }
    ensures runs { AreRuns new.new.items }
    ensures bounded { EndsBelow new.new.items (greatest + 1) }
    ensures below { (b : ℕ) → b < span.lo → value_at new.new.items b ≡ value_at first.now b }
    ensures inside { (b : ℕ) → span.lo ≤ b → b ≤ span.hi → value_at new.new.items b ≡ value }
    ensures above { (b : ℕ) → span.hi < b → value_at new.new.items b ≡ value_at last.now b }
    ensures capacity { vec_capacity new.old ≤ vec_capacity new.new }
{
    append_below(new, first, span.lo);
    if let Some(value) = value {
        append(
            new,
            ByteRun {
                lo: span.lo,
                hi: span.hi,
                value,
            },
        );
    }
    let (_, above) = split_before(last, span.hi + 1);
    append_above(new, above, span.hi + 1);
}

// Replaces the runs behind the first `kept` ones by `new`. There is room for them.
fn replace_rest<V: Exact>(runs: &mut Vec<ByteRun<V>>, kept: usize, mut new: Vec<ByteRun<V>>)
    requires kept { kept ≤ vec_len runs.old }
    requires room { kept + vec_len new ≤ vec_capacity runs.old }
    ensures { runs.new.items ≡ take kept runs.old.items ++ new.items }
{
    runs.truncate(kept);
    let Ok(()) = runs.append(&mut new) else {
        unreachable!()
    };
}

// Gives each byte of the span the value, or no value. Only the runs from the first one on that
// reaches the span are rewritten. Where `runs` has no place for them all runs move to `room`, which
// is empty and has room for more than twice as many runs as there are. Takes no memory.
pub(crate) fn write<V: Exact>(
    runs: &mut Vec<ByteRun<V>>,
    mut room: Vec<ByteRun<V>>,
    span: Span,
    value: Option<V>,
)
    requires empty { room.items ≡ [] }
    requires room { length runs.old.items + length runs.old.items < vec_capacity room }
    requires runs { AreRuns runs.old.items }
    requires bounded { EndsBelow runs.old.items (greatest + 1) }
    ensures runs { AreRuns runs.new.items }
    ensures bounded { EndsBelow runs.new.items (greatest + 1) }
    ensures bytes { (b : ℕ) → value_at runs.new.items b ≡ put (value_at runs.old.items) span value b }
{
    let (kept, rest) = split_before(runs, span.lo.saturating_sub(1));
    let kept = kept.len();
    splice(&mut room, rest, rest, span, value);
    if room.len() <= runs.capacity() - kept {
        replace_rest(runs, kept, room);
    } else {
        room.clear();
        splice(&mut room, runs, runs, span, value);
        *runs = room;
    }
}
