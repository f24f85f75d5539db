//! What each span map does, at values that were worked out by hand: kept as a sorted vector, which no node has, and as a row of
//! small sorted vectors.
ghost use Rattle.std.specs.Prelude.{◌≤◌};
ghost use Rattle.intervals.specs.rule.Bytes.{greatest};

use intervals::replay::{SpanWrite, replay};
use intervals::span::{GREATEST, Span};
use intervals::span_map::SpanMap;
use intervals::tree_map::TreeMap;
use intervals::vec_map::VecMap;
use model::Mode;
use std::alloc::{AllocError, Global};
use std::test::Fail;

const A: Option<Mode> = Some(Mode::Read);

const B: Option<Mode> = Some(Mode::Write);

// A write of the bytes from the first to the second, how many runs there are then, and a byte with its run, if it is in one.
type IntervalStep = (u64, u64, Option<Mode>, usize, u64, Option<(u64, u64, Mode)>);

const STEPS: [IntervalStep; 11] = [
    (0, 9, A, 1, 0, Some((0, 9, Mode::Read))),
    (4, 5, B, 3, 6, Some((6, 9, Mode::Read))),
    (4, 5, A, 1, 4, Some((0, 9, Mode::Read))),
    (0, GREATEST, None, 0, 4, None),
    (0, GREATEST, A, 1, 7, Some((0, GREATEST, Mode::Read))),
    (
        GREATEST,
        GREATEST,
        None,
        1,
        0,
        Some((0, GREATEST - 1, Mode::Read)),
    ),
    (GREATEST, GREATEST, None, 1, GREATEST, None),
    (10, GREATEST, None, 1, 0, Some((0, 9, Mode::Read))),
    (20, 29, B, 2, 20, Some((20, 29, Mode::Write))),
    (30, 34, A, 3, 30, Some((30, 34, Mode::Read))),
    (30, 34, A, 3, 15, None),
];

// Whether there are so many runs, and the byte is in that one.
fn has<S: SpanMap<Mode>>(map: &S, starts: usize, byte: u64, run: Option<(u64, u64, Mode)>) -> bool {
    let (found, value) = match map.run_at(byte) {
        Some((span, value)) => (Some((span.lo, span.hi, value)), Some(value)),
        None => (None, None),
    };
    map.starts() == starts && found == run && map.get(byte) == value
}

// Sets the value at each byte of the span, or clears it.
fn write<S: SpanMap<Mode>>(
    map: &mut S,
    lo: u64,
    hi: u64,
    value: Option<Mode>,
) -> Result<(), AllocError>
    requires ordered { lo ≤ hi }
    requires ends { hi ≤ greatest }
{
    match value {
        Some(value) => map.set(Span { lo, hi }, value),
        None => map.clear(Span { lo, hi }),
    }
}

// Whether the map has those runs behind the step.
fn takes<S: SpanMap<Mode>>(map: &mut S, step: &IntervalStep) -> Result<bool, AllocError> {
    let (lo, hi, value, starts, byte, run) = *step;
    if lo > hi || hi > GREATEST {
        return Ok(false);
    }
    write(map, lo, hi, value)?;
    Ok(has(map, starts, byte, run))
}

// Whether the map has them behind each step.
fn takes_each<S: SpanMap<Mode>>(map: &mut S, steps: &[IntervalStep]) -> Result<bool, AllocError> {
    for step in steps {
        if !takes(map, step)? {
            return Ok(false);
        }
    }
    Ok(!map.is_empty())
}

// (A list is the only one in its function, since each statement there is proved beside it.)
fn takes_all<S: SpanMap<Mode>>(map: &mut S) -> Result<bool, AllocError> {
    takes_each(map, &STEPS)
}

// Whether each of the runs is the first that has some value, or has its own, among bytes where it is, and there is none between them.
fn has_firsts<S: SpanMap<Mode>>(map: &S) -> bool {
    let most = Span { lo: 5, hi: 40 };
    map.first_where(most, None) == Some(5)
        && map.first_where(most, B) == Some(20)
        && map.first_where(Span { lo: 10, hi: 40 }, A) == Some(30)
        && map.first_where(Span { lo: 10, hi: 19 }, None).is_none()
}

// Whether the last run covers those bytes, and the bytes between the other two are free for a write.
fn covers<S: SpanMap<Mode>>(map: &S) -> bool {
    let some = Span { lo: 14, hi: 15 };
    map.covers(Span { lo: 30, hi: 34 }, Mode::Read)
        && !map.covers(Span { lo: 29, hi: 30 }, Mode::Read)
        && map.first_where(some, None).is_none()
        && map.largest_around(some, Span { lo: 5, hi: 40 }, None) == Span { lo: 10, hi: 19 }
}

const WRITES: [SpanWrite<Mode>; 3] = [
    SpanWrite {
        span: Span { lo: 0, hi: 9 },
        value: A,
    },
    SpanWrite {
        span: Span { lo: 4, hi: 5 },
        value: B,
    },
    SpanWrite {
        span: Span { lo: 2, hi: 3 },
        value: None,
    },
];

// Whether the map of a list of writes takes the steps, and is then told by its bytes.
fn goes_on<S: SpanMap<Mode>>(map: &mut S) -> Result<bool, AllocError> {
    let is_made = has(map, 3, 6, Some((6, 9, Mode::Read)));
    Ok(is_made && takes_all(map)? && has_firsts(map) && covers(map))
}

fn is_right<S: SpanMap<Mode>>(alloc: Global) -> Result<bool, AllocError> {
    let mut map: S = replay(alloc, &WRITES)?;
    goes_on(&mut map)
}

#[test]
fn each_map_takes_steps(rt: HostRuntime) -> Result<(), Fail> {
    let is_right = is_right::<VecMap<Mode>>(rt.alloc())? && is_right::<TreeMap<Mode>>(rt.alloc())?;
    assert!(rt; is_right);
    Ok(())
}

fn copy_again<S: SpanMap<Mode>>(map: &S) -> Result<S, AllocError> {
    match map.copy() {
        Ok(copy) => Ok(copy),
        Err(_) => map.copy(),
    }
}

// Makes the write, again where memory for it is refused. Whether the map is then as it was before.
fn writes_over<S: SpanMap<Mode>>(
    map: &mut S,
    before: &S,
    lo: u64,
    value: Option<Mode>,
) -> Result<bool, AllocError>
    requires { lo ≤ 100 }
{
    if write(map, lo, lo + 5, value).is_ok() {
        return Ok(true);
    }
    let is_same = map.same(before);
    write(map, lo, lo + 5, value)?;
    Ok(is_same)
}

// Whether the write is made so, and the map is as it was where it is refused at first.
fn writes_again<S: SpanMap<Mode>>(
    map: &mut S,
    lo: u64,
    value: Option<Mode>,
) -> Result<bool, AllocError>
    requires { lo ≤ 100 }
{
    let before = copy_again(map)?;
    writes_over(map, &before, lo, value)
}

// Whether four writes and one within the second are made so, and then there are four runs.
fn keeps_all<S: SpanMap<Mode>>(map: &mut S) -> Result<bool, AllocError> {
    for place in 0..4 {
        if !writes_again(map, 10 * place, B)? {
            return Ok(false);
        }
    }
    Ok(writes_again(map, 12, None)? && map.starts() == 4)
}

fn is_copied<S: SpanMap<Mode>>(map: &S) -> Result<bool, AllocError> {
    let copy = copy_again(map)?;
    Ok(map.same(&copy))
}

// Whether a new map is as it was where a request for memory is refused, and the same call then goes through. `scripts/refused-memory`
// refuses the Nth request of the test, which passes at each N, so it keeps no map in a box.
fn keeps<S: SpanMap<Mode>>(alloc: Global) -> Result<bool, AllocError> {
    let mut map = S::new(alloc);
    Ok(keeps_all(&mut map)? && is_copied(&map)?)
}

#[test]
fn each_map_keeps_what_it_had(rt: HostRuntime) -> Result<(), Fail> {
    let is_kept = keeps::<VecMap<Mode>>(rt.alloc())? && keeps::<TreeMap<Mode>>(rt.alloc())?;
    assert!(rt; is_kept);
    Ok(())
}
