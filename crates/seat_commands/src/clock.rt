//! A clock that never goes back, and blocks with its readings.
ghost use Rattle.std.specs.Prelude.{◌≡◌, ◌≤◌, ◌++◌, string_bytes, OnOk};
ghost use Rattle.seat_commands.specs.rule.Clocks.{SaysTimed, at_line, greatest_moment, interval_text};

use seat_text::Answerer;
use std::alloc::{AllocError, Global};
use std::fmt::Write;
use std::marker::Model;
use std::time::Clock;

/// The greatest moment, in microseconds since 1970.
pub(crate) const GREATEST_MOMENT: u64 = 9_223_372_036_854_775_807;

/// The clock of the system, which is held where it would go back.
#[derive(Drop)]
pub(crate) struct Stopwatch<'a, C> {
    clock: &'a C,
    last: u64,
}

impl<'a, C> Model for Stopwatch<'a, C> {
    ghost use Rattle.std.specs.Prelude.{◌≤◌, ℕ};
    ghost use Rattle.seat_commands.specs.rule.Clocks.{greatest_moment};

    ghost Value = { ℕ };

    ghost view = { λ w. w.last };

    ghost invariant = { λ w. w.last ≤ greatest_moment };
}

impl<'a, C: Clock> Stopwatch<'a, C> {
    /// The clock, which was last read at this moment.
    pub(crate) fn new(clock: &'a C, last: u64) -> Stopwatch<'a, C>
        requires { last ≤ greatest_moment }
        ensures { result ≡ last }
    {
        Stopwatch { clock, last }
    }

    /// The moment now, in microseconds since 1970.
    pub(crate) fn look(&mut self) -> u64
        ensures rises { self.old ≤ result }
        ensures within { result ≤ greatest_moment }
        ensures last { self.new ≡ result }
    {
        let now = moment(self.clock);
        if self.last < now {
            self.last = now;
        }
        self.last
    }
}

// What the clock says, or the greatest moment; 0 where it can't be read.
fn moment<C: Clock>(clock: &C) -> u64
    ensures { result ≤ greatest_moment }
{
    let Ok(since) = clock.since_1970() else {
        return 0;
    };
    match u64::try_from(since.as_micros()) {
        Ok(micros) if micros <= GREATEST_MOMENT => micros,
        _ => GREATEST_MOMENT,
    }
}

/// Who answers lines, and tells of each answer when it came about.
#[derive(Drop)]
pub(crate) struct Timed<'a, C, A> {
    alloc: Global,
    watch: Stopwatch<'a, C>,
    who: A,
}

impl<'a, C, A> Model for Timed<'a, C, A> {
    ghost use Rattle.seat_commands.specs.rule.Clocks.{Timing};

    ghost Value = { Timing A };

    ghost view = { λ t. record { who = t.who; last = t.watch } };
}

impl<'a, C: Clock, A> Timed<'a, C, A> {
    /// Who answers lines, by this clock.
    pub(crate) fn new(alloc: Global, watch: Stopwatch<'a, C>, who: A) -> Timed<'a, C, A>
        ensures { result ≡ record { who = who; last = watch.entry } }
    {
        Timed { alloc, watch, who }
    }
}

impl<C: Clock, A: Answerer> Answerer for Timed<'_, C, A> {
    ghost says = { SaysTimed A.says };

    fn answer(&mut self, line: &[u8], out: &mut String) -> Result<(), AllocError> {
        let began = self.watch.look();
        let mut said = String::new(self.alloc);
        self.who.answer(line, &mut said)?;
        let ended = self.watch.look();
        push_timed(out, began, ended, said.as_str())
    }

    fn answer_long(&mut self, out: &mut String) -> Result<(), AllocError> {
        let began = self.watch.look();
        let mut said = String::new(self.alloc);
        self.who.answer_long(&mut said)?;
        let ended = self.watch.look();
        push_timed(out, began, ended, said.as_str())
    }
}

/// Adds the line of the readings of a clock, if it was read.
pub fn push_interval(out: &mut String, interval: Option<(u64, u64)>) -> Result<(), AllocError>
    ensures { OnOk result (string_bytes out.new ≡ string_bytes out.old ++ interval_text interval) }
{
    match interval {
        Some((began, ended)) => writeln!(out, "at {began} {ended}"),
        None => Ok(()),
    }
}

/// Adds the text with the line of two readings of a clock before it.
pub fn push_timed(out: &mut String, began: u64, ended: u64, said: &str) -> Result<(), AllocError>
    ensures { OnOk result (string_bytes out.new ≡ string_bytes out.old ++ (at_line began ended ++ said.now)) }
{
    push_interval(out, Some((began, ended)))?;
    out.push_str(said)
}
