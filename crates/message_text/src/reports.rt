//! The runs of a report as a text: their number, and for each of them its level, first byte and
//! last byte.
//!
//! Each function here that can fail errs with `AllocError`, where a request for memory was refused.
ghost use Rattle.std.specs.Prelude.{◌≡◌, ◌≢◌, ◌++◌, ◌∷◌, [], ◌↔◌, ◌<◌, ◌^◌, ℕ, List, true, decimal, IsTrue, IfOk, MatchOption, OnOk, string_bytes};
ghost use Rattle.messages.specs.declared.token_run.TokenRun.{TokenRun as Run};
ghost use Rattle.message_text.specs.code.Reports.{IsRunsText, may_stand, run_words, runs_in, words_of};
ghost use Rattle.message_text.specs.rule.Texts.{IsServedSpan, runs_text};

use crate::fields::SpanText;
use crate::numbers::Offset;
use intervals::span::Span;
use messages::{TokenRun, TokenRuns};
use model::Level;
use std::alloc::{AllocError, Global};
use std::fmt::Write;
use std::marker::Model;
use texts::number::Within;
use texts::text::{Text, split_field};

// The number of runs in a report.
type Total = Within<u64, 0, 18_446_744_073_709_551_615>;

/// The remaining words of a text.
#[derive(Drop)]
struct RemainingWords<'a> {
    rest: &'a str,
    ended: bool,
}

impl<'a> Model for RemainingWords<'a> {
    ghost use Rattle.std.specs.Prelude.{ℕ, List, [], if◌then◌else◌};
    ghost use Rattle.message_text.specs.code.Reports.{words_of};

    ghost Value = { List (List ℕ) };

    ghost view = { λ w. if w.ended then [] else words_of w.rest.now };
}

impl<'a> RemainingWords<'a> {
    // The words of the text.
    fn new(text: &'a str) -> RemainingWords<'a>
        ensures { result ≡ words_of text.entry.now }
    {
        RemainingWords {
            rest: text,
            ended: false,
        }
    }

    // Whether no word is left.
    fn is_empty(&self) -> bool
        ensures { IsTrue result ↔ (self.now ≡ []) }
    {
        self.ended
    }

    // The next word, if one is left.
    fn next(&mut self) -> Option<&'a str>
        ensures { MatchOption result (self.old ≡ []) (λ word. self.old ≡ word.now ∷ self.new) }
    {
        if self.ended {
            return None;
        }
        let Some((word, rest)) = split_field(self.rest) else {
            self.ended = true;
            return Some(self.rest);
        };
        self.rest = rest;
        Some(word)
    }

    // The number whose decimal text the next word is.
    fn next_count(&mut self) -> Option<u64>
        ensures { MatchOption result ((count : ℕ) (more : List (List ℕ)) → count < 2 ^ 64 → self.old ≢ decimal count ∷ more) (λ count. (count < 2 ^ 64) × (self.old ≡ decimal count ∷ self.new)) }
    {
        Total::read(self.next()?)
    }

    // The run that the next three words name.
    fn next_run(&mut self) -> Option<TokenRun>
        ensures { MatchOption result ((run : Run) (more : List (List ℕ)) → IsServedSpan run.span → self.old ≢ run_words run ++ more) (λ run. IsServedSpan run.span × (self.old ≡ run_words run ++ self.new)) }
    {
        let level = Level::read(self.next()?)?;
        let lo = Offset::read(self.next()?)?;
        let hi = Offset::read(self.next()?)?;
        if hi < lo {
            return None;
        }
        let span = Span { lo, hi };
        Some(TokenRun { span, level })
    }
}

// Whether the run may come next behind the run `last`, or is the first one.
fn may_stand(last: Option<TokenRun>, run: &TokenRun) -> bool
    ensures { result ≡ may_stand last run.now }
{
    match last {
        Some(before) => run.may_follow(before),
        None => true,
    }
}

// The run that the next three words name, if it may come next behind the run `last`.
fn next_standing(words: &mut RemainingWords<'_>, last: Option<TokenRun>) -> Option<TokenRun>
    ensures { MatchOption result ((run : Run) (more : List (List ℕ)) → IsServedSpan run.span → may_stand last run ≡ true → words.old ≢ run_words run ++ more) (λ run. IsServedSpan run.span × (may_stand last run ≡ true) × (words.old ≡ run_words run ++ words.new)) }
{
    let run = words.next_run()?;
    if !may_stand(last, &run) {
        return None;
    }
    Some(run)
}

/// Whether the text is the number of the longest runs of some token, and these runs.
pub(crate) fn are_runs(text: &str) -> bool
    ensures { IsTrue result ↔ IsRunsText text.now }
{
    let mut words = RemainingWords::new(text);
    let Some(count) = words.next_count() else {
        return false;
    };
    let mut last = None;
    for _ in 0..count {
        let Some(run) = next_standing(&mut words, last) else {
            return false;
        };
        last = Some(run);
    }
    words.is_empty()
}

/// The runs that the text names.
pub(crate) fn read_runs(alloc: Global, text: &str) -> Result<TokenRuns, AllocError>
    requires { IsRunsText text.now }
    ensures { IfOk result (λ runs. runs ≡ runs_in text.now) }
{
    let mut words = RemainingWords::new(text);
    let _count = words.next_count();
    let mut runs = Vec::new(alloc);
    while let Some(run) = words.next_run() {
        runs.push(run)?;
    }
    match TokenRuns::new(runs) {
        Some(runs) => Ok(runs),
        None => unreachable!(),
    }
}

/// Adds the number of runs, and the runs.
pub(crate) fn push_runs(out: &mut String, runs: &TokenRuns) -> Result<(), AllocError>
    ensures { OnOk result (string_bytes out.new ≡ string_bytes out.old ++ runs_text runs.now) }
{
    let runs = runs.as_slice();
    let count = runs.len();
    write!(out, "{count}")?;
    for run in runs {
        out.push_str(" ")?;
        <(Level, SpanText)>::write(&(run.level, run.span), out)?;
    }
    Ok(())
}
