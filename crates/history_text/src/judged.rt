//! The judgement of a history's files. A function here that gives a `Result` answers `AllocError` where a request for
//! memory was refused.
ghost use Rattle.std.specs.Prelude.{◌≡◌, IfOk};
ghost use Rattle.history_text.specs.rule.Judgements.{HasOneClock, IsContradicted, IsJudged, IsOutcome, outcome_of};

use crate::{Before, FileCalls, JudgementOutcome, Judging, WrittenHistory, table_before};
use client_history::judge::judge;
use client_history::{ClientCall, Verdict};
use indexmap::IndexMap;
use model::Owner;
use std::alloc::{AllocError, Global};
use texts::text::split_at_first;

/// What is found of the calls of a file.
#[derive(Drop)]
pub(crate) enum Judged {
    /// The calls are explained by this order, each named by its index.
    Explained {
        order: Vec<usize>,
    },
    /// No order explains the calls. These fit nowhere: each is left out when the next one is looked for. If a line is
    /// named, the last search was out of steps at the end of the call in that line.
    Contradicted {
        misfits: Vec<Misfit>,
        unknown: Option<u64>,
    },
    /// It is not known whether an order explains the calls, as in `Verdict::Unknown` of `client_history`: mostly
    /// because the search was out of steps at the end of the call in this line.
    Unknown {
        line: Option<u64>,
    },
}

/// A call that fits nowhere: the number of its line, and the tables that there may be before it, three at most.
#[derive(Drop)]
pub(crate) struct Misfit {
    pub(crate) line: u64,
    pub(crate) tables: Vec<Before>,
}

impl Judged {
    /// The finding in a word.
    pub(crate) fn outcome(&self) -> JudgementOutcome
        ensures { result ≡ outcome_of self.now }
    {
        match self {
            Judged::Explained { .. } => JudgementOutcome::Yes,
            Judged::Contradicted { .. } => JudgementOutcome::No,
            Judged::Unknown { .. } => JudgementOutcome::Unknown,
        }
    }
}

/// Judges each file of the history. Gives the outcome of all together, and adds what was found of each.
pub(crate) fn files_judged(
    alloc: Global,
    history: &WrittenHistory,
    judging: Judging,
    told: &mut Vec<Judged>,
) -> Result<JudgementOutcome, AllocError>
    ensures { IfOk result (IsOutcome history.now) }
{
    let mut outcome = JudgementOutcome::Yes;
    for file in 0..history.files.len() {
        let found = file_judged(alloc, history, &history.files[file], judging)?;
        outcome = outcome.with(found.outcome());
        told.push(found)?;
    }
    Ok(outcome)
}

// Judges the calls of a file, each in all the time in which it may have been made.
fn file_judged(
    alloc: Global,
    history: &WrittenHistory,
    file: &FileCalls,
    judging: Judging,
) -> Result<Judged, AllocError>
    ensures { IfOk result (λ found. HasOneClock history.now → IsJudged file.now.calls.items found) }
{
    let wider = in_all_time(alloc, history, file)?;
    judge_file(alloc, &wider, judging)
}

// Judges the calls of a file as their times stand.
fn judge_file(alloc: Global, file: &FileCalls, judging: Judging) -> Result<Judged, AllocError>
    ensures { IfOk result (IsJudged file.now.calls.items) }
{
    match judge(alloc, file.calls.as_slice(), judging.steps)? {
        Verdict::Explained { order } => Ok(Judged::Explained { order }),
        Verdict::Unexplained { call, ways } => contradicted(alloc, file, judging, call, &ways),
        Verdict::Unknown { call } => Ok(Judged::Unknown {
            line: file.lines.get(call).copied(),
        }),
    }
}

// The finding on calls that no order explains, of which this one is the first that fits nowhere, behind these ways.
// To go on each call that fits nowhere is left out, and the others are judged again.
fn contradicted(
    alloc: Global,
    file: &FileCalls,
    judging: Judging,
    call: usize,
    ways: &[Vec<usize>],
) -> Result<Judged, AllocError>
    requires { IsContradicted file.now.calls.items }
    ensures { IfOk result (IsJudged file.now.calls.items) }
{
    let mut misfits = Vec::new(alloc);
    let mut unknown = None;
    let mut left = take_misfit(alloc, file, call, ways, &mut misfits)?;
    for _ in 0..left.calls.len() {
        if !judging.go_on {
            break;
        }
        match judge(alloc, left.calls.as_slice(), judging.steps)? {
            Verdict::Explained { .. } => break,
            Verdict::Unexplained { call, ways } => {
                left = take_misfit(alloc, &left, call, &ways, &mut misfits)?;
            }
            Verdict::Unknown { call } => {
                unknown = left.lines.get(call).copied();
                break;
            }
        }
    }
    Ok(Judged::Contradicted { misfits, unknown })
}

// Adds the call that fits nowhere, with the tables that these ways lead to. Gives the calls of the file without those of
// its line.
fn take_misfit(
    alloc: Global,
    file: &FileCalls,
    call: usize,
    ways: &[Vec<usize>],
    misfits: &mut Vec<Misfit>,
) -> Result<FileCalls, AllocError> {
    let mut tables = Vec::new(alloc);
    for way in ways {
        tables.push(table_before(alloc, file, call, way)?)?;
    }
    let line = file.lines.get(call).copied().unwrap_or(0);
    misfits.push(Misfit { line, tables })?;
    let mut left = FileCalls::new(alloc);
    for (other, its_line) in file.calls.iter().zip(file.lines.iter()) {
        if *its_line != line {
            let follows = match other.follows {
                Some(_) => left.calls.len().checked_sub(1), // the first step stands right before
                None => None,
            };
            left.push(*its_line, &ClientCall { follows, ..*other })?;
        }
    }
    Ok(left)
}

/// The calls of a file of the history, each in all the time in which it may have been made: its own time, widened at
/// both ends by as much as the clock of its owner's machine may be off.
pub(crate) fn in_all_time(
    alloc: Global,
    history: &WrittenHistory,
    file: &FileCalls,
) -> Result<FileCalls, AllocError>
    ensures { IfOk result (λ wider. HasOneClock history.now → wider.calls.items ≡ file.now.calls.items) }
{
    let told = file.told;
    let lines = file.lines.clone()?;
    if history.has_one_clock() {
        let calls = Vec::from_slice(alloc, file.calls.as_slice())?;
        return Ok(FileCalls { calls, lines, told });
    }
    let mut skews = IndexMap::new(alloc);
    for machine in &history.machines {
        skews.insert(machine.name.as_str(), machine.skew)?;
    }
    let mut calls = Vec::new(alloc);
    for call in &file.calls {
        let skew = skew_of(history, &skews, &call.owner).unwrap_or(0);
        let end = match call.end {
            Some(end) => Some(end.saturating_add(skew)),
            None => None,
        };
        let begin = call.begin.saturating_sub(skew);
        calls.push(ClientCall {
            begin,
            end,
            ..*call
        })?;
    }
    Ok(FileCalls { calls, lines, told })
}

// How far the clock of the owner's machine may be off, if the owner names one. The machines stand by their names.
fn skew_of(history: &WrittenHistory, skews: &IndexMap<&str, u64>, owner: &Owner) -> Option<u64> {
    let (_, machine) = split_at_first(history.name_of(owner)?, b'@')?;
    skews.get(&machine).copied()
}
