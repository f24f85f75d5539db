//! Histories of clients, judged.
ghost use Rattle.std.specs.Prelude.{◌≡◌, map, option_map, Some, IfErr, IfOk};
ghost use Rattle.command_line.specs.rule.Tasks.{judge_task_of};
ghost use Rattle.replay.specs.rule.Judging.{AreJudged, IsJudgedWith, IsSaidIn, IsSaidOf, allowed_of, shown_of};
ghost use Rattle.replay.specs.rule.Stores.{SameFiles};
ghost use Rattle.replay.specs.rule.Faults.{IsReportOf, IsToolFault};

use crate::{Fault, Shown, Store, text_of};
use command_line::judge_line::{AllowedRule, JudgeLine};
use history_text::{
    Allowed, JudgeError, Judgement, JudgementOutcome, Judging, judge_history, judge_orders,
};
use std::alloc::{AllocError, Global};
use std::fmt::Write;

// Orders that are given, with the path of their file.
#[derive(Clone, Copy)]
struct OrdersFile<'a> {
    path: &'a str,
    text: &'a str,
}

/// What is said of the history of each file, by the orders of a file, if one is named; of several histories each line of that
/// begins with the path.
pub(crate) fn judge<'a, S: Store>(
    alloc: Global,
    store: &mut S,
    line: &JudgeLine<'a>,
) -> Result<Shown, Fault<'a>>
    ensures done { IfOk result (AreJudged (S.holds store.old) (allowed_of (judge_task_of line.now).allowed) (judge_task_of line.now).histories (judge_task_of line.now).explains) }
    ensures fault { IfErr result (IsToolFault (S.holds store.old) (IsJudgedWith (judge_task_of line.now).histories (judge_task_of line.now).explains)) }
    ensures files { SameFiles (S.holds store.old) (S.holds store.new) }
{
    let paths = line.histories.as_slice();
    let judging = judging_of(line);
    match line.explains {
        None => all_judged(alloc, store, paths, None, judging),
        Some(path) => judged_by(alloc, store, paths, path, judging),
    }
}

// How the histories are judged.
fn judging_of(line: &JudgeLine<'_>) -> Judging
    ensures { result.allowed ≡ allowed_of line.now.allowed.items }
{
    Judging {
        steps: u64::from(line.steps),
        order: line.order,
        go_on: line.go_on,
        stats: line.stats,
        json: line.json,
        allowed: allowed_of(line.allowed.as_slice()),
    }
}

// The rules that these words of a command line allow.
fn allowed_of(rules: &[AllowedRule]) -> Allowed
    ensures { result ≡ allowed_of rules.now }
{
    let mut allowed = Allowed {
        wait_drops: false,
        close_own_descriptor: false,
        no_query: false,
        stale_read_denial: false,
        lost_at: false,
    };
    for rule in rules {
        match rule {
            AllowedRule::WaitDrops => allowed.wait_drops = true,
            AllowedRule::CloseOwnDescriptor => allowed.close_own_descriptor = true,
            AllowedRule::NoQuery => allowed.no_query = true,
            AllowedRule::StaleReadDenial => allowed.stale_read_denial = true,
            AllowedRule::LostAt => allowed.lost_at = true,
        }
    }
    allowed
}

// The same by the orders of this file.
fn judged_by<'a, S: Store>(
    alloc: Global,
    store: &mut S,
    paths: &[&'a str],
    orders: &'a str,
    judging: Judging,
) -> Result<Shown, Fault<'a>>
    ensures done { IfOk result (AreJudged (S.holds store.old) judging.allowed (map (λ path. path.now) paths.now) (Some orders.now)) }
    ensures fault { IfErr result (IsToolFault (S.holds store.old) (IsJudgedWith (map (λ path. path.now) paths.now) (Some orders.now))) }
    ensures files { SameFiles (S.holds store.old) (S.holds store.new) }
{
    let text = text_of(alloc, store, orders)?;
    let given = OrdersFile {
        path: orders,
        text: text.as_str(),
    };
    all_judged(alloc, store, paths, Some(given), judging)
}

// The same by these orders, if any are given.
fn all_judged<'a, S: Store>(
    alloc: Global,
    store: &mut S,
    paths: &[&'a str],
    given: Option<OrdersFile<'_>>,
    judging: Judging,
) -> Result<Shown, Fault<'a>>
    ensures done { IfOk result (AreJudged (S.holds store.old) judging.allowed (map (λ path. path.now) paths.now) (option_map (λ g. g.path.now) given.entry)) }
    ensures fault { IfErr result (IsToolFault (S.holds store.old) (IsJudgedWith (map (λ path. path.now) paths.now) (option_map (λ g. g.path.now) given.entry))) }
    ensures files { SameFiles (S.holds store.old) (S.holds store.new) }
{
    let mut outcome = JudgementOutcome::Yes;
    let mut told = String::new(alloc);
    let named = paths.len() > 1 && !judging.json;
    for path in paths {
        let judgement = judged_at(alloc, store, *path, given, judging)?;
        outcome = outcome.with(judgement.outcome);
        push_named(&mut told, *path, judgement.text.as_str(), named)?;
    }
    Ok(shown_as(outcome, told))
}

// What is said of the history of a file, by orders, if they are given.
fn judged_at<'a, S: Store>(
    alloc: Global,
    store: &mut S,
    path: &'a str,
    given: Option<OrdersFile<'_>>,
    judging: Judging,
) -> Result<Judgement, Fault<'a>>
    ensures done { IfOk result (λ judgement. IsSaidOf judging.allowed (option_map (λ g. g.path.now) given.entry) (S.holds store.old) judgement.outcome path.now) }
    ensures fault { IfErr result (IsToolFault (S.holds store.old) (λ file. file ≡ path.now)) }
    ensures files { SameFiles (S.holds store.old) (S.holds store.new) }
{
    let text = text_of(alloc, store, path)?;
    judged_in(alloc, path, text.as_str(), given, judging)
}

// The same of the text of the file.
fn judged_in<'a>(
    alloc: Global,
    path: &str,
    text: &str,
    given: Option<OrdersFile<'_>>,
    judging: Judging,
) -> Result<Judgement, Fault<'a>>
    ensures done { IfOk result (λ judgement. IsSaidIn judging.allowed (option_map (λ g. g.path.now) given.entry) text.now judgement.outcome) }
    ensures fault { IfErr result IsReportOf }
{
    let judged = match given {
        None => judge_history(alloc, path, text, judging),
        Some(given) => judge_orders(alloc, path, text, given.path, given.text, judging),
    };
    match judged {
        Ok(judgement) => Ok(judgement),
        Err(JudgeError::NoMemory) => Err(Fault::NoMemory),
        Err(JudgeError::Bad(report)) => Err(Fault::Faulty(report)),
    }
}

// The text, with the status of what is said.
fn shown_as(outcome: JudgementOutcome, text: String) -> Shown
    ensures { result ≡ shown_of outcome text }
{
    match outcome {
        JudgementOutcome::Yes => Shown::Text(text),
        JudgementOutcome::Unknown => Shown::Undecided(text),
        JudgementOutcome::No => Shown::Wanting(text),
    }
}

// Writes a text, each line of it behind the path of its file if that is to stand there.
fn push_named(out: &mut String, path: &str, text: &str, named: bool) -> Result<(), AllocError> {
    if !named {
        return out.push_str(text);
    }
    for line in text.lines() {
        writeln!(out, "{path}: {line}")?;
    }
    Ok(())
}
