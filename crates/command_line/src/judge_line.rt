//! What a line asks of a judgement.
ghost use Rattle.std.specs.Prelude.{◌≡◌, [], codes, false, true, map, unwrap_or, IfOk, Some};
ghost use Rattle.clap.specs.Words.{all_of, found_of, rows_of};
ghost use Rattle.command_line.specs.rule.Tasks.{judge_task_of, rule_text, MayJudge};
ghost use Rattle.command_line.specs.rule.Words.{AreRulesOf, IsLineOf, IsRuleOf};

use crate::command_line::CommandLine;
use crate::values::{DEFAULT_STEPS, GREATEST_SEED, flag_in, number_in};
use clap::ArgMatches;
use std::alloc::{AllocError, Global};

/// `judge HISTORY.. [--steps N] [--explains FILE] [--allow RULE].. [--order] [--go-on] [--stats] [--json]`: what is
/// to be said of histories.
#[derive(Drop)]
pub struct JudgeLine<'a> {
    /// The paths of the histories, of which there is at least one; one alone where an order is given.
    pub histories: Vec<&'a str>,
    /// How many tables of each file are looked at, from 1 on; 10,000,000 where an order is given, or it is left out.
    pub steps: u32,
    /// The path of the orders by which the history is judged, if they are given; then nothing is searched, and neither `order` nor
    /// `go_on` is asked for.
    pub explains: Option<&'a str>,
    /// The rules that are allowed, as they stand, so that one may stand there twice.
    pub allowed: Vec<AllowedRule>,
    /// Whether orders that were found are printed.
    pub order: bool,
    /// Whether a call that fits nowhere is left out, and the search goes on behind it.
    pub go_on: bool,
    /// Whether counts are printed.
    pub stats: bool,
    /// Whether all is printed as JSON.
    pub json: bool,
}

/// A way in which a lock manager may differ from one table of record locks, where that is allowed.
#[derive(Clone, Copy)]
pub enum AllowedRule {
    /// `wait-drops`: a wait first gives back its owner's own locks on its bytes.
    WaitDrops,
    /// `close-own-descriptor`: a close of a descriptor that was not used drops no lock.
    CloseOwnDescriptor,
    /// `no-query`: what queries tell says nothing.
    NoQuery,
    /// `stale-read-denial`: a lock that is gone may be in the way of a read lock.
    StaleReadDenial,
    /// `lost-at`: all locks are lost in the times that the history tells.
    LostAt,
}

// The line that these values of the command come to.
pub(crate) fn judge_in<'a>(
    alloc: Global,
    values: &ArgMatches<'a>,
) -> Result<Option<CommandLine<'a>>, AllocError>
    ensures { IfOk result (IsLineOf (Some (codes "judge", rows_of (found_of values.now)))) }
{
    let Some(paths) = values.get_strs("HISTORY") else {
        return Ok(None);
    };
    let Some(allowed) = rules_in(alloc, values)? else {
        return Ok(None);
    };
    let mut histories = Vec::new(alloc);
    histories.extend_from_slice(paths)?;
    Ok(judge_of(values, histories, allowed))
}

// The line of these histories, with these rules.
fn judge_of<'a>(
    values: &ArgMatches<'a>,
    histories: Vec<&'a str>,
    allowed: Vec<AllowedRule>,
) -> Option<CommandLine<'a>>
    requires histories { all_of (codes "HISTORY") (rows_of (found_of values.now)) ≡ Some (map (λ path. path.now) histories.items) }
    requires allowed { unwrap_or (all_of (codes "RULE") (rows_of (found_of values.now))) [] ≡ map rule_text allowed.items }
    ensures { IsLineOf (Some (codes "judge", rows_of (found_of values.now))) result }
{
    let steps = number_in(values, "N", 1, GREATEST_SEED)?;
    let explains = values.get_str("FILE");
    let order = flag_in(values, "order")?;
    let go_on = flag_in(values, "go-on")?;
    let stats = flag_in(values, "stats")?;
    let json = flag_in(values, "json")?;
    let line = JudgeLine {
        histories,
        steps,
        explains,
        allowed,
        order,
        go_on,
        stats,
        json,
    };
    if !may_judge(&line) {
        return None;
    }
    Some(CommandLine::Judge(line))
}

// Whether there is a history, and of a judgement by an order no more and no words of a search.
fn may_judge(line: &JudgeLine<'_>) -> bool
    ensures may { result ≡ true → MayJudge (judge_task_of line.now) }
    ensures may_not { result ≡ false → MayJudge (judge_task_of line.now) → ⊥ }
{
    match line.explains {
        None => !line.histories.is_empty(),
        Some(_) => line.histories.len() == 1
            && line.steps == DEFAULT_STEPS
            && !line.order
            && !line.go_on,
    }
}

/// What is said where the values of the command come to no line.
pub(crate) fn judge_complaint(values: &ArgMatches<'_>) -> &'static str {
    match values.get_strs("RULE") {
        Some(words) if words.iter().any(|word| rule_of(*word).is_none()) => {
            "invalid value for '--allow <RULE>': it is wait-drops, close-own-descriptor, no-query, stale-read-denial or lost-at"
        }
        _ =>
            "the argument '--explains <FILE>' takes one HISTORY, and no '--steps', '--order' or '--go-on'",
    }
}

// The rules that are asked for; none where a word is no rule's.
fn rules_in(alloc: Global, values: &ArgMatches<'_>) -> Result<Option<Vec<AllowedRule>>, AllocError>
    ensures { IfOk result (AreRulesOf (unwrap_or (all_of (codes "RULE") (rows_of (found_of values.now))) [])) }
{
    match values.get_strs("RULE") {
        Some(words) => rules_of(alloc, words),
        None => Ok(Some(Vec::new(alloc))),
    }
}

// The rules of these words.
fn rules_of(alloc: Global, words: &[&str]) -> Result<Option<Vec<AllowedRule>>, AllocError>
    ensures { IfOk result (AreRulesOf (map (λ word. word.now) words.now)) }
{
    let mut rules = Vec::new(alloc);
    for word in words {
        let Some(rule) = rule_of(*word) else {
            return Ok(None);
        };
        rules.push(rule)?;
    }
    Ok(Some(rules))
}

// The rule of this word.
fn rule_of(word: &str) -> Option<AllowedRule>
    ensures { IsRuleOf word.now result }
{
    match word {
        "wait-drops" => Some(AllowedRule::WaitDrops),
        "close-own-descriptor" => Some(AllowedRule::CloseOwnDescriptor),
        "no-query" => Some(AllowedRule::NoQuery),
        "stale-read-denial" => Some(AllowedRule::StaleReadDenial),
        "lost-at" => Some(AllowedRule::LostAt),
        _ => None,
    }
}
