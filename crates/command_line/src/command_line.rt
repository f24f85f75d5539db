//! The lines that words may ask for.
ghost use Rattle.std.specs.Prelude.{◌≡◌, ◌⊎◌, ℕ, List, codes, false, true, map, IfErr, IfOk, Some};
ghost use Rattle.std.specs.Option.{option_map};
ghost use Rattle.clap.specs.Words.{found_of, kind_of, rows_of, subcommand_rows_of};
ghost use Rattle.clap.specs.declared.error.kind.ErrorKind.TheVariants.{OutOfMemory, ValueValidation};
ghost use Rattle.command_line.specs.rule.Words.{IsKindOf, IsLineOf, AsksFor, IsRefusal};
ghost use Rattle.command_line.specs.rule.Tasks.{task_of, MayBeQuiet, Task};

use crate::commands::program;
use crate::judge_line::{JudgeLine, judge_complaint, judge_in};
use crate::refusal::Refusal;
use crate::values::{GREATEST_SEED, flag_in, number_if_given, number_in};
use clap::error::ErrorKind;
use clap::{ArgMatches, Command, Error};
use std::alloc::{AllocError, Global};
use std::convert::AsStr;

/// What the words of a command line ask for. Each text is a path.
#[derive(Drop)]
pub enum CommandLine<'a> {
    /// `run SCRIPT`, with what else is asked of a run: to run each line of the script in order.
    Run(RunLine<'a>),
    /// `threads SCRIPT`, with what else is asked of a run on threads: to run the script on threads.
    Threads(ThreadsLine<'a>),
    /// `audit JOURNAL`: to say whether the journal is one of a run.
    Audit { journal: &'a str },
    /// `history JOURNAL [--as-clients]`: to print the history of the journal, or what its clients saw, if that is asked for.
    History { journal: &'a str, as_clients: bool },
    /// `state JOURNAL [--at K]`: to show what the cluster of the journal holds behind entry K, or with 0 before the first;
    /// behind the last where it is left out.
    State { journal: &'a str, at: Option<u32> },
    /// `judge HISTORY..`, with what else is asked of a judgement: to say of each history whether one table explains it, or
    /// whether the order that is given does.
    Judge(JudgeLine<'a>),
}

/// `run SCRIPT [--after JOURNAL] [--journal FILE] [--expect] [--quiet] [--calm]`: to run each line of the script in order,
/// and to print the listing.
#[derive(Clone, Copy)]
pub struct RunLine<'a> {
    pub script: &'a str,
    /// The journal behind whose run the script goes on, if it doesn't run in a cluster that begins.
    pub after: Option<&'a str>,
    /// The file to which the journal of the run is written first, if there is one.
    pub journal: Option<&'a str>,
    /// Whether the replies are compared with what the script expects.
    pub expect: bool,
    /// Whether the listing is left away. It may be where there is a file for the journal, or the replies are compared.
    pub quiet: bool,
    /// Whether the run goes on behind the script's lines until it is calm.
    pub calm: bool,
}

/// `threads SCRIPT [--seed N] [--stop-when-stuck] [--no-join] [--journal FILE]`: to run the script on threads, and to print the
/// listing, how many receipts its journal holds and whether that is one of a run.
#[derive(Clone, Copy)]
pub struct ThreadsLine<'a> {
    pub script: &'a str,
    /// The seed of the weather that messages meet; 1 where it is left out.
    pub seed: u32,
    /// Whether the run ends where no open call can be answered any more.
    pub stop_when_stuck: bool,
    /// Whether failures and starts are made beside open calls.
    pub no_join: bool,
    /// The file to which the journal of the run is written first, if there is one.
    pub journal: Option<&'a str>,
}

impl<'a> CommandLine<'a> {
    /// What the words ask for, the first of them being the program's name.
    ///
    /// # Errors
    /// What is shown in its place: what is wrong with the words, or the help or the version that they
    /// ask for; `NoMemory` where a request for memory was refused.
    pub fn read<S: AsStr>(alloc: Global, words: &'a [S]) -> Result<CommandLine<'a>, Refusal>
        ensures asked { IfOk result (λ line. AsksFor (map S.text words.entry.now) (task_of line)) }
        ensures refused { IfErr result (IsRefusal (map S.text words.entry.now)) }
    {
        match line_in(alloc, words) {
            Ok(line) => Ok(line),
            Err(error) => Err(Refusal::of(alloc, &error)),
        }
    }
}

// The line that the program's command makes of the words, or its error.
fn line_in<'a, S: AsStr>(alloc: Global, words: &'a [S]) -> Result<CommandLine<'a>, Error>
    ensures asked { IfOk result (λ line. AsksFor (map S.text words.entry.now) (task_of line)) }
    ensures kind { IfErr result (λ error. IsKindOf (map S.text words.entry.now) (kind_of error)) }
{
    let mut command = program(alloc)?;
    let matches = command.try_get_matches_from_mut(words)?;
    let met = line_of(alloc, &matches)?;
    match met {
        Some(line) => Ok(line),
        None => Err(unserved(&mut command, &matches)),
    }
}

// The error of words with which nothing is wrong by the table, but which come to no line.
fn unserved(command: &mut Command<'_>, matches: &ArgMatches<'_>) -> Error
    ensures { (kind_of result ≡ ValueValidation) ⊎ (kind_of result ≡ OutOfMemory) }
{
    match command.error(ErrorKind::ValueValidation, complaint(matches)) {
        Ok(error) => error,
        Err(error) => Error::from(error),
    }
}

// What is said where the values of a command come to no line.
fn complaint(matches: &ArgMatches<'_>) -> &'static str {
    match matches.subcommand() {
        Some(("run", _)) => "the argument '--quiet' needs '--journal <FILE>' or '--expect'",
        Some(("judge", values)) => judge_complaint(values),
        _ => "no command is given",
    }
}

// The line that the words came to.
fn line_of<'a>(
    alloc: Global,
    matches: &ArgMatches<'a>,
) -> Result<Option<CommandLine<'a>>, AllocError>
    ensures { IfOk result (IsLineOf (subcommand_rows_of matches.now)) }
{
    let Some((name, values)) = matches.subcommand() else {
        return Ok(None);
    };
    match name {
        "run" => Ok(run_in(values)),
        "threads" => Ok(threads_in(values)),
        "audit" => Ok(audit_in(values)),
        "history" => Ok(history_in(values)),
        "state" => Ok(state_in(values)),
        "judge" => judge_in(alloc, values),
        _ => Ok(None),
    }
}

fn run_in<'a>(values: &ArgMatches<'a>) -> Option<CommandLine<'a>>
    ensures { IsLineOf (Some (codes "run", rows_of (found_of values.now))) result }
{
    let script = values.get_str("SCRIPT")?;
    let after = values.get_str("JOURNAL");
    let journal = values.get_str("FILE");
    let expect = flag_in(values, "expect")?;
    let quiet = flag_in(values, "quiet")?;
    let calm = flag_in(values, "calm")?;
    if !may_be_quiet(journal, expect, quiet) {
        return None;
    }
    Some(CommandLine::Run(RunLine {
        script,
        after,
        journal,
        expect,
        quiet,
        calm,
    }))
}

// Whether the listing of a run is made, or may be left away.
fn may_be_quiet(journal: Option<&str>, expect: bool, quiet: bool) -> bool
    ensures may { result ≡ true → MayBeQuiet (option_map (λ file. file.now) journal.entry) expect quiet }
    ensures may_not { result ≡ false → MayBeQuiet (option_map (λ file. file.now) journal.entry) expect quiet → ⊥ }
{
    !quiet || expect || journal.is_some()
}

fn threads_in<'a>(values: &ArgMatches<'a>) -> Option<CommandLine<'a>>
    ensures { IsLineOf (Some (codes "threads", rows_of (found_of values.now))) result }
{
    let script = values.get_str("SCRIPT")?;
    let seed = number_in(values, "N", 0, GREATEST_SEED)?;
    let stop_when_stuck = flag_in(values, "stop-when-stuck")?;
    let no_join = flag_in(values, "no-join")?;
    let file = values.get_str("FILE");
    Some(CommandLine::Threads(ThreadsLine {
        script,
        seed,
        stop_when_stuck,
        no_join,
        journal: file,
    }))
}

fn audit_in<'a>(values: &ArgMatches<'a>) -> Option<CommandLine<'a>>
    ensures { IsLineOf (Some (codes "audit", rows_of (found_of values.now))) result }
{
    let journal = values.get_str("JOURNAL")?;
    Some(CommandLine::Audit { journal })
}

fn history_in<'a>(values: &ArgMatches<'a>) -> Option<CommandLine<'a>>
    ensures { IsLineOf (Some (codes "history", rows_of (found_of values.now))) result }
{
    let journal = values.get_str("JOURNAL")?;
    let as_clients = flag_in(values, "as-clients")?;
    Some(CommandLine::History {
        journal,
        as_clients,
    })
}

fn state_in<'a>(values: &ArgMatches<'a>) -> Option<CommandLine<'a>>
    ensures { IsLineOf (Some (codes "state", rows_of (found_of values.now))) result }
{
    let journal = values.get_str("JOURNAL")?;
    let at = number_if_given(values, "K", 0, GREATEST_SEED)?;
    Some(CommandLine::State { journal, at })
}

/// No words ask for two things.
pub fn words_ask_for_one_task()
    ensures { (words : List (List ℕ)) (one other : Task) → AsksFor words one → AsksFor words other → one ≡ other }
{}
