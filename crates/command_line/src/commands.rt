//! The commands of the program.
ghost use Rattle.std.specs.Prelude.{◌≡◌, IfOk};
ghost use Rattle.clap.specs.Words.{app_of, rule_of};
ghost use Rattle.command_line.specs.rule.Words.{audit_app, bare_app, file_rule, history_app, judge_app, program_app, run_app, state_app, threads_app};

use crate::notes::{
    AUDIT_NOTES, HISTORY_NOTES, JUDGE_NOTES, PROGRAM_NOTES, RUN_NOTES, STATE_NOTES, THREADS_NOTES,
    VERSION,
};
use crate::table::{bare_command, flag, number, option, with_argument, with_command, word};
use crate::values::GREATEST_SEED;
use clap::{Arg, ArgAction, Command};
use std::alloc::{AllocError, Global};

// What help says of a script and of a journal that is read.
const SCRIPT: &str = "The script: a file of lines, or - for standard input";

const JOURNAL: &str = "The journal: a file of lines, or - for standard input";

/// The program's command line.
pub(crate) fn program<'a>(alloc: Global) -> Result<Command<'a>, AllocError>
    ensures { IfOk result (λ command. app_of command ≡ program_app) }
{
    let program = with_command(bare_program(alloc), run_command(alloc)?)?;
    let program = with_command(program, threads_command(alloc)?)?;
    let program = with_command(program, audit_command(alloc)?)?;
    let program = with_command(program, history_command(alloc)?)?;
    let program = with_command(program, state_command(alloc)?)?;
    with_command(program, judge_command(alloc)?)
}

// The program's command line without its commands.
fn bare_program<'a>(alloc: Global) -> Command<'a>
    ensures { app_of result ≡ bare_app }
{
    bare_command(
        alloc,
        "lockreplay",
        "Run scripts of record locks in a cluster, and print what came of them",
        PROGRAM_NOTES,
    )
    .version(VERSION)
    .subcommand_required(true)
    .arg_required_else_help(true)
}

fn run_command<'a>(alloc: Global) -> Result<Command<'a>, AllocError>
    ensures { IfOk result (λ command. app_of command ≡ run_app) }
{
    let about = "Run each line of a script in order and print the listing";
    let command = bare_command(alloc, "run", about, RUN_NOTES);
    let command = with_argument(command, word(alloc, "SCRIPT", SCRIPT))?;
    let help = "Go on behind the run of JOURNAL";
    let command = with_argument(command, option(alloc, "JOURNAL", "after", help))?;
    let command = with_argument(command, journal_file(alloc))?;
    let help = "Compare the replies with the '# expect' lines of SCRIPT";
    let command = with_argument(command, flag(alloc, "expect", help))?;
    let help = "Make no listing, which needs --journal or --expect";
    let command = with_argument(command, flag(alloc, "quiet", help))?;
    let help = "Go on behind SCRIPT until the run is calm";
    with_argument(command, flag(alloc, "calm", help))
}

fn threads_command<'a>(alloc: Global) -> Result<Command<'a>, AllocError>
    ensures { IfOk result (λ command. app_of command ≡ threads_app) }
{
    let about = "Run a script on threads and print the listing";
    let command = bare_command(alloc, "threads", about, THREADS_NOTES);
    let command = with_argument(command, word(alloc, "SCRIPT", SCRIPT))?;
    let help = "The seed of the weather that messages meet, up to 4294967295";
    let seed = number(alloc, "N", "seed", help, 0, GREATEST_SEED).default_value("1");
    let command = with_argument(command, seed)?;
    let help = "End the run where no open call can be answered any more";
    let command = with_argument(command, flag(alloc, "stop-when-stuck", help))?;
    let help = "Make failures and starts while calls are open";
    let command = with_argument(command, flag(alloc, "no-join", help))?;
    with_argument(command, journal_file(alloc))
}

fn audit_command<'a>(alloc: Global) -> Result<Command<'a>, AllocError>
    ensures { IfOk result (λ command. app_of command ≡ audit_app) }
{
    let about = "Say whether a journal is one of a run";
    let command = bare_command(alloc, "audit", about, AUDIT_NOTES);
    with_argument(command, word(alloc, "JOURNAL", JOURNAL))
}

fn history_command<'a>(alloc: Global) -> Result<Command<'a>, AllocError>
    ensures { IfOk result (λ command. app_of command ≡ history_app) }
{
    let about = "Print the history of a journal";
    let command = bare_command(alloc, "history", about, HISTORY_NOTES);
    let command = with_argument(command, word(alloc, "JOURNAL", JOURNAL))?;
    let help = "Print what the clients saw, for 'lockreplay judge'";
    with_argument(command, flag(alloc, "as-clients", help))
}

fn state_command<'a>(alloc: Global) -> Result<Command<'a>, AllocError>
    ensures { IfOk result (λ command. app_of command ≡ state_app) }
{
    let about = "Show what the cluster of a journal holds";
    let command = bare_command(alloc, "state", about, STATE_NOTES);
    let command = with_argument(command, word(alloc, "JOURNAL", JOURNAL))?;
    let help = "Show the state behind entry K, or with 0 that before the first";
    with_argument(command, number(alloc, "K", "at", help, 0, GREATEST_SEED))
}

fn judge_command<'a>(alloc: Global) -> Result<Command<'a>, AllocError>
    ensures { IfOk result (λ command. app_of command ≡ judge_app) }
{
    let about = "Judge what clients of a lock manager saw";
    let command = bare_command(alloc, "judge", about, JUDGE_NOTES);
    let help = "The history: a file of lines, or - for standard input";
    let histories = word(alloc, "HISTORY", help).action(ArgAction::Append);
    let command = with_argument(command, histories)?;
    let help = "How many tables of a file are looked at, up to 4294967295";
    let steps = number(alloc, "N", "steps", help, 1, GREATEST_SEED).default_value("10000000");
    let command = with_argument(command, steps)?;
    let help = "Say whether the order in FILE explains HISTORY";
    let command = with_argument(command, option(alloc, "FILE", "explains", help))?;
    let help = "Allow a difference from one table, as wait-drops";
    let rules = option(alloc, "RULE", "allow", help).action(ArgAction::Append);
    let command = with_argument(command, rules)?;
    let help = "Print an order of the calls that explains them";
    let command = with_argument(command, flag(alloc, "order", help))?;
    let help = "Leave out what fits nowhere, and go on behind it";
    let command = with_argument(command, flag(alloc, "go-on", help))?;
    let help = "Print counts of calls and of tables";
    let command = with_argument(command, flag(alloc, "stats", help))?;
    let help = "Print the text as JSON";
    with_argument(command, flag(alloc, "json", help))
}

fn journal_file<'a>(alloc: Global) -> Arg<'a>
    ensures { rule_of result ≡ file_rule }
{
    let help = "Write the journal of the run to FILE";
    option(alloc, "FILE", "journal", help)
}
