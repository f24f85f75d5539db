//! The table of the commands.
ghost use Rattle.std.specs.Prelude.{◌≡◌, true, IfOk};
ghost use Rattle.clap.specs.Words.{app_of, rule_of};
ghost use Rattle.seat_commands.specs.rule.Table.{IsChosen, IsSeatApp, IsTable, bare_app, clock_rule, files_rule, kind_rule, kinds, members_app, merge_app, needed_rule, nodes_rule, number_argument_rule, play_app, policies, policy_rule};

use crate::help::{MEMBERS_NOTES, MERGE_NOTES, PLAY_NOTES, SEAT_NOTES};
use clap::builder::ValueParser;
use clap::{Arg, ArgAction, Command};
use command_line::table::{bare_command, flag, number, option, with_argument, with_command, word};
use std::alloc::{AllocError, Global};

// The kinds of actors.
const KINDS: &[&str] = &["node", "server"];

// The policies.
const POLICIES: &[&str] = &["wide", "exact"];

/// The most times that an actor begins again.
pub(crate) const MOST_PAST: u32 = 65_534;

/// The command line of the commands.
pub(crate) fn program<'a>(alloc: Global) -> Result<Command<'a>, AllocError>
    ensures { IfOk result (λ command. IsTable (app_of command)) }
{
    let program = with_command(bare_program(alloc), seat_command(alloc)?)?;
    let program = with_command(program, members_command(alloc)?)?;
    let program = with_command(program, merge_command(alloc)?)?;
    with_command(program, play_command(alloc))
}

// The command line without its commands.
fn bare_program<'a>(alloc: Global) -> Command<'a>
    ensures { app_of result ≡ bare_app }
{
    Command::new(alloc, "lockreplay").subcommand_required(true)
}

fn seat_command<'a>(alloc: Global) -> Result<Command<'a>, AllocError>
    ensures { IfOk result (λ command. IsSeatApp (app_of command)) }
{
    let about = "Be one node or one token server, by lines";
    let command = bare_command(alloc, "seat", about, SEAT_NOTES);
    let command = with_argument(command, kind_argument(alloc))?;
    let command = with_argument(command, number_argument(alloc))?;
    let command = with_argument(command, nodes_argument(alloc))?;
    let command = with_argument(command, files_argument(alloc))?;
    let command = with_argument(command, policy_argument(alloc))?;
    let help = "Work only once the actor begins again";
    let command = with_argument(command, flag(alloc, "again", help))?;
    let help = "With --again: how many times it begins again before that";
    let past = number(alloc, "TIMES", "past", help, 0, MOST_PAST).default_value("0");
    let command = with_argument(command, past)?;
    let help = "Write each block to LOG first, behind what it has";
    let command = with_argument(command, option(alloc, "LOG", "log", help))?;
    with_argument(command, clock_argument(alloc))
}

fn members_command<'a>(alloc: Global) -> Result<Command<'a>, AllocError>
    ensures { IfOk result (λ command. app_of command ≡ members_app) }
{
    let about = "Keep the list of declarations and starts, by lines";
    let command = bare_command(alloc, "members", about, MEMBERS_NOTES);
    let command = with_argument(command, nodes_argument(alloc))?;
    let command = with_argument(command, files_argument(alloc))?;
    let help = "The file that has the list";
    let command = with_argument(command, needed(alloc, "STATE", "state", help))?;
    with_argument(command, clock_argument(alloc))
}

fn merge_command<'a>(alloc: Global) -> Result<Command<'a>, AllocError>
    ensures { IfOk result (λ command. app_of command ≡ merge_app) }
{
    let about = "Make one journal of the logs of seats";
    let command = bare_command(alloc, "merge", about, MERGE_NOTES);
    let logs = word(alloc, "LOG", "The log of a seat: a file of blocks");
    let command = with_argument(command, logs.action(ArgAction::Append))?;
    let help = "Write the journal to JOURNAL";
    let command = with_argument(command, option(alloc, "JOURNAL", "journal", help))?;
    let help = "The list of declarations and starts";
    let command = with_argument(command, option(alloc, "MEMBERS", "members", help))?;
    let help = "Only tell whether there is a journal";
    let command = with_argument(command, flag(alloc, "check", help))?;
    let help = "By how many microseconds clocks may differ";
    let skew = option(alloc, "N", "skew", help).default_value("0");
    with_argument(command, skew.value_parser(ValueParser::signed(0, i64::MAX)))
}

fn play_command<'a>(alloc: Global) -> Command<'a>
    ensures { app_of result ≡ play_app }
{
    let about = "Run a script line by line, as its lines come";
    bare_command(alloc, "play", about, PLAY_NOTES)
}

fn kind_argument<'a>(alloc: Global) -> Arg<'a>
    ensures { IsChosen kind_rule kinds (rule_of result) }
{
    word(alloc, "KIND", "What the actor is").value_parser(ValueParser::Names(KINDS))
}

fn number_argument<'a>(alloc: Global) -> Arg<'a>
    ensures { rule_of result ≡ number_argument_rule }
{
    let help = "The number of the node, or of the token server's file";
    word(alloc, "NUMBER", help).value_parser(ValueParser::signed(1, 256))
}

fn nodes_argument<'a>(alloc: Global) -> Arg<'a>
    ensures { rule_of result ≡ nodes_rule }
{
    let help = "The nodes of the cluster, from 1 to 64";
    number(alloc, "NODES", "nodes", help, 1, 64).required(true)
}

fn files_argument<'a>(alloc: Global) -> Arg<'a>
    ensures { rule_of result ≡ files_rule }
{
    let help = "The files of the cluster, from 1 to 256";
    number(alloc, "FILES", "files", help, 1, 256).required(true)
}

fn policy_argument<'a>(alloc: Global) -> Arg<'a>
    ensures { IsChosen policy_rule policies (rule_of result) }
{
    let help = "How many bytes a node asks for beyond those of a call";
    needed(alloc, "POLICY", "policy", help).value_parser(ValueParser::Names(POLICIES))
}

fn clock_argument<'a>(alloc: Global) -> Arg<'a>
    ensures { rule_of result ≡ clock_rule }
{
    let help = "Begin blocks with two readings of the clock";
    flag(alloc, "clock", help)
}

// An option that must be there.
fn needed<'a>(alloc: Global, id: &'a str, long: &'a str, help: &'a str) -> Arg<'a>
    ensures { rule_of result ≡ needed_rule id.entry.now long.entry.now }
{
    option(alloc, id, long, help).required(true)
}
