//! The parts of a table of commands, as the parser takes them.
ghost use Rattle.std.specs.Prelude.{◌≡◌, true, IfOk};
ghost use Rattle.clap.specs.Words.{app_of, new_app, rule_of, with_rule, with_subcommand};
ghost use Rattle.command_line.specs.rule.Words.{bounded_rule, flag_rule, option_rule, path_rule};

use clap::builder::ValueParser;
use clap::{Arg, ArgAction, Command};
use std::alloc::{AllocError, Global};

/// A command without arguments, with what its help says.
pub fn bare_command<'a>(alloc: Global, name: &'a str, about: &'a str, notes: &'a str) -> Command<'a>
    ensures { app_of result ≡ new_app name.entry.now }
{
    Command::new(alloc, name)
        .about(about)
        .after_long_help(notes)
}

/// The program with one command more.
///
/// # Errors
/// `AllocError` where a request for memory was refused.
pub fn with_command<'a>(
    program: Command<'a>,
    command: Command<'a>,
) -> Result<Command<'a>, AllocError>
    requires { (app_of command).top.is_plain ≡ true }
    ensures { IfOk result (λ r. app_of r ≡ with_subcommand (app_of program.entry) (app_of command.entry).top) }
{
    program.subcommand(command)
}

/// The command with one argument more.
///
/// # Errors
/// `AllocError` where a request for memory was refused.
pub fn with_argument<'a>(command: Command<'a>, argument: Arg<'a>) -> Result<Command<'a>, AllocError>
    requires { (rule_of argument).is_simple ≡ true }
    ensures { IfOk result (λ r. app_of r ≡ with_rule (app_of command.entry) (rule_of argument.entry)) }
{
    command.arg(argument)
}

/// A word that must be there, as a path.
pub fn word<'a>(alloc: Global, id: &'a str, help: &'a str) -> Arg<'a>
    ensures { rule_of result ≡ path_rule id.entry.now }
{
    Arg::new(alloc, id).required(true).help(help)
}

/// An option with a value, which may be left out: its name, and the name behind `--`.
pub fn option<'a>(alloc: Global, id: &'a str, long: &'a str, help: &'a str) -> Arg<'a>
    ensures { rule_of result ≡ option_rule id.entry.now long.entry.now }
{
    Arg::new(alloc, id).long(long).help(help)
}

/// An option with a number from the least to the greatest as its value.
pub fn number<'a>(
    alloc: Global,
    id: &'a str,
    long: &'a str,
    help: &'a str,
    least: u32,
    greatest: u32,
) -> Arg<'a>
    ensures { rule_of result ≡ bounded_rule id.entry.now long.entry.now least greatest }
{
    option(alloc, id, long, help).value_parser(ValueParser::signed(
        i64::from(least),
        i64::from(greatest),
    ))
}

/// A flag, which may be left out.
pub fn flag<'a>(alloc: Global, name: &'a str, help: &'a str) -> Arg<'a>
    ensures { rule_of result ≡ flag_rule name.entry.now }
{
    option(alloc, name, name, help).action(ArgAction::SetTrue)
}
