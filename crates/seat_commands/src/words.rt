//! What the words of a command line ask for.
ghost use Rattle.std.specs.Prelude.{◌≡◌, ◌≤◌, codes, decimal, map, IfErr, IfOk, IfSome, Some};
ghost use Rattle.clap.specs.Words.{app_of, first_value, found_of, kind_of, subcommand_rows_of};
ghost use Rattle.seat_commands.specs.rule.SeatTalks.{IsIn};
ghost use Rattle.seat_commands.specs.rule.Asking.{AsksFor, HasActor, HasShape, IsKindOf, IsMet, IsNamed, IsRefusal, IsServedAsked};
ghost use Rattle.seat_commands.specs.rule.Table.{IsTable};

use crate::{ActorLine, Asked, GREATEST_MOMENT, MOST_PAST, MembersLine, MergeLine, program};
use clap::error::ErrorKind;
use clap::{ArgMatches, Command, Error};
use command_line::refusal::Refusal;
use messages::{Actor, Shape};
use model::Policy;
use std::alloc::{AllocError, Global};
use std::convert::AsStr;
use texts::number::number_of;
use texts::words::Named;

// What is said of words with which nothing is wrong by the table, but which come to no line.
const UNSERVED: &str =
    "there is no such actor in the cluster, a number is not written plainly, or --journal is missing";

/// What the words ask for, the first of them being the program's name.
///
/// # Errors
/// What is shown in its place: what is wrong with the words, or the help that they ask for; `NoMemory` where a request for
/// memory was refused.
pub(crate) fn asked_by<'a, S: AsStr>(alloc: Global, words: &'a [S]) -> Result<Asked<'a>, Refusal>
    ensures asked { IfOk result (AsksFor (map S.text words.entry.now)) }
    ensures served { IfOk result IsServedAsked }
    ensures refused { IfErr result (IsRefusal (map S.text words.entry.now)) }
{
    let Ok(mut command) = program(alloc) else {
        return Err(Refusal::NoMemory);
    };
    match asked_of(alloc, &mut command, words) {
        Ok(line) => Ok(line),
        Err(error) => Err(Refusal::of(alloc, &error)),
    }
}

// What the command of the table makes of the words, or its error.
fn asked_of<'a, S: AsStr>(
    alloc: Global,
    command: &mut Command<'a>,
    words: &'a [S],
) -> Result<Asked<'a>, Error>
    requires { IsTable (app_of command.old) }
    ensures asked { IfOk result (AsksFor (map S.text words.entry.now)) }
    ensures served { IfOk result IsServedAsked }
    ensures kind { IfErr result (λ error. IsKindOf (map S.text words.entry.now) (kind_of error)) }
{
    let matches = command.try_get_matches_from_mut(words)?;
    let met = line_of(alloc, &matches)?;
    match met {
        Some(line) => Ok(line),
        None => match command.error(ErrorKind::ValueValidation, UNSERVED) {
            Ok(error) => Err(error),
            Err(error) => Err(Error::from(error)),
        },
    }
}

#[tactic(auto, using(crate::proofs::Asking::served))]
fn line_of<'a>(alloc: Global, matches: &ArgMatches<'a>) -> Result<Option<Asked<'a>>, AllocError>
    ensures met { IfOk result (λ asked. IfSome asked (IsMet (subcommand_rows_of matches.now))) }
    ensures served { IfOk result (λ asked. IfSome asked IsServedAsked) }
{
    let Some((name, values)) = matches.subcommand() else {
        return Ok(None);
    };
    match name {
        "seat" => Ok(seat_in(values)),
        "members" => Ok(members_in(values)),
        "merge" => merge_in(alloc, values),
        "play" => Ok(Some(Asked::Play)),
        _ => Ok(None),
    }
}

fn seat_in<'a>(values: &ArgMatches<'a>) -> Option<Asked<'a>>
    ensures { IfSome result (IsNamed (codes "seat") (found_of values.now)) }
{
    let policy = Policy::of_word(text_in(values, "POLICY")?)?;
    let shape = shape_in(values, policy)?;
    let actor = actor_in(values, shape)?;
    let again = values.get_flag("again");
    let left = number_in(values, "TIMES", 0, u64::from(MOST_PAST))? as u16;
    let log = values.get_str("LOG");
    let clock = values.get_flag("clock");
    Some(Asked::Seat(ActorLine {
        shape,
        actor,
        again,
        left,
        log,
        clock,
    }))
}

fn members_in<'a>(values: &ArgMatches<'a>) -> Option<Asked<'a>>
    ensures { IfSome result (IsNamed (codes "members") (found_of values.now)) }
{
    let shape = shape_in(values, Policy::Wide)?;
    let state = text_in(values, "STATE")?;
    let clock = values.get_flag("clock");
    Some(Asked::Members(MembersLine {
        shape,
        state,
        clock,
    }))
}

#[tactic(auto, using(crate::proofs::Asking::has_logs))]
fn merge_in<'a>(alloc: Global, values: &ArgMatches<'a>) -> Result<Option<Asked<'a>>, AllocError>
    ensures { IfOk result (λ asked. IfSome asked (IsNamed (codes "merge") (found_of values.now))) }
{
    let (Some(paths), Some(skew)) = (
        values.get_strs("LOG"),
        number_in(values, "N", 0, GREATEST_MOMENT),
    ) else {
        return Ok(None);
    };
    let mut logs = Vec::new(alloc);
    logs.extend_from_slice(paths)?;
    let journal = values.get_str("JOURNAL");
    let members = values.get_str("MEMBERS");
    let check = values.get_flag("check");
    if journal.is_none() && !check {
        return Ok(None);
    }
    Ok(Some(Asked::Merge(MergeLine {
        logs,
        members,
        journal,
        check,
        skew,
    })))
}

// The shape of the cluster.
fn shape_in(values: &ArgMatches<'_>, policy: Policy) -> Option<Shape>
    ensures { IfSome result (HasShape (found_of values.now) policy) }
{
    let nodes = number_in(values, "NODES", 1, 64)?;
    let files = number_in(values, "FILES", 1, 256)?;
    match Shape::new(nodes as u8, files as u16, policy) {
        Ok(shape) => Some(shape),
        Err(_) => None,
    }
}

// The actor, which is one of the cluster.
fn actor_in(values: &ArgMatches<'_>, shape: Shape) -> Option<Actor>
    ensures has { IfSome result (HasActor (found_of values.now)) }
    ensures inside { IfSome result (IsIn shape) }
{
    match text_in(values, "KIND")? {
        "node" => {
            let node = number_in(values, "NUMBER", 1, u64::from(shape.nodes()))?;
            Some(Actor::Node(node as u8))
        }
        "server" => {
            let file = number_in(values, "NUMBER", 1, u64::from(shape.files()))?;
            Some(Actor::Server(file as u16))
        }
        _ => None,
    }
}

// The text of the argument, if it has one.
#[tactic(auto, using(crate::proofs::Asking::has_text))]
fn text_in<'a>(values: &ArgMatches<'a>, id: &str) -> Option<&'a str>
    ensures { IfSome result (λ text. first_value (found_of values.now) id.now ≡ Some text.now) }
{
    values.get_str(id)
}

// The number from the least to the most that the argument has, written without needless zeros.
fn number_in(values: &ArgMatches<'_>, id: &str, least: u64, most: u64) -> Option<u64>
    ensures text { IfSome result (λ number. first_value (found_of values.now) id.now ≡ Some (decimal number)) }
    ensures within { IfSome result (λ number. (least ≤ number) × (number ≤ most)) }
{
    number_of(text_in(values, id)?, least, most)
}
