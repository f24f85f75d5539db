//! Scripts that are played line by line, as each line comes.
ghost use Rattle.line_play.specs.rule.Playing.{PlaysLines};
ghost use Rattle.std.specs.Prelude.{◌≡◌, ◌≤◌, ◌<◌, ◌+◌, ◌++◌, ℕ, List, IfErr, IfOk, OnOk, drop, length, string_bytes, flat_map};
ghost use Rattle.messages.specs.rule.Shapes.{ShapeFields};
ghost use Rattle.lockscript.specs.rule.Scripts.{IsScriptShape, shape_text};
ghost use Rattle.player.specs.code.Rounds.{progress};
ghost use Rattle.player.specs.rule.Progress.{first_progress};
ghost use Rattle.seat_text.specs.rule.Talks.{longest_line};
ghost use Rattle.line_play.specs.code.Parts.{stage_of};
ghost use Rattle.line_play.specs.declared.stop.Stop.TheVariants.{NoMemory};
ghost use Rattle.line_play.specs.rule.Answers.{PlaysTo, Says, first_answer, answer_text, closing, refused_line, StopsAt, StopsBegin, StopsRun};
ghost use Rattle.journal_text.specs.rule.Journals.{entries_text};
ghost use Rattle.messages.specs.declared.version.Version.TheVariants.{Second};

use crate::stop::Stop;
use journal_text::journal::{push_end, push_entry, push_head};
use lockscript::{RefusedLine, ScriptCommand, command_of, is_skipped, shape_of};
use messages::{Entry, Version};
use player::Player;
use seat_text::talk::{Answerer, TalkEnd, talk};
use std::alloc::{AllocError, Global};
use std::fmt::Write;
use std::marker::Model;
use std::{io, str};

/// Why lines were played no further.
#[derive(Clone, Copy, Debug, PartialEq, Eq)]
pub enum PlayEnd {
    /// The input ended, or it can't be read, or the output failed.
    Talk(TalkEnd),
    /// A line stopped it.
    Line(Stop),
}

/// Plays the lines that are read, and writes the answer of each before the next one is read. What stands behind the last
/// line feed is no line, and a line of more than 67,108,864 bytes is a bad one. Tells why that ended.
pub fn play_lines<R: io::Read, W: io::Write>(alloc: Global, reader: &mut R, out: &mut W) -> PlayEnd
    ensures { PlaysLines result (R.remaining reader.old) (R.remaining reader.new) (W.contents out.old) (W.contents out.new) }
{
    let mut who = PlayedLines {
        alloc,
        lines: 0,
        player: None,
        stop: None,
    };
    let mut log = io::sink();
    let end = talk(alloc, &mut who, reader, &mut log, out);
    match (end, who.stop) {
        (TalkEnd::NoMemory, Some(stop)) => PlayEnd::Line(stop),
        (end, _) => PlayEnd::Talk(end),
    }
}

// A script as far as it was played: how many lines came, where their run stands, once the cluster line came, and why it is
// played no further, where that is so.
#[derive(Drop)]
struct PlayedLines {
    alloc: Global,
    lines: u64,
    player: Option<Player>,
    stop: Option<Stop>,
}

impl Model for PlayedLines {
    ghost use Rattle.line_play.specs.code.Parts.{PlayedParts};

    ghost Value = { PlayedParts };

    ghost view = { λ p. record { lines = p.lines; player = p.player } };
}

impl PlayedLines {
    // Why a line of more than 67,108,864 bytes is not played.
    fn too_long(&self) -> Stop
        ensures { (line : List ℕ) → longest_line < length line → StopsAt (stage_of self.now) line result }
    {
        match self.lines.checked_add(1) {
            Some(number) => Stop::BadLine(number),
            None => Stop::NoMemory,
        }
    }

    // Plays the next line, which has no line feed, and adds its answer. After an error it can't be used any more.
    //
    // # Errors
    // `BadLine` where the line may not stand there; `JournalFull` where it needs more entries than a journal may have;
    // `NoMemory` where a request for memory was refused, or lines are too many to be counted.
    fn take(&mut self, line: &[u8], out: &mut String) -> Result<(), Stop>
        ensures said { OnOk result ((said : List ℕ) × Says (stage_of self.old) line.now said (stage_of self.new) × (string_bytes out.new ≡ string_bytes out.old ++ said)) }
        ensures stopped { IfErr result (StopsAt (stage_of self.old) line.now) }
    {
        let number = self.lines.checked_add(1).ok_or(Stop::NoMemory)?;
        let Ok(text) = str::from_utf8(line) else {
            return Err(Stop::BadLine(number));
        };
        self.lines = number;
        if is_skipped(text) {
            return Ok(());
        }
        match &mut self.player {
            Some(player) => play_line(self.alloc, player, number, text, out),
            None => {
                self.player = Some(begin(self.alloc, number, text, out)?);
                Ok(())
            }
        }
    }
}

impl Answerer for PlayedLines {
    ghost use Rattle.line_play.specs.code.Parts.{SaysAt};

    ghost says = { SaysAt };

    fn answer(&mut self, line: &[u8], out: &mut String) -> Result<(), AllocError> {
        match self.take(line, out) {
            Ok(()) => Ok(()),
            Err(stop) => {
                self.stop = Some(stop);
                Err(AllocError)
            }
        }
    }

    fn answer_long(&mut self, _out: &mut String) -> Result<(), AllocError> {
        self.stop = Some(self.too_long());
        Err(AllocError)
    }
}

// The player of the cluster that the line names, with the answer to the line.
fn begin(alloc: Global, number: u64, text: &str, out: &mut String) -> Result<Player, Stop>
    ensures begun { IfOk result (λ player. (shape : ShapeFields) × IsScriptShape shape × (text.now ≡ shape_text shape)
        × (progress player ≡ first_progress shape) × (string_bytes out.new ≡ string_bytes out.old ++ first_answer shape)) }
    ensures stopped { IfErr result (StopsBegin number text.now) }
{
    let shape = shape_of(text).ok_or(Stop::BadLine(number))?;
    let player = Player::new(alloc, shape)?;
    push_head(out, &shape)?;
    push_end(out, 0)?;
    Ok(player)
}

// Plays a line that gives a command, and adds its answer.
fn play_line(
    alloc: Global,
    player: &mut Player,
    number: u64,
    text: &str,
    out: &mut String,
) -> Result<(), Stop>
    requires { 1 ≤ number }
    ensures said { OnOk result ((said : List ℕ) × PlaysTo number text.now (progress player.old) said (progress player.new)
        × (string_bytes out.new ≡ string_bytes out.old ++ said)) }
    ensures stopped { IfErr result (StopsRun number text.now (progress player.old)) }
{
    let bad = Stop::BadLine(number);
    let command = command_of(text).ok_or(bad)?;
    let number = u32::try_from(number).map_err(|_| bad)?;
    let entries = player.run().entries().len();
    let refused = player.refused().len();
    player.carry_out(alloc, number, command)?;
    let added = refused_behind(player, refused);
    push_answer(out, command, player.run().entries(), entries, added)?;
    Ok(())
}

// The refused lines behind so many.
fn refused_behind(player: &Player, before: usize) -> &[RefusedLine]
    requires { before ≤ length player.now.refused }
    ensures { result.now ≡ drop before player.now.refused }
{
    &player.refused()[before..]
}

// Adds the answer to a line with this command: the entries of the run behind so many, and these refusals.
fn push_answer(
    out: &mut String,
    command: ScriptCommand,
    entries: &[Entry],
    before: usize,
    refused: &[RefusedLine],
) -> Result<(), AllocError>
    requires { before ≤ length entries.now }
    ensures { OnOk result (string_bytes out.new ≡ string_bytes out.old ++ answer_text command before (drop before entries.now) refused.now) }
{
    push_entries_behind(out, entries, before)?;
    push_refusals(out, refused)?;
    push_closing(out, command, refused, entries.len())
}

// Adds the lines of the entries behind so many.
fn push_entries_behind(out: &mut String, entries: &[Entry], before: usize) -> Result<(), AllocError>
    requires { before ≤ length entries.now }
    ensures { OnOk result (string_bytes out.new ≡ string_bytes out.old ++ entries_text Second (before + 1) (drop before entries.now)) }
{
    for place in before..entries.len() {
        push_entry(out, Version::Second, place as u64 + 1, &entries[place])?;
    }
    Ok(())
}

// Adds a line for each refusal.
fn push_refusals(out: &mut String, refused: &[RefusedLine]) -> Result<(), AllocError>
    ensures { OnOk result (string_bytes out.new ≡ string_bytes out.old ++ flat_map refused_line refused.now) }
{
    for RefusedLine { line: _, code } in refused {
        writeln!(out, "refused {code}")?;
    }
    Ok(())
}

// Adds the last line of an answer, if it has one.
fn push_closing(
    out: &mut String,
    command: ScriptCommand,
    refused: &[RefusedLine],
    count: usize,
) -> Result<(), AllocError>
    ensures { OnOk result (string_bytes out.new ≡ string_bytes out.old ++ closing command refused.now count) }
{
    match (refused, command) {
        ([], _) | (_, ScriptCommand::Settle) => push_end(out, count),
        _ => Ok(()),
    }
}
