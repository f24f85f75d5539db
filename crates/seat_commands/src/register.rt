//! Who keeps the list of declarations and starts in a file, and answers lines.
ghost use Rattle.std.specs.Prelude.{◌≡◌, ◌++◌, ℕ, List, OnOk, string_bytes};
ghost use Rattle.std.specs.Io.KnownBytes.{Appends};
ghost use Rattle.seat_commands.specs.rule.Clocks.{IsMoment};
ghost use Rattle.seat_commands.specs.rule.Registers.{AnswersChange, IsColumnOf, IsInquiryOf, Notes, SaysOfList, change_of, is_change_word};

use crate::{ChangeList, NotedChange, Stopwatch, push_noted, push_told};
use messages::{MemberEvent, Refused};
use seat_text::{Answerer, SeatLine, push_bad, push_refused, seat_line_of};
use std::alloc::{AllocError, Global};
use std::fs::OpenFile;
use std::io::Write;
use std::marker::Model;
use std::time::Clock;
use std::{io, str};
use texts::text::split_field;

// The column of a line that is too long.
const LONG_COLUMN: usize = 67_108_865;

/// The list of declarations and starts, and the file that has it.
#[derive(Drop)]
pub(crate) struct Register<'a, C, F> {
    alloc: Global,
    list: ChangeList,
    watch: Option<Stopwatch<'a, C>>,
    file: F,
    has_failed: bool,
}

impl<'a, C, F> Model for Register<'a, C, F> {
    ghost use Rattle.seat_commands.specs.rule.Registers.{Registry};

    ghost Value = { Registry F };

    ghost view = { λ b. record { list = b.list; last = b.watch; keeper = b.file } };
}

impl<'a, C: Clock, F: Write + OpenFile> Register<'a, C, F> {
    /// The list, which the file has already, and a clock, if it is to be read.
    pub(crate) fn new(
        alloc: Global,
        list: ChangeList,
        watch: Option<Stopwatch<'a, C>>,
        file: F,
    ) -> Register<'a, C, F>
        ensures { result ≡ record { list = list; last = watch.entry; keeper = file } }
    {
        Register {
            alloc,
            list,
            watch,
            file,
            has_failed: false,
        }
    }

    /// Whether the file failed.
    pub(crate) fn has_failed(&self) -> bool {
        self.has_failed
    }

    // The moment now, where a clock is read.
    fn moment(&mut self) -> Option<u64>
        ensures list { self.new.list ≡ self.old.list }
        ensures keeper { self.new.keeper ≡ self.old.keeper }
        ensures moment { IsMoment self.old.last result self.new.last }
    {
        match &mut self.watch {
            Some(watch) => Some(watch.look()),
            None => None,
        }
    }

    // Adds the change, and keeps its block.
    fn change(&mut self, change: MemberEvent, out: &mut String) -> Result<(), AllocError>
        ensures { OnOk result ((said : List ℕ) × AnswersChange F.contents change self.old said self.new × (string_bytes out.new ≡ string_bytes out.old ++ said)) }
    {
        let began = self.moment();
        match self.list.add(change) {
            Ok(incarnation) => self.note(change, incarnation, began, out),
            Err(Refused::NoMemory) => Err(AllocError),
            Err(refusal) => push_refused(out, refusal.number()),
        }
    }

    // Keeps the block of a change that was added, and then says it.
    fn note(
        &mut self,
        change: MemberEvent,
        incarnation: u16,
        began: Option<u64>,
        out: &mut String,
    ) -> Result<(), AllocError>
        ensures { OnOk result ((said : List ℕ) × Notes F.contents change incarnation began self.old said self.new × (string_bytes out.new ≡ string_bytes out.old ++ said)) }
    {
        let ended = self.moment();
        let noted = NotedChange {
            change,
            incarnation,
            interval: began.zip(ended),
        };
        let mut block = String::new(self.alloc);
        push_noted(&mut block, &noted, self.list.count())?;
        match keep(&mut self.file, block.as_bytes()) {
            Ok(()) => out.push_str(block.as_str()),
            Err(_) => {
                self.has_failed = true;
                Err(AllocError)
            }
        }
    }
}

impl<C: Clock, F: Write + OpenFile> Answerer for Register<'_, C, F> {
    ghost says = { SaysOfList F.contents };

    fn answer(&mut self, line: &[u8], out: &mut String) -> Result<(), AllocError> {
        let Ok(text) = str::from_utf8(line) else {
            return push_bad(out, 1);
        };
        match inquiry_of(text) {
            Some(Inquiry::Change(change)) => self.change(change, out),
            Some(Inquiry::List) => push_told(out, self.list.changes()),
            None => push_bad(out, bad_column(text)),
        }
    }

    fn answer_long(&mut self, out: &mut String) -> Result<(), AllocError> {
        push_bad(out, LONG_COLUMN)
    }
}

/// Writes the bytes behind those that the file has, and returns when they are safe there, on the disk.
///
/// # Errors
/// Where the file fails.
pub(crate) fn keep<F: Write + OpenFile>(file: &mut F, bytes: &[u8]) -> io::Result<()>
    ensures { OnOk result (Appends (F.contents file.old) (F.contents file.new) bytes.now) }
{
    file.write_all(bytes)?;
    file.sync_all()
}

/// What a line asks of the list.
#[derive(Clone, Copy)]
pub(crate) enum Inquiry {
    /// A member changes.
    Change(MemberEvent),
    /// What was told so far.
    List,
}

// What the line asks; none where it asks nothing.
#[tactic(auto, using(crate::proofs::Registers::asks_nothing, crate::proofs::Registers::tells_nothing))]
fn inquiry_of(text: &str) -> Option<Inquiry>
    ensures { IsInquiryOf text.now result }
{
    if text == "list" {
        return Some(Inquiry::List);
    }
    Some(Inquiry::Change(change_of(seat_line_of(text)?)?))
}

// The change that a seat is told of.
fn change_of(line: SeatLine<'_>) -> Option<MemberEvent>
    ensures { result ≡ change_of line.entry }
{
    match line {
        SeatLine::Declare { node } => Some(MemberEvent::Declare { node }),
        SeatLine::Restart { node } => Some(MemberEvent::Restart { node }),
        SeatLine::FailServer { file } => Some(MemberEvent::FailServer { file }),
        SeatLine::StartServer { file } => Some(MemberEvent::StartServer { file }),
        _ => None,
    }
}

// The byte of the line, from 1, at which what may not stand there begins: the operand behind its first word, or that word.
#[tactic(auto, using(crate::proofs::Registers::at_word, crate::proofs::Registers::at_word_alone))]
fn bad_column(line: &str) -> usize
    ensures { IsColumnOf line.now result }
{
    match split_field(line) {
        Some((word, _)) if is_change_word(word) => word.len() + 2,
        _ => 1,
    }
}

// Whether lines with an operand begin with the word.
fn is_change_word(word: &str) -> bool
    ensures { result ≡ is_change_word word.now }
{
    matches!(word, "declare" | "restart" | "fail-server" | "start-server")
}
