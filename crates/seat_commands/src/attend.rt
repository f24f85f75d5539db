//! The commands as functions of their words.
ghost use Rattle.std.specs.Prelude.{◌≡◌, IfOk, IfSome, None, OnErr, map, option_map, is_some, slice_get};
ghost use Rattle.std.specs.Io.Buffered.{reader_remaining};
ghost use Rattle.seat_commands.specs.rule.Asking.{IsServedAsked, is_help_if, is_name_if, is_of_command};
ghost use Rattle.seat_commands.specs.rule.Doings.{Attends, DoesSo, HasSeat, end_status, play_status};
ghost use Rattle.seat_commands.specs.rule.SeatTalks.{IsIn};

use crate::merge_command::merge_command;
use crate::{ActorLine, Asked, asked_by, have_seat, keep_members, open_added, told};
use command_line::refusal::Refusal;
use line_play::answering::{PlayEnd, play_lines};
use line_play::stop::Stop;
use replay::{Fault, Output, Store, refuse};
use seat_text::TalkEnd;
use std::alloc::Global;
use std::convert::AsStr;
use std::io;
use std::io::{BufReader, Read, Write};
use std::rt::Files;
use std::time::Clock;

/// Does what the words ask for, the first of them being the program's name, where the second is `seat`, `members`,
/// `merge` or `play`, or `help` before one of these, and answers the exit status; else it does nothing.
///
/// The status is 0 at the end of the input, or where help was asked for, 2 where the words are wrong, 3 where the input,
/// the output or a file fails, 4 where memory was short; of `merge` it is that of `merge_command`. At 2 to 4 the second
/// writer is told why.
pub fn attend<R: Files + Clock, W: AsStr, I: Read + Drop, S: Store, O: Write, E: Write>(
    rt: &R,
    alloc: Global,
    words: &[W],
    input: I,
    store: &mut S,
    out: &mut O,
    err: &mut E,
) -> Option<u8>
    ensures here { is_some result ≡ is_of_command (option_map W.text (slice_get words.now 1)) (option_map W.text (slice_get words.now 2)) }

    // Words of other commands are left to those.
    ensures left { result ≡ None → (store.new ≡ store.old) × (out.new ≡ out.old) × (err.new ≡ err.old) }
    ensures done { IfSome result (Attends R.File.contents R.File.remaining (S.holds store.old) (S.holds store.new) (I.remaining input)
        (O.contents out.old) (O.contents out.new) (map W.text words.now)) }
{
    if !is_here(words) {
        return None;
    }
    let line = match asked_by(alloc, words) {
        Ok(line) => line,
        Err(refusal) => return Some(refuse(&refusal, out, err)),
    };
    let Ok(mut reader) = buffered(alloc, input) else {
        return Some(refuse(&Refusal::NoMemory, out, err));
    };
    Some(done(rt, alloc, &line, &mut reader, store, out, err))
}

// The input, of which more is read at once than is asked for.
fn buffered<I: Read + Drop>(alloc: Global, input: I) -> io::Result<BufReader<I>>
    ensures { IfOk result (λ reader. reader_remaining I.remaining reader ≡ I.remaining input) }
{
    BufReader::new(alloc, input)
}

// Whether the words are of a command that stands here, or ask for its help.
fn is_here<W: AsStr>(words: &[W]) -> bool
    ensures { result ≡ is_of_command (option_map W.text (slice_get words.now 1)) (option_map W.text (slice_get words.now 2)) }
{
    let first = word_at(words, 1);
    is_name(first) || (is_help(first) && is_name(word_at(words, 2)))
}

// The word of this place, if there is one.
fn word_at<W: AsStr>(words: &[W], place: usize) -> Option<&str>
    ensures { option_map (λ word. word.now) result ≡ option_map W.text (slice_get words.now place) }
{
    match words.get(place) {
        Some(word) => Some(word.as_str()),
        None => None,
    }
}

// Whether a command that stands here has the name that is this word.
fn is_name(word: Option<&str>) -> bool
    ensures { result ≡ is_name_if (option_map (λ word. word.now) word.entry) }
{
    matches!(word, Some("seat" | "members" | "merge" | "play"))
}

// Whether the word asks for the help of a command.
fn is_help(word: Option<&str>) -> bool
    ensures { result ≡ is_help_if (option_map (λ word. word.now) word.entry) }
{
    matches!(word, Some("help"))
}

// Does what is asked, and answers the exit status.
fn done<R: Files + Clock, I: Read, S: Store, O: Write, E: Write>(
    rt: &R,
    alloc: Global,
    line: &Asked<'_>,
    reader: &mut I,
    store: &mut S,
    out: &mut O,
    err: &mut E,
) -> u8
    requires { IsServedAsked line.now }
    ensures { DoesSo R.File.contents R.File.remaining (S.holds store.old) (S.holds store.new)
        (I.remaining reader.old) (O.contents out.old) (O.contents out.new) line.now result }
{
    match line {
        Asked::Seat(line) => match seated(rt, alloc, line, reader, store, out) {
            Ok(end) => told_end(end, line.log, err),
            Err(fault) => told(&fault, err),
        },
        Asked::Members(line) => match keep_members(rt, alloc, line, reader, store, out) {
            Ok(end) => told_end(end, None, err),
            Err(fault) => told(&fault, err),
        },
        Asked::Merge(line) => merge_command(alloc, store, line, out, err),
        Asked::Play => told_play(play_lines(alloc, reader, out), err),
    }
}

// Has the seat of the line's actor, with its log.
fn seated<'a, R: Files + Clock, I: Read, S: Store, O: Write>(
    rt: &R,
    alloc: Global,
    line: &ActorLine<'a>,
    reader: &mut I,
    store: &mut S,
    out: &mut O,
) -> Result<TalkEnd, Fault<'a>>
    requires { IsIn line.now.shape line.now.actor }
    ensures talks { IfOk result (λ end. HasSeat R.File.contents line.now end (I.remaining reader.old) (I.remaining reader.new)
        (O.contents out.old) (O.contents out.new)) }
    ensures untouched { OnErr result ((reader.new ≡ reader.old) × (out.new ≡ out.old)) }
{
    match line.log {
        Some(path) => {
            let mut log = open_added(rt, store, path)?;
            Ok(have_seat(rt, alloc, line, reader, &mut log, out)?)
        }
        None => {
            let mut log = io::sink();
            Ok(have_seat(rt, alloc, line, reader, &mut log, out)?)
        }
    }
}

// Writes why a talk ended, unless that is the end of the input, and answers the exit status. Its log has this path.
fn told_end<E: Output>(end: TalkEnd, log: Option<&str>, err: &mut E) -> u8
    ensures { result ≡ end_status end }
{
    match end {
        TalkEnd::AtEnd => 0,
        TalkEnd::NoMemory => told(&Fault::NoMemory, err),
        TalkEnd::CannotRead => {
            let _ = err.put(b"cannot read standard input\n");
            3
        }
        TalkEnd::CannotWrite => told_unwritten(log, err),
    }
}

// Writes why lines were played no further, unless that is the end of the input, and answers the exit status.
fn told_play<E: Output>(end: PlayEnd, err: &mut E) -> u8
    ensures { result ≡ play_status end }
{
    match end {
        PlayEnd::Talk(end) => told_end(end, None, err),
        PlayEnd::Line(Stop::BadLine(number)) => told(&Fault::BadLine(number), err),
        PlayEnd::Line(Stop::JournalFull) => told(&Fault::JournalFull, err),
        PlayEnd::Line(Stop::NoMemory) => told(&Fault::NoMemory, err),
    }
}

// Writes that standard output or the log failed, and answers the exit status.
fn told_unwritten<E: Output>(log: Option<&str>, err: &mut E) -> u8
    ensures { result ≡ 3 }
{
    let Some(path) = log else {
        return told(&Fault::CannotWriteOutput, err);
    };
    let _ = err.put(b"cannot write standard output or ");
    let _ = err.put(path.as_bytes());
    let _ = err.put(b"\n");
    3
}
