//! Who answers lines, one after the other, with a log of what it says.
ghost use Rattle.std.specs.Prelude.{◌≡◌, ◌<◌, ◌≤◌, ◌++◌, ℕ, List, OnOk, length, string_bytes, ◌∷◌, [], IfOk, OnErr, Some};
ghost use Rattle.seat_text.specs.rule.Talks.{longest_line, Gives, Hears, IsKept, AppendsPart, TellsPart, IsLine, Turned};
ghost use Rattle.std.specs.Io.KnownBytes.{Appends};

use std::alloc::{AllocError, Global};
use std::io;
use std::io::{ErrorKind, Read, Write};

/// Who answers lines.
pub trait Answerer {
    // It says this to the line, and is then that.
    ghost says: { Self → List ℕ → List ℕ → Self → Type 0 };

    /// Answers the line, which has no line feed. What it says comes behind what is there.
    ///
    /// # Errors
    /// `AllocError` where a request for memory was refused.
    fn answer(&mut self, line: &[u8], out: &mut String) -> Result<(), AllocError>
        requires { length line.now ≤ longest_line }
        ensures { OnOk result ((said : List ℕ) × says self.old line.now said self.new × (string_bytes out.new ≡ string_bytes out.old ++ said)) };

    /// Answers a line that is longer than 67,108,864 bytes, whatever it is.
    ///
    /// # Errors
    /// `AllocError` where a request for memory was refused.
    fn answer_long(&mut self, out: &mut String) -> Result<(), AllocError>
        ensures { OnOk result ((said : List ℕ) × ((line : List ℕ) → longest_line < length line → says self.old line said self.new) × (string_bytes out.new ≡ string_bytes out.old ++ said)) };
}

// The most bytes that a line may have.
const LONGEST_LINE: usize = 67_108_864;

/// What was heard.
#[derive(Clone, Copy, PartialEq, Eq)]
pub(crate) enum Heard {
    /// A line.
    Line,
    /// A line that is too long to be kept.
    Long,
    /// The end of the input, perhaps behind a part of a line.
    End,
    /// Perhaps a part of a line: the reader failed, or a request for memory was refused.
    Broken,
}

// The next byte, or none at the end.
#[tactic(auto, using(crate::proofs::Talks::kept_read))]
fn next_byte<R: Read>(reader: &mut R) -> io::Result<Option<u8>>
    ensures { Gives (R.remaining reader.old) (R.remaining reader.new) result }
{
    let mut bytes = [0u8; 1];
    match reader.read(&mut bytes) {
        Ok(0) => Ok(None),
        Ok(_) => Ok(Some(bytes[0])),
        Err(error) => Err(error),
    }
}

// Keeps a byte more of a line, unless it has too many. Tells whether it has.
#[tactic(auto, using(crate::proofs::Talks::keeps, crate::proofs::Talks::drops))]
fn keep(line: &mut Vec<u8>, byte: u8, is_long: bool) -> Result<bool, AllocError>
    ensures { IfOk result (λ long. (bytes : List ℕ) → IsKept is_long line.old.items bytes → IsKept long line.new.items (bytes ++ byte ∷ [])) }
{
    if line.len() >= LONGEST_LINE {
        return Ok(true);
    }
    line.push(byte)?;
    Ok(is_long)
}

/// Reads the next line, and keeps it without its line feed, unless it is too long.
#[tactic(none)]
pub(crate) fn hear<R: Read>(reader: &mut R, line: &mut Vec<u8>) -> Heard
    ensures { Hears (R.remaining reader.old) (R.remaining reader.new) line.new.items result }
{
    line.clear();
    let mut is_long = false;
    for _ in 0..u64::MAX {
        match next_byte(reader) {
            Ok(Some(b'\n')) => return if is_long { Heard::Long } else { Heard::Line },
            Ok(Some(byte)) => match keep(line, byte, is_long) {
                Ok(long) => is_long = long,
                Err(_) => return Heard::Broken,
            },
            Ok(None) => return Heard::End,
            Err(error) if error.kind() == ErrorKind::Interrupted => {}
            Err(_) => return Heard::Broken,
        }
    }
    Heard::Broken
}

/// What was said was not written: a writer failed.
#[derive(Clone, Copy)]
pub struct WriteFailed;

// Writes the bytes, and sends them on. On a failure the writer took a beginning of them.
fn put<W: Write>(writer: &mut W, bytes: &[u8]) -> Result<(), WriteFailed>
    ensures all { OnOk result (Appends (W.contents writer.old) (W.contents writer.new) bytes.now) }
    ensures part { OnErr result (AppendsPart (W.contents writer.old) (W.contents writer.new) bytes.now) }
{
    let mut rest = bytes;
    for _ in 0..u64::MAX {
        if rest.is_empty() {
            return writer.flush().map_err(|_| WriteFailed);
        }
        match writer.write(rest) {
            Ok(0) => return Err(WriteFailed),
            Ok(count) => rest = &rest[count..],
            Err(error) if error.kind() == ErrorKind::Interrupted => {}
            Err(_) => return Err(WriteFailed),
        }
    }
    Err(WriteFailed)
}

/// Writes the bytes to the log, and only then out.
///
/// # Errors
/// `WriteFailed` where one of the two fails.
pub fn tell<L: Write, W: Write>(log: &mut L, out: &mut W, bytes: &[u8]) -> Result<(), WriteFailed>
    ensures logged { OnOk result (Appends (L.contents log.old) (L.contents log.new) bytes.now) }
    ensures wrote { OnOk result (Appends (W.contents out.old) (W.contents out.new) bytes.now) }
    ensures part { OnErr result (TellsPart (L.contents log.old) (L.contents log.new) (W.contents out.old) (W.contents out.new) bytes.now) }
{
    put(log, bytes)?;
    put(out, bytes)
}

/// Why a talk ended.
#[derive(Clone, Copy, Debug, PartialEq, Eq)]
pub enum TalkEnd {
    /// The input ended.
    AtEnd,
    /// The reader failed, or a request for memory was refused as a line was read.
    CannotRead,
    /// The log or the writer failed.
    CannotWrite,
    /// A request for memory was refused as a line was answered.
    NoMemory,
}

/// Reads lines, and writes what is said to each, first to the log and then out, before the next one is read. What stands
/// behind the last line feed is answered by nobody. Tells why the talk ended.
#[tactic(none)]
pub fn talk<A: Answerer, R: Read, L: Write, W: Write>(
    alloc: Global,
    who: &mut A,
    reader: &mut R,
    log: &mut L,
    out: &mut W,
) -> TalkEnd
    ensures { Turned A.says (Some result) who.old who.new (R.remaining reader.old) (R.remaining reader.new)
        (L.contents log.old) (L.contents log.new) (W.contents out.old) (W.contents out.new) }
{
    let mut line = Vec::new(alloc);
    let mut said = String::new(alloc);
    for _ in 0..u64::MAX {
        if let Some(end) = turn(who, reader, &mut line, &mut said, log, out) {
            return end;
        }
    }
    TalkEnd::CannotRead
}

// Reads a line, and writes what is said to it. Tells why the talk ends, if it does.
#[tactic(none)]
fn turn<A: Answerer, R: Read, L: Write, W: Write>(
    who: &mut A,
    reader: &mut R,
    line: &mut Vec<u8>,
    said: &mut String,
    log: &mut L,
    out: &mut W,
) -> Option<TalkEnd>
    ensures { Turned A.says result who.old who.new (R.remaining reader.old) (R.remaining reader.new)
        (L.contents log.old) (L.contents log.new) (W.contents out.old) (W.contents out.new) }
{
    let heard = hear(reader, line);
    if heard == Heard::End {
        return Some(TalkEnd::AtEnd);
    }
    if heard == Heard::Broken {
        return Some(TalkEnd::CannotRead);
    }
    let Ok(()) = reply(who, heard, line.as_slice(), said) else {
        return Some(TalkEnd::NoMemory);
    };
    let Ok(()) = tell(log, out, said.as_bytes()) else {
        return Some(TalkEnd::CannotWrite);
    };
    None
}

// Answers the line that was heard.
fn reply<A: Answerer>(
    who: &mut A,
    heard: Heard,
    line: &[u8],
    said: &mut String,
) -> Result<(), AllocError>
    requires heard { (whole : List ℕ) × IsLine heard line.now whole }
    ensures { OnOk result ((whole : List ℕ) → IsLine heard line.now whole → A.says who.old whole (string_bytes said.new) who.new) }
{
    said.clear();
    match heard {
        Heard::Line => who.answer(line, said),
        Heard::Long => who.answer_long(said),
        _ => Ok(()),
    }
}
