//! Why a command was not done.
ghost use Rattle.std.specs.Prelude.{◌≡◌};
ghost use Rattle.replay.specs.declared.fault.Fault.TheVariants.{NoMemory};
ghost use Rattle.replay.specs.rule.Faults.{fault_line, fault_of_parse, fault_of_play};
ghost use Rattle.replay.specs.rule.Stores.{Writes};
ghost use Rattle.replay.specs.rule.Commands.{status_of};

use crate::{FileReason, Output, WriteFailed, put_line};
use itoa::Buffer;
use lockscript::{ParseError, PlayError};
use std::alloc::AllocError;

/// Why a command was not done.
#[derive(Drop)]
pub enum Fault<'a> {
    /// The first line of the script or the journal that may not stand there, by its number, from 1.
    BadLine(u64),
    /// A file, by its path, that can't be read, or that isn't UTF-8, and why.
    CannotRead(&'a str, FileReason),
    /// A file, by its path, that can't be written, and why.
    CannotWrite(&'a str, FileReason),
    /// Standard output didn't take all of the text.
    CannotWriteOutput,
    /// A request for memory was refused.
    NoMemory,
    /// The run needs more entries than a journal may have, or the journal has more.
    JournalFull,
    /// A run can't go on behind a journal of version 1.
    OldJournal,
    /// What is wrong with a history that was to be judged, or with its orders: the line for the first bad line.
    Faulty(String),
}

impl Fault<'_> {
    /// The exit status that tells of it: 3 where the input or the output is at fault, 4 where the
    /// run needs more than there is.
    pub fn status(&self) -> u8
        ensures { result ≡ status_of self.now }
    {
        match self {
            Fault::BadLine(_)
            | Fault::CannotRead(..)
            | Fault::CannotWrite(..)
            | Fault::CannotWriteOutput
            | Fault::OldJournal
            | Fault::Faulty(_) => 3,
            Fault::NoMemory | Fault::JournalFull => 4,
        }
    }

    /// Writes the line that tells of it.
    ///
    /// # Errors
    /// Where the writer fails, which took a beginning of the line.
    pub fn write_line<E: Output>(&self, err: &mut E) -> Result<(), WriteFailed>
        ensures { Writes (E.taken err.old) (E.taken err.new) (E.has_failed err.new) (fault_line self.now) result }
    {
        let mut digits = Buffer::new();
        match self {
            Fault::BadLine(line) => put_line(err, "bad line ", digits.format(*line)),
            Fault::CannotRead(path, _) => put_line(err, "cannot read ", path),
            Fault::CannotWrite(path, _) => put_line(err, "cannot write ", path),
            Fault::CannotWriteOutput => put_line(err, "cannot write standard output", ""),
            Fault::NoMemory => put_line(err, "no memory", ""),
            Fault::JournalFull => put_line(err, "journal full", ""),
            Fault::OldJournal => put_line(err, "old journal", ""),
            Fault::Faulty(report) => err.put(report.as_bytes()),
        }
    }

    /// Writes the line that tells of it, with the reason behind the path of a file that can't be read or written.
    ///
    /// # Errors
    /// Where the writer fails, which took a beginning of the line.
    pub fn write_reasoned<E: Output>(&self, err: &mut E) -> Result<(), WriteFailed> {
        match self {
            Fault::CannotRead(path, reason) => put_reason(err, "cannot read ", path, *reason),
            Fault::CannotWrite(path, reason) => put_reason(err, "cannot write ", path, *reason),
            _ => self.write_line(err),
        }
    }
}

// Writes why something can't be done with the file of a path.
fn put_reason<E: Output>(
    err: &mut E,
    start: &str,
    path: &str,
    reason: FileReason,
) -> Result<(), WriteFailed> {
    err.put(start.as_bytes())?;
    err.put(path.as_bytes())?;
    err.put(b": ")?;
    err.put(reason.words().as_bytes())?;
    if let FileReason::NotText { line, column } = reason {
        err.put(Buffer::new().format(line).as_bytes())?;
        err.put(b", column ")?;
        err.put(Buffer::new().format(column).as_bytes())?;
    }
    err.put(b"\n")
}

impl From<AllocError> for Fault<'_> {
    ghost from_gives = { λ error made. made ≡ NoMemory };

    fn from(_error: AllocError) -> Self {
        Fault::NoMemory
    }
}

impl From<ParseError> for Fault<'_> {
    ghost from_gives = { λ error made. made ≡ fault_of_parse error };

    fn from(error: ParseError) -> Self {
        match error {
            ParseError::NoMemory => Fault::NoMemory,
            ParseError::BadLine(line) => Fault::BadLine(line),
        }
    }
}

impl From<PlayError> for Fault<'_> {
    ghost from_gives = { λ error made. made ≡ fault_of_play error };

    fn from(error: PlayError) -> Self {
        match error {
            PlayError::NoMemory => Fault::NoMemory,
            PlayError::JournalFull => Fault::JournalFull,
        }
    }
}
