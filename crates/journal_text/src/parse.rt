//! Reads whole journals from texts, and measures them.
ghost use Rattle.std.specs.Prelude.{◌≡◌, ◌≢◌, ◌↔◌, [], List, length, IfErr, IfOk, IsTrue};
ghost use Rattle.messages.specs.rule.Entries.{EntryFields};
ghost use Rattle.lockscript.specs.declared.error.ParseError.TheVariants.{NoMemory};
ghost use Rattle.journal_text.specs.rule.Readings.{BeginsAs, HasLength, IsBadLine, IsOld, IsRefused, WritesJournal};

use crate::builder::Builder;
use crate::head::head_of;
use crate::journal_reader::JournalReader;
use crate::sink::Sink;
use lockscript::{ParseError, split_line};
use messages::{Entry, Shape, Version};
use std::alloc::Global;

/// The journal whose text this is: the shape of the cluster, and the entries in order. The first
/// line is `journal V nodes N files F policy P`, where V is the version, 1 or 2. In version 2 the
/// number of a command has the epoch of its server before it. An entry is a line `entry POS EVENT`,
/// with its position from 1, at most one line `reply CALL REPLY`, and a line `send MESSAGE` for
/// each message that it sends. The last line is `end COUNT`, with the number of entries. Each line
/// ends with a line feed, and none is skipped.
///
/// # Errors
/// `BadLine` with the number, from 1, of the first line that may not stand where it does, or with
/// the number after the last line if the `end` line is missing; `NoMemory` if the text is a journal
/// and a request for memory was refused.
pub fn parse(alloc: Global, text: &str) -> Result<(Shape, Vec<Entry>), ParseError>
    ensures journal { IfOk result (λ made. WritesJournal text.now made.0 made.1.items) }
    ensures refused { IfErr result (IsRefused text.now) }
{
    let (_, count) = measure(text)?;
    let mut entries = Vec::with_capacity(alloc, count as usize)?;
    let shape = read_each(alloc, text, &mut entries)?;
    Ok((shape, entries))
}

/// The shape of the cluster that the first line of the text names, whatever stands behind that
/// line.
///
/// # Errors
/// `BadLine` with 1, if the first line names no shape.
pub fn shape_of(text: &str) -> Result<Shape, ParseError>
    ensures shape { IfOk result (BeginsAs text.now) }
    ensures bad { IfErr result (IsBadLine text.now) }
{
    JournalReader::new(text).first_line()
}

/// Whether the first line of the text is that of a journal of version 1, whatever stands behind
/// that line.
pub fn is_old(text: &str) -> bool
    ensures { IsTrue result ↔ IsOld text.now }
{
    let Some((line, _)) = split_line(text) else {
        return false;
    };
    let Some(shape) = head_of(line) else {
        return false;
    };
    shape.version() == Version::First
}

/// The shape of the cluster and the number of the entries of the journal whose text this is. It
/// takes no memory.
///
/// # Errors
/// `BadLine`, as for `parse`.
pub fn measure(text: &str) -> Result<(Shape, u32), ParseError>
    ensures journal { IfOk result (λ found. HasLength text.now found.0 found.1) }
    ensures bad { IfErr result (IsBadLine text.now) }
{
    let mut reader = JournalReader::new(text);
    let shape = reader.first_line()?;
    while reader.pass_line(shape.version())? {}
    Ok((shape, reader.count()))
}

/// Reads the journal whose text this is: the shape of its cluster is the result, and its entries go
/// to the sink, in order. If there is a bad line, entries before it may have gone to the sink.
///
/// # Errors
/// `BadLine`, as for `parse`; `NoMemory` where a request for memory was refused, which says nothing
/// of the text.
pub fn read_each<K: Sink>(alloc: Global, text: &str, sink: &mut K) -> Result<Shape, ParseError>
    ensures journal { IfOk result (λ shape. (es : List EntryFields) × WritesJournal text.now shape es × (K.took sink.old shape [] → K.took sink.new shape es)) }
    ensures bad { IfErr result (λ error. error ≢ NoMemory → IsBadLine text.now error) }
{
    let mut reader = JournalReader::new(text);
    let shape = reader.first_line()?;
    let mut builder = Builder::new();
    while let Some(line) = reader.next_line(shape.version())? {
        builder.take(alloc, line, sink)?;
    }
    Ok(shape)
}
