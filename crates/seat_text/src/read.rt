//! Reads logs, and lists of declarations and starts, from their texts.
ghost use Rattle.std.specs.Prelude.{◌≡◌, ◌++◌, ◌+◌, ◌<◌, ◌∷◌, [], List, length, IfOk, OnOk, false};
ghost use Rattle.seat_text.specs.declared.block.Block.{Block};
ghost use Rattle.seat_text.specs.code.Parts.{AreParts, Takes};
ghost use Rattle.seat_text.specs.rule.Logs.{ListedChange as Listed, block_text, blocks_text, steps_of, IsLog, IsList, listed_changes, listed_text, listed_texts, EndsNoBlock, EndsTorn};
ghost use Rattle.seat_text.specs.declared.read.LogFault.TheVariants.{NoMemory};

use crate::block::{LogHead, interval_of};
use crate::block_reader::LineReader;
use crate::parts::Parts;
use lockscript::split_line;
use merges::{Log, LoggedChange};
use std::alloc::{AllocError, AllocFailed, Global};
use texts::text::after;
use thiserror::Error;

/// What a text says that is a log.
#[derive(Drop)]
pub struct ReadLog {
    pub head: LogHead,
    /// What the actor made, a log for each incarnation in which it made anything.
    pub logs: Vec<Log>,
    /// The declarations and starts that it was told of.
    pub changes: Vec<LoggedChange>,
}

/// The log whose text this is. Behind its last line that ends a block the text may be anything.
///
/// # Errors
/// The first bad line, and what is wrong with it or the block that begins there; `NoMemory` where a request for memory was
/// refused.
pub fn read_log(alloc: Global, text: &str) -> Result<ReadLog, LogError>
    ensures { IfOk result (λ log. IsLog text.now log.head log.logs.items log.changes.items) }
{
    let torn = torn_end(text);
    let mut reader = LineReader::new(text);
    let Some(head) = reader.head() else {
        return Err(fault_at(reader.next_number(), LogFault::NoHead));
    };
    let mut parts = Parts::new(alloc, head.actor, head.again);
    read_blocks(alloc, &mut reader, &mut parts, torn)?;
    let last = reader.next_number();
    match parts.into_logs() {
        Ok((logs, changes)) => Ok(ReadLog {
            head,
            logs,
            changes,
        }),
        Err(fault) => Err(fault_at(last, fault)),
    }
}

fn fault_at(line: u64, fault: LogFault) -> LogError {
    LogError { line, fault }
}

// Reads the blocks before a text that stands behind them.
fn read_blocks(
    alloc: Global,
    reader: &mut LineReader<'_>,
    parts: &mut Parts,
    torn: &str,
) -> Result<(), LogError>
    requires { AreParts parts.old }
    ensures { OnOk result ((bs : List Block) × (reader.old.text.now ≡ blocks_text 0 bs ++ reader.new.text.now) × (length reader.new.text.now ≡ length torn.now) × Takes parts.old bs parts.new) }
{
    let mut count = 0u32;
    while torn.len() < reader.text.len() {
        let line = reader.next_number();
        match read_block(alloc, reader, parts, count) {
            Ok(now) => count = now,
            Err(LogFault::NoLine) => return Err(fault_at(reader.next_number(), LogFault::NoLine)),
            Err(fault) => return Err(fault_at(line, fault)),
        }
    }
    if reader.text.len() != torn.len() {
        return Err(fault_at(reader.next_number(), LogFault::NoLine));
    }
    Ok(())
}

// Reads the next block behind so many entries; the result is how many there are behind it.
fn read_block(
    alloc: Global,
    reader: &mut LineReader<'_>,
    parts: &mut Parts,
    count: u32,
) -> Result<u32, LogFault>
    requires { AreParts parts.old }
    ensures block { IfOk result (λ now. (b : Block) × (reader.old.text.now ≡ block_text count b ++ reader.new.text.now) × (now ≡ count + length (steps_of b.said)) × Takes parts.old (b ∷ []) parts.new) }
    ensures shorter { OnOk result (length reader.new.text.now < length reader.old.text.now) }
{
    let before = reader.text.len();
    let Some(block) = reader.block(alloc, count)? else {
        return Err(LogFault::NoLine);
    };
    let behind = count as u64 + block.count() as u64;
    parts.take(block)?;
    if before <= reader.text.len() {
        return Err(LogFault::NoLine);
    }
    u32::try_from(behind).map_err(|_| LogFault::NoLine)
}

/// What a text says that is a list of declarations and starts.
#[derive(Drop)]
pub struct ReadList {
    /// The number of nodes of the cluster, and of files.
    pub nodes: u8,
    pub files: u16,
    /// The declarations and starts.
    pub changes: Vec<LoggedChange>,
}

/// The list whose text this is. Behind its last line that ends a block the text may be anything.
///
/// # Errors
/// The first bad line, and what is wrong with it or the block that begins there; `NoMemory` where a request for memory was
/// refused.
pub fn read_list(alloc: Global, text: &str) -> Result<ReadList, LogError>
    ensures { IfOk result (λ list. IsList text.now list.nodes list.files list.changes.items) }
{
    let torn = torn_end(text);
    let mut reader = LineReader::new(text);
    let Some((nodes, files)) = reader.list_head() else {
        return Err(fault_at(reader.next_number(), LogFault::NoHead));
    };
    let mut changes = Vec::new(alloc);
    read_changes(&mut reader, &mut changes, torn)?;
    Ok(ReadList {
        nodes,
        files,
        changes,
    })
}

// Reads the declarations and starts before a text that stands behind them.
fn read_changes(
    reader: &mut LineReader<'_>,
    changes: &mut Vec<LoggedChange>,
    torn: &str,
) -> Result<(), LogError>
    requires { changes.old.items ≡ [] }
    ensures { OnOk result ((cs : List Listed) × (reader.old.text.now ≡ listed_texts 0 cs ++ reader.new.text.now) × (length reader.new.text.now ≡ length torn.now) × (changes.new.items ≡ listed_changes cs)) }
{
    let mut moment = 0u64;
    while torn.len() < reader.text.len() {
        let line = reader.next_number();
        match next_change(reader, changes, moment) {
            Ok(ended) => moment = ended,
            Err(LogFault::NoLine) => return Err(fault_at(reader.next_number(), LogFault::NoLine)),
            Err(fault) => return Err(fault_at(line, fault)),
        }
    }
    if reader.text.len() != torn.len() {
        return Err(fault_at(reader.next_number(), LogFault::NoLine));
    }
    Ok(())
}

// Reads the next declaration or start, where the ones before it had ended by that moment; the result is when it had ended.
fn next_change(
    reader: &mut LineReader<'_>,
    changes: &mut Vec<LoggedChange>,
    moment: u64,
) -> Result<u64, LogFault>
    ensures change { OnOk result ((c : Listed) × (reader.old.text.now ≡ listed_text (length changes.old.items + 1) c ++ reader.new.text.now) × (changes.new.items ≡ changes.old.items ++ listed_changes (c ∷ []))) }
    ensures shorter { OnOk result (length reader.new.text.now < length reader.old.text.now) }
{
    let before = reader.text.len();
    let clock = reader.clock();
    let Some((event, _)) = reader.member() else {
        return Err(LogFault::NoLine);
    };
    if !reader.ends(changes.len() + 1) {
        return Err(LogFault::NoLine);
    }
    let interval = interval_of(clock);
    if interval.ended < moment {
        return Err(LogFault::WentBack);
    }
    changes.push(LoggedChange { event, interval })?;
    if before <= reader.text.len() {
        return Err(LogFault::NoLine);
    }
    Ok(interval.ended)
}

// What stands behind the last whole line of the text that ends a block, `end` or `refused`: it was not told to anybody.
fn torn_end(text: &str) -> &str
    ensures { EndsTorn text.now result.now }
{
    let mut rest = text;
    let mut torn = text;
    while let Some((line, behind)) = split_line(rest) {
        rest = behind;
        if ends_block(line) {
            torn = behind;
        }
    }
    torn
}

// Whether a line that begins so ends a block.
fn ends_block(line: &str) -> bool
    ensures { result ≡ false → EndsNoBlock line.now }
{
    after(line, "end ").is_some() || after(line, "refused ").is_some()
}

/// What is wrong with a line of a log, or with the block that begins there.
#[derive(Clone, Copy, Debug, PartialEq, Eq, Error)]
pub enum LogFault {
    /// A request for memory was refused. This says nothing of the text.
    #[error("no memory")]
    NoMemory,
    /// The line is no first line of a log.
    #[error("no first line of a log")]
    NoHead,
    /// The line is none that may stand there.
    #[error("no line that may stand there")]
    NoLine,
    /// The block had ended before one before it.
    #[error("the clock went back")]
    WentBack,
    /// The block has an entry, and its actor did not begin, or was declared failed.
    #[error("an entry of an actor that is not there")]
    NotThere,
    /// The block declares its own actor failed in an incarnation in which it is not, or begins one that is not a later one.
    #[error("not the incarnation of the actor")]
    OtherIncarnation,
}

impl From<AllocError> for LogFault {
    ghost from_gives = { λ error made. made ≡ NoMemory };

    fn from(_error: AllocError) -> LogFault {
        LogFault::NoMemory
    }
}

impl<T: Drop> From<AllocFailed<T>> for LogFault {
    ghost from_gives = { λ error made. made ≡ NoMemory };

    fn from(_error: AllocFailed<T>) -> LogFault {
        LogFault::NoMemory
    }
}

/// The first bad line of a log, by its number, from 1, and what is wrong with it.
#[derive(Clone, Copy, Debug, PartialEq, Eq, Error)]
#[error("line {line}: {fault}")]
pub struct LogError {
    pub line: u64,
    pub fault: LogFault,
}
