//! Reads a list of declarations and starts back.
ghost use Rattle.std.specs.Prelude.{◌≡◌, ◌≤◌, ◌++◌, true, IfOk, IfSome};
ghost use Rattle.seat_commands.specs.rule.Changes.{list_state};
ghost use Rattle.seat_commands.specs.rule.Clocks.{greatest_moment};
ghost use Rattle.seat_commands.specs.rule.ListFiles.{Follows, HasBlocks, IsNext, IsReadBack, IsTailOf, IsWholeLines, MayFollow};
ghost use Rattle.seat_text.specs.rule.Talks.{IsFront};

use crate::{
    ChangeList, GREATEST_MOMENT, MembersLine, NotedChange, faulty, push_interval, push_list_head,
    push_noted,
};
use memchr::{memchr, memrchr};
use messages::{MemberEvent, Refused};
use replay::Fault;
use std::alloc::{AllocError, Global};
use std::str;
use texts::number::number_of;
use texts::text::{after, split_at_first, split_field};

/// A list that was read back.
#[derive(Drop)]
pub(crate) struct ReadBack {
    pub(crate) list: ChangeList,
    /// How many bytes its whole blocks have; 0 where even the first one is not whole.
    pub(crate) whole: usize,
    /// The last moment at which a clock was read; 0 where none was.
    pub(crate) last: u64,
}

/// What comes next of a text.
#[derive(Clone, Copy)]
pub(crate) enum Next<'b> {
    /// A block, and behind it this.
    Block(&'b [u8]),
    /// A part of a block at most, and nothing behind it.
    Torn,
    /// So many good lines, and then a bad one.
    Bad(usize),
}

/// Reads the list of the line's cluster back, as far as its blocks are whole.
///
/// # Errors
/// `Faulty` where a line may not stand there; `NoMemory` where a request for memory was refused.
#[tactic(auto, using(crate::proofs::Readings::torn_fits, crate::proofs::Readings::last_within))]
pub(crate) fn read_back<'a>(
    alloc: Global,
    line: &MembersLine<'a>,
    bytes: &[u8],
) -> Result<ReadBack, Fault<'a>>
    ensures list { IfOk result (IsReadBack line.now.shape bytes.now) }
    ensures within { IfOk result (λ r. r.last ≤ greatest_moment) }
{
    let mut head = String::new(alloc);
    push_list_head(&mut head, &line.shape)?;
    let mut read = ReadBack {
        list: ChangeList::new(alloc, line.shape)?,
        whole: 0,
        last: 0,
    };
    match behind(bytes, head.as_bytes()) {
        Some(rest) => {
            let torn = read_blocks(alloc, line.state, &mut read, bytes, rest)?;
            read.whole = bytes.len() - torn;
            Ok(read)
        }
        None if is_front(bytes, head.as_bytes()) => Ok(read),
        None => Err(bad_line(alloc, line.state, common_lines(bytes, head.as_bytes()))),
    }
}

// The line behind so many of the file of this path may not stand there.
fn bad_line<'a>(alloc: Global, path: &str, before: usize) -> Fault<'a> {
    let number = before.saturating_add(1);
    faulty(format!(in alloc; "{path}: line {number}: it is not the next line of such a list\n"))
}

// Reads the blocks of the rest of the bytes. How many bytes are behind them.
#[tactic(auto, using(crate::proofs::Readings::leads_none, crate::proofs::Readings::blocks_end))]
fn read_blocks<'a>(
    alloc: Global,
    path: &str,
    read: &mut ReadBack,
    bytes: &[u8],
    blocks: &[u8],
) -> Result<usize, Fault<'a>>
    ensures { IfOk result (HasBlocks (list_state read.old.list) read.old.last blocks.now (list_state read.new.list) read.new.last) }
{
    let mut rest = blocks;
    for _ in 0..u64::MAX {
        match next_of(alloc, read, rest)? {
            Next::Block(left) => rest = left,
            Next::Torn => return Ok(rest.len()),
            Next::Bad(good) => {
                let before = lines_before(bytes, rest);
                return Err(bad_line(alloc, path, before.saturating_add(good)));
            }
        }
    }
    Err(Fault::NoMemory)
}

// What comes next, behind the blocks that were read.
#[tactic(auto, using(crate::proofs::Readings::tail_of_interval, crate::proofs::Readings::tail_of_noted, crate::proofs::Readings::block_next))]
fn next_of<'b>(alloc: Global, read: &mut ReadBack, rest: &'b [u8]) -> Result<Next<'b>, AllocError>
    ensures { IfOk result (IsNext (list_state read.old.list) read.old.last rest.entry.now (list_state read.new.list) read.new.last) }
{
    let (interval, noted) = guess_of(rest);
    let mut block = String::new(alloc);
    let Some(noted) = noted else {
        push_interval(&mut block, interval)?;
        return Ok(tail_of(rest, block.as_bytes()));
    };
    push_noted(&mut block, &noted, read.list.count() + 1)?;
    let Some(left) = behind(rest, block.as_bytes()) else {
        return Ok(tail_of(rest, block.as_bytes()));
    };
    if takes(read, &noted)? {
        return Ok(Next::Block(left));
    }
    let is_timely = later(read.last, noted.interval).is_some();
    Ok(Next::Bad(usize::from(noted.interval.is_some() && is_timely)))
}

// Adds the change to the list, where it may follow. Tells whether it may.
fn takes(read: &mut ReadBack, noted: &NotedChange) -> Result<bool, AllocError>
    ensures { IfOk result (λ taken. taken ≡ true → Follows (list_state read.old.list) read.old.last noted.now (list_state read.new.list) read.new.last) }
{
    let Some(last) = later(read.last, noted.interval) else {
        return Ok(false);
    };
    match read.list.add(noted.change) {
        Ok(incarnation) if incarnation == noted.incarnation => {
            read.last = last;
            Ok(true)
        }
        Err(Refused::NoMemory) => Err(AllocError),
        _ => Ok(false),
    }
}

// The last reading of a clock, where it did not go back.
fn later(last: u64, interval: Option<(u64, u64)>) -> Option<u64>
    ensures { IfSome result (MayFollow last interval) }
{
    let Some((began, ended)) = interval else {
        return Some(last);
    };
    if last <= began && began <= ended && ended <= GREATEST_MOMENT {
        return Some(ended);
    }
    None
}

// What a rest is that has no whole block, where a block would have this text, or begin with it.
fn tail_of<'b>(rest: &'b [u8], block: &[u8]) -> Next<'b>
    ensures { IsTailOf rest.entry.now block.now result }
{
    let lines = whole_lines(rest);
    if is_front(lines, block) {
        return Next::Torn;
    }
    Next::Bad(common_lines(lines, block))
}

// The bytes up to the last line feed.
#[tactic(auto, using(crate::proofs::Readings::lines_to, crate::proofs::Readings::no_lines))]
fn whole_lines(bytes: &[u8]) -> &[u8]
    ensures { IsWholeLines bytes.now result.now }
{
    match memrchr(b'\n', bytes) {
        Some(at) => &bytes[..at + 1],
        None => &bytes[..0],
    }
}

// The bytes behind a front, if they begin with it.
#[tactic(auto, using(crate::proofs::Readings::stripped))]
fn behind<'b>(bytes: &'b [u8], front: &[u8]) -> Option<&'b [u8]>
    ensures { IfSome result (λ rest. bytes.entry.now ≡ front.now ++ rest.now) }
{
    bytes.strip_prefix(front)
}

// Whether the bytes begin with the front.
fn is_front(front: &[u8], bytes: &[u8]) -> bool
    ensures { result ≡ true → IsFront front.now bytes.now }
{
    behind(bytes, front).is_some()
}

// How many lines end before the rest of the bytes.
fn lines_before(bytes: &[u8], rest: &[u8]) -> usize {
    let count = bytes.len().saturating_sub(rest.len());
    bytes[..count].iter().filter(|byte| **byte == b'\n').count()
}

// How many lines both begin with.
fn common_lines(bytes: &[u8], others: &[u8]) -> usize {
    let pairs = bytes.iter().zip(others.iter());
    let common = pairs.take_while(|pair| pair.0 == pair.1);
    common.filter(|pair| *pair.0 == b'\n').count()
}

// What the text may begin with: the readings of a clock that its first line tells, and the change that the line behind them tells,
// or the first one. It counts for nothing before it is compared.
fn guess_of(bytes: &[u8]) -> (Option<(u64, u64)>, Option<NotedChange>) {
    let Some((line, rest)) = first_line(bytes) else {
        return (None, None);
    };
    let Some(interval) = interval_of(line) else {
        return (None, noted_of(line, None));
    };
    match first_line(rest) {
        Some((line, _)) => (Some(interval), noted_of(line, Some(interval))),
        None => (Some(interval), None),
    }
}

// The first line, without its line feed, and what is behind it.
fn first_line(bytes: &[u8]) -> Option<(&str, &[u8])> {
    let at = memchr(b'\n', bytes)?;
    let line = str::from_utf8(&bytes[..at]).ok()?;
    Some((line, &bytes[at + 1..]))
}

// The readings of a clock that the line tells.
fn interval_of(line: &str) -> Option<(u64, u64)> {
    let (began, ended) = split_field(after(line, "at ")?)?;
    let began = number_of(began, 0, GREATEST_MOMENT)?;
    let ended = number_of(ended, began, GREATEST_MOMENT)?;
    Some((began, ended))
}

// The change that the line tells.
fn noted_of(line: &str, interval: Option<(u64, u64)>) -> Option<NotedChange> {
    let (word, operand) = split_field(after(line, "member ")?)?;
    let (number, incarnation) = split_at_first(operand, b'.')?;
    let number = u16::try_from(number_of(number, 1, 256)?).ok()?;
    let incarnation = u16::try_from(number_of(incarnation, 1, 65_535)?).ok()?;
    let change = change_of(word, number)?;
    Some(NotedChange {
        change,
        incarnation,
        interval,
    })
}

fn change_of(word: &str, number: u16) -> Option<MemberEvent> {
    let node = u8::try_from(number).ok();
    match word {
        "declare" => Some(MemberEvent::Declare { node: node? }),
        "restart" => Some(MemberEvent::Restart { node: node? }),
        "fail-server" => Some(MemberEvent::FailServer { file: number }),
        "start-server" => Some(MemberEvent::StartServer { file: number }),
        _ => None,
    }
}
