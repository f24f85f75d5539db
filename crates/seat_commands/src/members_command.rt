//! Keeping the list of declarations and starts.
ghost use Rattle.std.specs.Prelude.{◌≡◌, ◌≤◌, ◌⊎◌, if◌then◌else◌, Some, None, IfOk, IfSome, OnErr};
ghost use Rattle.std.specs.Io.KnownBytes.{Appends};
ghost use Rattle.seat_commands.specs.rule.Changes.{list_head};
ghost use Rattle.seat_commands.specs.rule.Clocks.{greatest_moment};
ghost use Rattle.seat_commands.specs.rule.Doings.{KeepsList, TakesUp};
ghost use Rattle.seat_text.specs.declared.talk.TalkEnd.TheVariants.{NoMemory};

use crate::read_back::{ReadBack, read_back};
use crate::{MembersLine, Register, Stopwatch, keep, push_list_head};
use replay::{Fault, FileReason, Store, StoreError};
use seat_text::talk::{TalkEnd, talk};
use std::alloc::Global;
use std::fs::{OpenFile, OpenOptions};
use std::io;
use std::io::{ErrorKind, Read, Write};
use std::rt::Files;
use std::time::Clock;

/// Opens the file, to be read and to be written behind what it has. It is made where there is none.
///
/// # Errors
/// Where that fails: why no file can be put there, as the store says.
pub(crate) fn open_added<'a, R: Files, S: Store>(
    rt: &R,
    store: &mut S,
    path: &'a str,
) -> Result<R::File, Fault<'a>> {
    let mut how = OpenOptions::new();
    how.read(true).append(true).create(true);
    match how.open(rt, path) {
        Ok(file) => Ok(file),
        Err(_) => Err(why_not(store, path)),
    }
}

// Why a file can't be written.
fn why_not<'a, S: Store>(store: &mut S, path: &'a str) -> Fault<'a> {
    match store.try_write(path) {
        Ok(()) => Fault::CannotWrite(path, FileReason::Refused),
        Err(StoreError::Failed(reason)) => Fault::CannotWrite(path, reason),
        Err(StoreError::NoMemory) => Fault::NoMemory,
    }
}

/// Keeps the list in the line's file, and answers each line that is read. Tells why that ended.
///
/// # Errors
/// Where the file can't be read or written, or has a bad line, and where a request for memory was refused, before any line was
/// read; or where a block could not be kept in the file, which is not answered.
pub(crate) fn keep_members<'a, R: Files + Clock, I: Read, S: Store, O: Write>(
    rt: &R,
    alloc: Global,
    line: &MembersLine<'a>,
    reader: &mut I,
    store: &mut S,
    out: &mut O,
) -> Result<TalkEnd, Fault<'a>>
    ensures kept { IfOk result (λ end. KeepsList R.File.contents R.File.remaining line.now end (I.remaining reader.old) (I.remaining reader.new)
        (O.contents out.old) (O.contents out.new)) }
    ensures failed { OnErr result (((reader.new ≡ reader.old) × (out.new ≡ out.old))
        ⊎ KeepsList R.File.contents R.File.remaining line.now NoMemory (I.remaining reader.old) (I.remaining reader.new)
        (O.contents out.old) (O.contents out.new)) }
{
    let file = open_added(rt, store, line.state)?;
    let (file, read) = taken_up(alloc, line, file)?;
    let watch = watch_of(rt, line, read.last);
    let mut register = Register::new(alloc, read.list, watch, file);
    let mut log = io::sink();
    let end = talk(alloc, &mut register, reader, &mut log, out);
    if end == TalkEnd::NoMemory && register.has_failed() {
        return Err(why_not(store, line.state));
    }
    Ok(end)
}

// The clock, which was last read at this moment, where the line asks for one.
fn watch_of<'a, C: Clock>(
    clock: &'a C,
    line: &MembersLine<'_>,
    last: u64,
) -> Option<Stopwatch<'a, C>>
    requires { last ≤ greatest_moment }
    ensures { result ≡ (if line.now.clock then Some last else None) }
{
    if line.clock {
        Some(Stopwatch::new(clock, last))
    } else {
        None
    }
}

// The file as its list goes on, and the list that it has: a block that is not whole is cut off.
fn taken_up<'a, F: Read + Write + OpenFile + Drop>(
    alloc: Global,
    line: &MembersLine<'a>,
    file: F,
) -> Result<(F, ReadBack), Fault<'a>>
    ensures taken { IfOk result (λ taken. TakesUp F.contents F.remaining line.now file taken.0 taken.1) }
    ensures within { IfOk result (λ taken. taken.1.last ≤ greatest_moment) }
{
    let mut file = file;
    let bytes = all_of(alloc, line.state, &mut file)?;
    let read = read_back(alloc, line, bytes.as_slice())?;
    if read.whole < bytes.len() && file.set_len(read.whole as u64).is_err() {
        return Err(Fault::CannotWrite(line.state, FileReason::Refused));
    }
    if read.whole == 0 {
        return Ok((begun(alloc, line, file)?, read));
    }
    Ok((file, read))
}

// The file with the block with which a list begins.
fn begun<'a, F: Write + OpenFile + Drop>(
    alloc: Global,
    line: &MembersLine<'a>,
    file: F,
) -> Result<F, Fault<'a>>
    ensures { IfOk result (λ begun. Appends (F.contents file) (F.contents begun) (list_head line.now.shape)) }
{
    let mut head = String::new(alloc);
    push_list_head(&mut head, &line.shape)?;
    let mut file = file;
    match keep(&mut file, head.as_bytes()) {
        Ok(()) => Ok(file),
        Err(_) => Err(Fault::CannotWrite(line.state, FileReason::Refused)),
    }
}

// All that the file of this path has.
fn all_of<'a, F: Read>(alloc: Global, path: &'a str, file: &mut F) -> Result<Vec<u8>, Fault<'a>>
    ensures { IfOk result (λ bytes. IfSome (F.remaining file.old) (λ known. bytes.items ≡ known)) }
{
    let mut bytes = Vec::new(alloc);
    match file.read_to_end(&mut bytes) {
        Ok(_) => Ok(bytes),
        Err(error) if error.kind() == ErrorKind::OutOfMemory => Err(Fault::NoMemory),
        Err(_) => Err(Fault::CannotRead(path, FileReason::Refused)),
    }
}
