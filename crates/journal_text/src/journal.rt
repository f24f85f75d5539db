//! Writes journals as texts, whole or entry by entry.
//!
//! Each function here that can fail errs with `AllocError`, where a request for memory was refused.
ghost use Rattle.std.specs.Prelude.{◌≡◌, ◌++◌, codes, flat_map, string_bytes, IfOk, OnOk};
ghost use Rattle.journal_text.specs.rule.Journals.{end_text, entries_text, entry_text, head_text, journal_text, reply_line, send_line};

use crate::head::head_front;
use crate::writing::push_event;
use lockscript::push_reply;
use message_text::{push_call, push_message};
use messages::{Entry, Shape, SharedMessage, Version};
use model::{CallId, Policy, Reply};
use std::alloc::{AllocError, Global};
use std::fmt::Write;
use texts::words::Named;

/// The journal of a cluster of this shape as a text, in the version of the shape: a first line with
/// the shape, the lines of each entry, the first at position 1, and a last line with the number of
/// entries.
pub fn print(alloc: Global, shape: &Shape, entries: &[Entry]) -> Result<String, AllocError>
    ensures { IfOk result (λ text. string_bytes text ≡ journal_text shape.now entries.now) }
{
    let mut out = String::new(alloc);
    push_head(&mut out, shape)?;
    push_entries(&mut out, shape.version(), entries)?;
    push_end(&mut out, entries.len())?;
    Ok(out)
}

/// Adds the first line of a journal.
pub fn push_head(out: &mut String, shape: &Shape) -> Result<(), AllocError>
    ensures { OnOk result (string_bytes out.new ≡ string_bytes out.old ++ head_text shape.now ++ codes "\n") }
{
    let nodes = shape.nodes();
    let files = shape.files();
    let policy = Policy::word(shape.policy());
    out.push_str(head_front(shape.version()))?;
    writeln!(out, "{nodes} files {files} policy {policy}")
}

/// Adds the last line of a journal of `count` entries.
pub fn push_end(out: &mut String, count: usize) -> Result<(), AllocError>
    ensures { OnOk result (string_bytes out.new ≡ string_bytes out.old ++ end_text count ++ codes "\n") }
{
    writeln!(out, "end {count}")
}

// Adds the lines of entries as journals of this version have them, the first entry at position 1.
fn push_entries(out: &mut String, version: Version, entries: &[Entry]) -> Result<(), AllocError>
    ensures { OnOk result (string_bytes out.new ≡ string_bytes out.old ++ entries_text version 1 entries.now) }
{
    let mut position = 0u64;
    for entry in entries {
        position += 1;
        push_entry(out, version, position, entry)?;
    }
    Ok(())
}

/// Adds the lines of an entry at this position, as journals of this version have them.
pub fn push_entry(
    out: &mut String,
    version: Version,
    position: u64,
    entry: &Entry,
) -> Result<(), AllocError>
    ensures { OnOk result (string_bytes out.new ≡ string_bytes out.old ++ entry_text version position entry.now) }
{
    write!(out, "entry {position} ")?;
    push_event(
        out,
        version,
        entry.event(),
        entry.incarnation(),
        &entry.call(),
    )?;
    out.push_str("\n")?;
    push_answer(out, &entry.reply())?;
    push_sends(out, version, entry.sends())
}

// Adds the line of an answer, if there is one.
fn push_answer(out: &mut String, answer: &Option<(CallId, Reply)>) -> Result<(), AllocError>
    ensures { OnOk result (string_bytes out.new ≡ string_bytes out.old ++ reply_line answer.now) }
{
    let Some((call, reply)) = answer else {
        return Ok(());
    };
    out.push_str("reply ")?;
    push_call(out, call)?;
    out.push_str(" ")?;
    push_reply(out, reply)?;
    out.push_str("\n")
}

// Adds the lines of messages that an entry sends.
fn push_sends(out: &mut String, version: Version, sends: &[SharedMessage]) -> Result<(), AllocError>
    ensures { OnOk result (string_bytes out.new ≡ string_bytes out.old ++ flat_map (send_line version) sends.now) }
{
    for message in sends {
        out.push_str("send ")?;
        push_message(out, version, message.get())?;
        out.push_str("\n")?;
    }
    Ok(())
}
