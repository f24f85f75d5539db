//! The listing of what a run gave.
//!
//! Each function here that can fail errs with `AllocError`, where a request for memory was refused.
ghost use Rattle.std.specs.Prelude.{◌≡◌, ◌++◌, codes, flat_map, string_bytes, IfOk, OnOk};
ghost use Rattle.lockscript.specs.rule.Listing.{listing_text, listing_start, history_text, lock_line, refused_line, replied, reply_lines, token_line, history_line};

use crate::columns::{
    push_host_column, push_name_column, push_placed, push_position, push_span_line,
};
use crate::operations::Operation;
use crate::refused_line::RefusedLine;
use crate::replies::push_reply;
use cluster_core::{HeldLock, Item, NodeTokenRun};
use message_text::{OwnerName, push_host};
use messages::Entry;
use model::{CallId, Level, Mode, Reply};
use std::alloc::{AllocError, Global};
use std::fmt::Write;
use texts::number::push_number;
use texts::text::Text;
use texts::words::Named;

// For each entry there is memory for so many bytes from the beginning: the line of a reply and that
// of the history, which comes behind the other sections, seldom have more.
const BYTES_OF_ENTRY: usize = 96;

/// The listing of a run, in five sections with headings: the refused lines of its script, each with
/// the number of its refusal; the replies, each with the position of its entry, from 1; the tokens;
/// the locks; and the history. Each section has the order in which it is given.
pub fn listing(
    alloc: Global,
    refused: &[RefusedLine],
    entries: &[Entry],
    tokens: &[NodeTokenRun],
    locks: &[HeldLock],
    history: &[Item],
) -> Result<String, AllocError>
    ensures { IfOk result (λ text. string_bytes text ≡ listing_text refused.now entries.now tokens.now locks.now history.now) }
{
    let mut out = listing_start(alloc, refused, entries, tokens, locks)?;
    push_history(&mut out, history)?;
    Ok(out)
}

/// The listing of a run without its history: the first four sections.
pub fn listing_start(
    alloc: Global,
    refused: &[RefusedLine],
    entries: &[Entry],
    tokens: &[NodeTokenRun],
    locks: &[HeldLock],
) -> Result<String, AllocError>
    ensures { IfOk result (λ text. string_bytes text ≡ listing_start refused.now entries.now tokens.now locks.now) }
{
    let mut out = String::with_capacity(alloc, entries.len().saturating_mul(BYTES_OF_ENTRY))?;
    push_refused(&mut out, refused)?;
    push_replies(&mut out, entries)?;
    push_tokens(&mut out, tokens)?;
    push_locks(&mut out, locks)?;
    Ok(out)
}

fn push_refused(out: &mut String, refused: &[RefusedLine]) -> Result<(), AllocError>
    ensures { OnOk result (string_bytes out.new ≡ string_bytes out.old ++ codes "refused\n" ++ flat_map refused_line refused.now) }
{
    out.push_str("refused\n")?;
    for RefusedLine { line, code } in refused {
        writeln!(out, "line {line} code {code}")?;
    }
    Ok(())
}

fn push_replies(out: &mut String, entries: &[Entry]) -> Result<(), AllocError>
    ensures { OnOk result (string_bytes out.new ≡ string_bytes out.old ++ codes "replies\n" ++ reply_lines 1 entries.now) }
{
    out.push_str("replies\n")?;
    let mut position = 0u64;
    for entry in entries {
        position += 1;
        push_replied(out, position, &entry.reply())?;
    }
    Ok(())
}

// Adds the line of an entry at this position, if the entry answers a call.
fn push_replied(
    out: &mut String,
    position: u64,
    answer: &Option<(CallId, Reply)>,
) -> Result<(), AllocError>
    ensures { OnOk result (string_bytes out.new ≡ string_bytes out.old ++ replied position answer.now) }
{
    let Some((call, reply)) = answer else {
        return Ok(());
    };
    push_placed(out, position, call)?;
    push_reply(out, reply)?;
    out.push_str("\n")
}

fn push_tokens(out: &mut String, tokens: &[NodeTokenRun]) -> Result<(), AllocError>
    ensures { OnOk result (string_bytes out.new ≡ string_bytes out.old ++ codes "tokens\n" ++ flat_map token_line tokens.now) }
{
    out.push_str("tokens\n")?;
    for token in tokens {
        push_token(out, token)?;
    }
    Ok(())
}

fn push_token(out: &mut String, token: &NodeTokenRun) -> Result<(), AllocError>
    ensures { OnOk result (string_bytes out.new ≡ string_bytes out.old ++ token_line token.now) }
{
    push_host_column(out, token.node, token.incarnation)?;
    push_span_line(out, token.file, token.span, Level::word(token.level))
}

fn push_locks(out: &mut String, locks: &[HeldLock]) -> Result<(), AllocError>
    ensures { OnOk result (string_bytes out.new ≡ string_bytes out.old ++ codes "locks\n" ++ flat_map lock_line locks.now) }
{
    out.push_str("locks\n")?;
    for held in locks {
        push_lock(out, held)?;
    }
    Ok(())
}

fn push_lock(out: &mut String, held: &HeldLock) -> Result<(), AllocError>
    ensures { OnOk result (string_bytes out.new ≡ string_bytes out.old ++ lock_line held.now) }
{
    push_name_column::<OwnerName>(out, &held.lock.owner)?;
    push_span_line(out, held.file, held.lock.span, Mode::word(held.lock.mode))
}

// Adds the last section, the history, with its heading.
fn push_history(out: &mut String, history: &[Item]) -> Result<(), AllocError>
    ensures { OnOk result (string_bytes out.new ≡ string_bytes out.old ++ history_text history.now) }
{
    out.push_str("history\n")?;
    for item in history {
        push_item(out, item)?;
    }
    Ok(())
}

/// Adds the line of an item of a history.
#[tactic(auto, unfolding(crate::specs::rule::Layout::left_in))]
pub fn push_item(out: &mut String, item: &Item) -> Result<(), AllocError>
    ensures { OnOk result (string_bytes out.new ≡ string_bytes out.old ++ history_line item.now) }
{
    match item {
        Item::Answered {
            position,
            id,
            pid,
            op,
            reply,
        } => {
            push_placed(out, u64::from(*position), id)?;
            push_number(out, u64::from(*pid))?;
            out.push_str(" ")?;
            Operation::write(op, out)?;
            out.push_str(" -> ")?;
            push_reply(out, reply)?;
            out.push_str("\n")
        }
        Item::Gone {
            position,
            node,
            incarnation,
        } => {
            push_position(out, u64::from(*position))?;
            out.push_str("gone             ")?;
            push_host(out, *node, *incarnation)?;
            out.push_str("\n")
        }
    }
}
