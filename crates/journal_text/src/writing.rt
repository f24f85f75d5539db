//! Writes the events of journals as texts.
//!
//! Each function here that can fail errs with `AllocError`, where a request for memory was refused.
ghost use Rattle.std.specs.Prelude.{◌≡◌, ◌++◌, string_bytes, OnOk};
ghost use Rattle.journal_text.specs.rule.Texts.{event_text, member_text, node_input_text, server_input_text};

use crate::operands::CallFields;
use message_text::{push, push_message};
use messages::{Event, MemberEvent, NodeInput, ServerInput, Version};
use model::CallId;
use std::alloc::AllocError;
use std::fmt::Write;

// Adds the text of what comes to a node, with the incarnation and the call that its entry names.
fn push_node_input(
    out: &mut String,
    node: u8,
    input: &NodeInput,
    incarnation: u16,
    call: &Option<CallId>,
) -> Result<(), AllocError>
    ensures { OnOk result (string_bytes out.new ≡ string_bytes out.old ++ node_input_text node input.now incarnation call.now) }
{
    match input {
        NodeInput::Call { pid, op } => match call {
            Some(call) => push::<CallFields>(out, "call ", &(*call, (*pid, *op))),
            None => Ok(()),
        },
        NodeInput::Interrupt { pid } => write!(out, "interrupt {node}.{incarnation} {pid}"),
        NodeInput::Retry { pid } => write!(out, "retry {node}.{incarnation} {pid}"),
    }
}

// Adds the text of what comes to the token server of the file.
fn push_server_input(out: &mut String, file: u16, input: &ServerInput) -> Result<(), AllocError>
    ensures { OnOk result (string_bytes out.new ≡ string_bytes out.old ++ server_input_text file input.now) }
{
    match input {
        ServerInput::Resend => write!(out, "resend {file}"),
        ServerInput::Learn {
            node,
            incarnation: known,
        } => write!(out, "learn {file} {node}.{known}"),
    }
}

// Adds the text of the change of a member, with the incarnation or the epoch that its entry names.
fn push_member(out: &mut String, event: &MemberEvent, incarnation: u16) -> Result<(), AllocError>
    ensures { OnOk result (string_bytes out.new ≡ string_bytes out.old ++ member_text event.now incarnation) }
{
    match event {
        MemberEvent::Declare { node } => write!(out, "declare {node}.{incarnation}"),
        MemberEvent::Restart { node } => write!(out, "restart {node}.{incarnation}"),
        MemberEvent::FailServer { file } => write!(out, "fail-server {file}.{incarnation}"),
        MemberEvent::StartServer { file } => write!(out, "start-server {file}.{incarnation}"),
    }
}

/// Adds the text of an event as journals of this version have it, with the incarnation and the call
/// that its entry names.
pub fn push_event(
    out: &mut String,
    version: Version,
    event: &Event,
    incarnation: u16,
    call: &Option<CallId>,
) -> Result<(), AllocError>
    ensures { OnOk result (string_bytes out.new ≡ string_bytes out.old ++ event_text version event.now incarnation call.now) }
{
    match event {
        Event::AtNode(node, input) => push_node_input(out, *node, input, incarnation, call),
        Event::AtServer(file, input) => push_server_input(out, *file, input),
        Event::Deliver(message) => {
            out.push_str("deliver ")?;
            push_message(out, version, message.get())
        }
        Event::Member(change) => push_member(out, change, incarnation),
    }
}
