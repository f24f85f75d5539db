//! The list of declarations and starts, and its texts.
ghost use Rattle.std.specs.Prelude.{◌≡◌, ◌≢◌, ◌<◌, ◌^◌, ◌++◌, ◌∷◌, [], List, codes, length, string_bytes, Ok, Err, IfOk, IfErr, OnErr, OnOk};
ghost use Rattle.messages.specs.declared.event.MemberEvent.{MemberEvent as Change};
ghost use Rattle.messages.specs.declared.refusal.Refused.TheVariants.{NoMemory};
ghost use Rattle.seat_commands.specs.rule.Changes.{counts_line, first_list, list_head, list_rule, list_state, list_with, member_line, noted_text, size_line, told_line, told_text};
ghost use Rattle.seat_text.specs.rule.SeatLines.{line_text};

use crate::clock::push_interval;
use journal_text::journal::push_end;
use journal_text::writing::push_event;
use messages::{Event, MemberEvent, Members, Refused, Shape, Version};
use std::alloc::{AllocError, Global};
use std::fmt::Write;
use std::marker::Model;

/// Who was declared failed and who began again, in order, and which nodes and token servers are alive now.
#[derive(Drop)]
pub struct ChangeList {
    members: Members,
    changes: Vec<MemberEvent>,
}

impl Model for ChangeList {
    ghost use Rattle.seat_commands.specs.rule.Changes.{ListParts};

    ghost Value = { ListParts };

    ghost view = { λ l. record { members = l.members; changes = l.changes.items } };
}

impl ChangeList {
    /// The list of a cluster that begins.
    ///
    /// # Errors
    /// `AllocError` where a request for memory was refused.
    pub fn new(alloc: Global, shape: Shape) -> Result<ChangeList, AllocError>
        ensures { IfOk result (λ list. list_state list ≡ first_list shape) }
    {
        Ok(ChangeList {
            members: Members::new(alloc, shape)?,
            changes: Vec::new(alloc),
        })
    }

    /// The changes so far.
    pub fn changes(&self) -> &[MemberEvent]
        ensures { result.now ≡ self.now.changes }
    {
        self.changes.as_slice()
    }

    /// How many there are.
    pub fn count(&self) -> usize
        ensures value { result ≡ length self.now.changes }
        ensures bound { result < 2 ^ 63 }
    {
        self.changes.len()
    }

    /// Adds the change. Gives the incarnation, or the epoch, that it ends or begins.
    ///
    /// # Errors
    /// Those of the members' rules: the list is as it was then; `NoMemory` where a request for memory was refused: what the
    /// list is then is not said.
    pub fn add(&mut self, change: MemberEvent) -> Result<u16, Refused>
        ensures ok { IfOk result (λ incarnation. list_rule (list_state self.old) change ≡ Ok (list_state self.new, incarnation)) }
        ensures err { IfErr result (λ e. e ≢ NoMemory → list_rule (list_state self.old) change ≡ Err e) }
        ensures unchanged { IfErr result (λ e. e ≢ NoMemory → self.new ≡ self.old) }
    {
        let incarnation = changed(&mut self.members, change)?;
        self.changes.push(change)?;
        Ok(incarnation)
    }
}

// The members change so.
fn changed(members: &mut Members, change: MemberEvent) -> Result<u16, Refused>
    ensures ok { IfOk result (λ incarnation. (changes : List Change) → list_rule (list_with members.old changes) change ≡ Ok (list_with members.new (changes ++ change ∷ []), incarnation)) }
    ensures err { IfErr result (λ e. (changes : List Change) → list_rule (list_with members.old changes) change ≡ Err e) }
    ensures unchanged { OnErr result (members.new ≡ members.old) }
{
    match change {
        MemberEvent::Declare { node } => members.declare(node),
        MemberEvent::Restart { node } => members.restart(node),
        MemberEvent::FailServer { file } => members.fail_server(file),
        MemberEvent::StartServer { file } => members.start_server(file),
    }
}

/// A change, with the incarnation or the epoch that it ends or begins, and the readings of a clock, if one was read.
#[derive(Clone, Copy)]
pub struct NotedChange {
    pub change: MemberEvent,
    pub incarnation: u16,
    pub interval: Option<(u64, u64)>,
}

/// Adds the block with which the list begins.
///
/// Each function here that adds a text errs with `AllocError`, where a request for memory was refused.
pub fn push_list_head(out: &mut String, shape: &Shape) -> Result<(), AllocError>
    ensures { OnOk result (string_bytes out.new ≡ string_bytes out.old ++ list_head shape.now) }
{
    push_size(out, shape.nodes(), shape.files())?;
    push_end(out, 0)
}

// Adds the line of a cluster's size.
fn push_size(out: &mut String, nodes: u8, files: u16) -> Result<(), AllocError>
    ensures { OnOk result (string_bytes out.new ≡ string_bytes out.old ++ size_line nodes files) }
{
    out.push_str("members 2 nodes ")?;
    push_counts(out, nodes, files)
}

// Adds the numbers of nodes and files, and the end of their line.
fn push_counts(out: &mut String, nodes: u8, files: u16) -> Result<(), AllocError>
    ensures { OnOk result (string_bytes out.new ≡ string_bytes out.old ++ counts_line nodes files) }
{
    writeln!(out, "{nodes} files {files}")
}

/// Adds the block of a change, which is the one of this number.
pub fn push_noted(out: &mut String, noted: &NotedChange, count: usize) -> Result<(), AllocError>
    ensures { OnOk result (string_bytes out.new ≡ string_bytes out.old ++ noted_text noted.now count) }
{
    push_interval(out, noted.interval)?;
    push_member_line(out, noted)?;
    push_end(out, count)
}

// Adds the line of a change.
fn push_member_line(out: &mut String, noted: &NotedChange) -> Result<(), AllocError>
    ensures { OnOk result (string_bytes out.new ≡ string_bytes out.old ++ member_line noted.now) }
{
    out.push_str("member ")?;
    let event = Event::Member(noted.change);
    push_event(out, Version::Second, &event, noted.incarnation, &None)?;
    out.push_str("\n")
}

/// Adds the lines that a seat is to be told of these changes.
pub fn push_told(out: &mut String, changes: &[MemberEvent]) -> Result<(), AllocError>
    ensures { OnOk result (string_bytes out.new ≡ string_bytes out.old ++ told_text changes.now) }
{
    for change in changes {
        push_line(out, *change)?;
    }
    push_end(out, changes.len())
}

// Adds the line that a seat is to be told of the change.
fn push_line(out: &mut String, change: MemberEvent) -> Result<(), AllocError>
    ensures { OnOk result (string_bytes out.new ≡ string_bytes out.old ++ (line_text (told_line change) ++ codes "\n")) }
{
    match change {
        MemberEvent::Declare { node } => writeln!(out, "declare {node}"),
        MemberEvent::Restart { node } => writeln!(out, "restart {node}"),
        MemberEvent::FailServer { file } => writeln!(out, "fail-server {file}"),
        MemberEvent::StartServer { file } => writeln!(out, "start-server {file}"),
    }
}
