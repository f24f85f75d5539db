//! The entries of a journal that lines of a script asked for, and the processes that asked.
ghost use Rattle.std.specs.Prelude.{◌≡◌, ◌↔◌, true, IfOk, IsTrue, filter, filter_map};
ghost use Rattle.std.specs.List.Sorted.{IsSortedByKey};
ghost use Rattle.std.specs.Ordering.{nat_cmp, ordering_then};
ghost use Rattle.lockscript.specs.declared.script_line.ScriptCommand.{ScriptCommand};
ghost use Rattle.thread_runs.specs.rule.Runs.{AreMade, asked_at, asked_by, asked_in, asker, command_of, has_asker, made_by};

use crate::played_line::PlayedLine;
use lockscript::ScriptCommand;
use messages::{Entry, Event, MemberEvent, NodeInput};
use std::alloc::{AllocError, Global};

/// The command of a script's line, and the index, from 0, of the entry that it made.
#[derive(Clone, Copy, Debug, PartialEq, Eq)]
pub struct IndexedCommand {
    pub index: usize,
    pub command: ScriptCommand,
}

impl IndexedCommand {
    // The process that asks, as `asker_of` names it.
    fn asker(&self) -> (u8, u16)
        ensures { result ≡ asker self.now.command }
    {
        asker_of(&self.command)
    }
}

/// The process that asks, by its node and its number, both from 1; 0 and 0 for a line that is no call.
pub(crate) fn asker_of(command: &ScriptCommand) -> (u8, u16)
    ensures { result ≡ asker command.now }
{
    match command {
        ScriptCommand::Call { node, pid, .. } => (*node, *pid),
        _ => (0, 0),
    }
}

// The command of a line that asks for this change of a member.
fn command_of(event: &MemberEvent) -> ScriptCommand
    ensures { result ≡ command_of event.now }
{
    match event {
        MemberEvent::Declare { node } => ScriptCommand::Declare { node: *node },
        MemberEvent::Restart { node } => ScriptCommand::Restart { node: *node },
        MemberEvent::FailServer { file } => ScriptCommand::FailServer { file: *file },
        MemberEvent::StartServer { file } => ScriptCommand::StartServer { file: *file },
    }
}

// The command of a line that asks for this event, if a line can ask for it.
fn asked_by(event: &Event) -> Option<ScriptCommand>
    ensures { result ≡ asked_by event.now }
{
    match event {
        Event::AtNode(node, NodeInput::Call { pid, op }) => Some(ScriptCommand::Call {
            node: *node,
            pid: *pid,
            op: *op,
        }),
        Event::Member(change) => Some(command_of(change)),
        _ => None,
    }
}

// The command that asks for the entry's event, with the entry's index, if a line can ask for it.
fn asked_at(index: usize, entry: &Entry) -> Option<IndexedCommand>
    ensures { result ≡ asked_at (index, entry.now) }
{
    let command = asked_by(entry.event())?;
    Some(IndexedCommand { index, command })
}

/// The commands that ask for the entries' events, each with the index of its entry, in order.
pub(crate) fn asked_in(alloc: Global, entries: &[Entry]) -> Result<Vec<IndexedCommand>, AllocError>
    ensures { IfOk result (λ asked. asked.items ≡ asked_in entries.now) }
{
    entries
        .iter()
        .enumerate()
        .filter_map(|(index, entry)| asked_at(index, entry))
        .collect(alloc)
}

// The commands of the lines that made an entry, each with the index of its entry, in order.
fn made_in(alloc: Global, lines: &[PlayedLine]) -> Result<Vec<IndexedCommand>, AllocError>
    ensures { IfOk result (λ made. made.items ≡ filter_map made_by lines.now) }
{
    lines.iter().filter_map(|line| line.made()).collect(alloc)
}

/// The commands, sorted by the process that asks. Commands of one process keep their order.
pub(crate) fn by_asker(asked: Vec<IndexedCommand>) -> Result<Vec<IndexedCommand>, AllocError>
    ensures same { IfOk result (λ sorted. (c : ScriptCommand) → filter (has_asker c) sorted.items ≡ filter (has_asker c) asked.items) }
    ensures sorted { IfOk result (λ sorted. IsSortedByKey (λ one. asker one.command) (λ x y. ordering_then (nat_cmp x.0 y.0) (nat_cmp x.1 y.1)) sorted.items) }
{
    let mut sorted = asked;
    sorted.sort_by_key(|one| one.asker())?;
    Ok(sorted)
}

// Whether both lists are equal.
fn same(one: &[IndexedCommand], other: &[IndexedCommand]) -> bool
    ensures { IsTrue result ↔ (one.now ≡ other.now) }
{
    one == other
}

/// Whether the entries that lines can ask for are exactly those that these lines made, those of each process in the
/// order of its lines.
pub(crate) fn are_made(
    alloc: Global,
    entries: &[Entry],
    lines: &[PlayedLine],
) -> Result<bool, AllocError>
    ensures { IfOk result (λ are. are ≡ true → AreMade entries.now lines.now) }
{
    let asked = by_asker(asked_in(alloc, entries)?)?;
    let made = by_asker(made_in(alloc, lines)?)?;
    Ok(same(asked.as_slice(), made.as_slice()))
}
