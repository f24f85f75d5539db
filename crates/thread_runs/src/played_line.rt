//! A line of a script with its outcome.
ghost use Rattle.std.specs.Prelude.{◌≡◌, ◌↔◌, IsTrue};
ghost use Rattle.thread_runs.specs.declared.line_outcome.LineOutcome.TheVariants.{Left};
ghost use Rattle.thread_runs.specs.rule.Runs.{Fits, asker, is_call, is_change, made_by, may_be_denied, may_be_refused, parts, receipt_in, refused_in};
ghost use Rattle.lockscript.specs.declared.script_line.ScriptCommand.TheVariants.{Call, Settle};

use crate::{IndexedCommand, LineOutcome, asker_of};
use actors::CallError;
use book::Receipt;
use lockscript::{RefusedLine, ScriptCommand, ScriptLine};
use messages::Refused;

/// A line of a script, and its outcome on threads.
#[derive(Clone, Copy, Debug)]
pub struct PlayedLine {
    pub line: ScriptLine,
    pub outcome: LineOutcome,
}

impl PlayedLine {
    /// A line whose turn has not come.
    pub(crate) fn new(line: ScriptLine) -> PlayedLine
        ensures { (result.line ≡ line) × (result.outcome ≡ Left) }
    {
        PlayedLine {
            line,
            outcome: LineOutcome::Left,
        }
    }

    /// The receipt of the line's call, if it was answered.
    pub(crate) fn receipt(&self) -> Option<Receipt>
        ensures { result ≡ receipt_in self.now }
    {
        self.outcome.receipt()
    }

    /// The number of the line and that of its refusal, if it was refused.
    pub(crate) fn refused(&self) -> Option<RefusedLine>
        ensures { result ≡ refused_in self.now }
    {
        let code = self.outcome.code()?;
        Some(RefusedLine {
            line: self.line.number(),
            code,
        })
    }

    /// The command of the line with the index of the entry that it made, if it made one.
    pub(crate) fn made(&self) -> Option<IndexedCommand>
        ensures { result ≡ made_by self.now }
    {
        let position = self.outcome.begins()?;
        Some(IndexedCommand {
            index: position.saturating_sub(1) as usize,
            command: self.line.command(),
        })
    }

    /// The process that asks, by its node and its number, both from 1; 0 and 0 for a line that is no call.
    pub(crate) fn asker(&self) -> (u8, u16)
        ensures { result ≡ asker self.now.line.command }
    {
        asker_of(&self.line.command())
    }

    /// Whether the run was ended before the line's turn came.
    pub(crate) fn is_left(&self) -> bool
        ensures { IsTrue result ↔ (self.now.outcome ≡ Left) }
    {
        matches!(self.outcome, LineOutcome::Left)
    }

    /// Whether the line separates phases.
    pub(crate) fn parts(&self, no_join: bool) -> bool
        ensures { result ≡ parts no_join self.now.line.command }
    {
        match self.line.command() {
            ScriptCommand::Settle => true,
            ScriptCommand::Call { .. } => false,
            _ => !no_join,
        }
    }

    /// Whether the line may have its outcome.
    pub(crate) fn fits(&self) -> bool
        ensures { IsTrue result ↔ Fits self.now.line.command self.now.outcome }
    {
        let command = self.line.command();
        match self.outcome {
            LineOutcome::Answered(receipt) => is_call_of(&command, &receipt),
            LineOutcome::Denied(why) => is_call(&command) && may_be_denied(why),
            LineOutcome::Made(at) => is_change(&command) && at > 0,
            LineOutcome::Refused(why) => is_change(&command) && may_be_refused(why),
            LineOutcome::Settled => is_settle(&command),
            LineOutcome::Open(at) => is_call(&command) && at > 0,
            LineOutcome::Left => true,
        }
    }
}

// Whether the command is the receipt's call.
fn is_call_of(command: &ScriptCommand, receipt: &Receipt) -> bool
    ensures { IsTrue result ↔ (command.now ≡ Call receipt.now.call.node receipt.now.pid receipt.now.op) }
{
    let call = ScriptCommand::Call {
        node: receipt.call().node,
        pid: receipt.pid(),
        op: receipt.op(),
    };
    same_command(command, &call)
}

// Whether both commands are equal.
fn same_command(one: &ScriptCommand, other: &ScriptCommand) -> bool
    ensures { IsTrue result ↔ (one.now ≡ other.now) }
{
    one == other
}

fn is_call(command: &ScriptCommand) -> bool
    ensures { result ≡ is_call command.now }
{
    matches!(command, ScriptCommand::Call { .. })
}

// Whether the command is a failure or a start.
fn is_change(command: &ScriptCommand) -> bool
    ensures { result ≡ is_change command.now }
{
    matches!(
        command,
        ScriptCommand::Declare { .. }
            | ScriptCommand::Restart { .. }
            | ScriptCommand::FailServer { .. }
            | ScriptCommand::StartServer { .. }
    )
}

fn is_settle(command: &ScriptCommand) -> bool
    ensures { IsTrue result ↔ (command.now ≡ Settle) }
{
    same_command(command, &ScriptCommand::Settle)
}

// Whether a call may be denied for this reason while the run goes on.
fn may_be_denied(why: CallError) -> bool
    ensures { result ≡ may_be_denied why }
{
    match why {
        CallError::Stranger | CallError::Fenced => true,
        CallError::Killed { call_at } => call_at > 0,
        _ => false,
    }
}

// Whether a failure or a start may be refused for this reason while the run goes on.
fn may_be_refused(why: Refused) -> bool
    ensures { result ≡ may_be_refused why }
{
    matches!(
        why,
        Refused::NotAlive | Refused::NotDead | Refused::TooManyRestarts | Refused::Stranger
    )
}
