//! The test whether lines of a script may have their outcomes, by the failures and starts before each, and by those
//! behind a call in its phase.
ghost use Rattle.std.specs.Prelude.{◌≡◌, ◌⊎◌, ℕ, Bool, List, ◌∷◌, Some, None, Ok, Err, max, unwrap_or, if◌then◌else◌, ◌==◌, true, false, IfOk, IfErr, OnOk, OnErr, IsTrue};
ghost use Rattle.std.specs.BTreeMap as tree;
ghost use Rattle.std.specs.Ordering.{nat_cmp};
ghost use Rattle.thread_runs.specs.rule.Runs.{parts, MayAllCome, MayCallCome, MayChangeCome, MayCome, after_line, changed_by, declares, first_of, has_call, has_process, if_made};
ghost use Rattle.lockscript.specs.declared.script_line.ScriptCommand.{ScriptCommand};
ghost use Rattle.thread_runs.specs.declared.line_outcome.LineOutcome.TheVariants.{Denied};
ghost use Rattle.thread_runs.specs.declared.played_line.PlayedLine.{PlayedLine};
ghost use Rattle.thread_runs.specs.code.Awaited.{AreMet, members_of};
ghost use Rattle.node_core.specs.rule.Calls.{is_in_shape};
ghost use Rattle.messages.specs.rule.Messages.{is_within};
ghost use Rattle.messages.specs.rule.Shapes.{may_rebuild};
ghost use Rattle.messages.specs.declared.refusal.Refused.TheVariants as refusal;

use crate::{LineOutcome, PlayedLine};
use actors::CallError;
use lockscript::ScriptCommand;
use messages::{Members, Refused, Shape};
use model::{MOST_PROCESSES, Op, ProcessCall};
use std::alloc::{AllocError, Global};
use std::collections::BTreeMap;

// Whether the number is from 1 to `most`.
fn is_number(most: u16, number: u16) -> bool
    ensures { result ≡ is_within most number }
{
    1 <= number && number <= most
}

// Whether the cluster has the node, and a node can have the process.
fn has_process(shape: Shape, node: u8, pid: u16) -> bool
    ensures { result ≡ has_process shape node pid }
{
    is_number(u16::from(shape.nodes()), u16::from(node)) && is_number(MOST_PROCESSES, pid)
}

// Whether the file and the process that the operation names are within the shape's limits.
fn is_in_shape(shape: Shape, op: &Op) -> bool
    ensures { result ≡ is_in_shape shape op.now }
{
    match op {
        Op::Process(ProcessCall::Open { file, .. }) => is_number(shape.files(), *file),
        Op::Process(ProcessCall::Fork { child }) => is_number(MOST_PROCESSES, *child),
        _ => true,
    }
}

// Whether the cluster has all that the call names.
fn has_call(shape: Shape, node: u8, pid: u16, op: &Op) -> bool
    ensures { result ≡ has_call shape node pid op.now }
{
    has_process(shape, node, pid) && is_in_shape(shape, op)
}

// The members of a cluster behind the lines that were passed, and the nodes that have still to be declared failed in
// the phase, each with the position behind which that has to be.
#[derive(Drop)]
struct PassedMembers {
    members: Members,
    awaited: BTreeMap<u8, u32>,
}

impl PassedMembers {
    // The members before any line was passed.
    fn new(alloc: Global, shape: Shape) -> Result<PassedMembers, AllocError>
        ensures members { IfOk result (λ p. members_of p.members ≡ first_of shape) }
    {
        Ok(PassedMembers {
            members: Members::new(alloc, shape)?,
            awaited: BTreeMap::new(alloc),
        })
    }

    // Makes the failure or the start of the line's command.
    fn change(&mut self, shape: Shape, command: ScriptCommand) -> Result<(), Refused>
        ensures ok { OnOk result (changed_by shape (members_of self.old.members) command ≡ Ok (members_of self.new.members)) }
        ensures err { IfErr result (λ why. changed_by shape (members_of self.old.members) command ≡ Err why) }
        ensures unchanged { OnErr result (self.new.members ≡ self.old.members) }
        ensures awaited { self.new.awaited ≡ self.old.awaited }
    {
        match command {
            ScriptCommand::Declare { node } => {
                self.members.declare(node)?;
            }
            ScriptCommand::Restart { node } => {
                self.members.restart(node)?;
            }
            ScriptCommand::FailServer { file } => {
                rebuilds(shape)?;
                self.members.fail_server(file)?;
            }
            ScriptCommand::StartServer { file } => {
                rebuilds(shape)?;
                self.members.start_server(file)?;
            }
            _ => {}
        }
        Ok(())
    }

    // Makes the failure or the start, if its outcome says that it was made. Answers whether the outcome may be.
    fn pass_change(&mut self, shape: Shape, command: ScriptCommand, outcome: &LineOutcome) -> bool
        ensures may { IsTrue result → MayChangeCome (changed_by shape (members_of self.old.members) command) outcome.now }
        ensures members { IsTrue result → members_of self.new.members ≡ if_made (members_of self.old.members) (changed_by shape (members_of self.old.members) command) outcome.now }
        ensures awaited { self.new.awaited ≡ self.old.awaited }
    {
        match outcome {
            LineOutcome::Made(_) => self.change(shape, command).is_ok(),
            LineOutcome::Refused(why) => match self.change(shape, command) {
                Ok(()) => false,
                Err(other) => other == *why,
            },
            _ => true,
        }
    }

    // Notes that the node has still to be declared failed in the phase, by an entry behind this position.
    fn expect(&mut self, node: u8, after: u32) -> Result<(), AllocError>
        ensures members { self.new.members ≡ self.old.members }
        ensures awaited { OnOk result ((n : ℕ) → tree.get nat_cmp self.new.awaited n ≡ (if n == node then Some (max after (unwrap_or (tree.get nat_cmp self.old.awaited node) 0)) else tree.get nat_cmp self.old.awaited n)) }
    {
        let known = match self.awaited.get(&node) {
            Some(known) => *known,
            None => 0,
        };
        self.awaited.insert(node, after.max(known))?;
        Ok(())
    }

    // Notes a line that declares a node failed which has to be. `false` where its entry stands too early.
    fn meet(&mut self, command: ScriptCommand, outcome: &LineOutcome) -> bool
        ensures members { self.new.members ≡ self.old.members }
        ensures awaited { IsTrue result → (n after : ℕ) → tree.get nat_cmp self.old.awaited n ≡ Some after → (declares n after command outcome.now ≡ true) ⊎ (tree.get nat_cmp self.new.awaited n ≡ Some after) }
    {
        let (ScriptCommand::Declare { node }, LineOutcome::Made(at)) = (command, outcome) else {
            return true;
        };
        match self.awaited.remove(&node) {
            Some(after) => after < *at,
            None => true,
        }
    }

    // Whether the call of the process may have this outcome. If the outcome needs its node declared failed behind the
    // call, that is noted.
    fn pass_call(
        &mut self,
        shape: Shape,
        node: u8,
        pid: u16,
        op: Op,
        outcome: &LineOutcome,
    ) -> Result<bool, AllocError>
        ensures members { self.new.members ≡ self.old.members }
        ensures may { IfOk result (λ may. may ≡ true → (is_between : ScriptCommand → Bool) (behind : List PlayedLine) → AreMet is_between self.new.awaited behind → MayCallCome is_between shape (members_of self.old.members).nodes node pid op outcome.now behind × AreMet is_between self.old.awaited behind) }
    {
        let live = self.members.alive(node);
        match outcome {
            LineOutcome::Answered(receipt) => {
                let is_live = live == Some(receipt.call().incarnation);
                Ok(is_live && has_call(shape, node, pid, &op))
            }
            LineOutcome::Denied(why) => self.pass_denied(shape, node, pid, op, *why),
            LineOutcome::Open(_) => Ok(live.is_some() && has_call(shape, node, pid, &op)),
            _ => Ok(true),
        }
    }

    // Whether the call of the process may have been denied so. If the denial needs its node declared failed behind
    // the call, that is noted.
    fn pass_denied(
        &mut self,
        shape: Shape,
        node: u8,
        pid: u16,
        op: Op,
        why: CallError,
    ) -> Result<bool, AllocError>
        ensures members { self.new.members ≡ self.old.members }
        ensures may { IfOk result (λ may. may ≡ true → (is_between : ScriptCommand → Bool) (behind : List PlayedLine) → AreMet is_between self.new.awaited behind → MayCallCome is_between shape (members_of self.old.members).nodes node pid op (Denied why) behind × AreMet is_between self.old.awaited behind) }
    {
        let is_live = self.members.alive(node).is_some();
        match why {
            CallError::Stranger => Ok(!has_call(shape, node, pid, &op)),
            CallError::Fenced if !is_live => Ok(has_process(shape, node, pid)),
            CallError::Fenced => {
                self.expect(node, 0)?;
                Ok(has_process(shape, node, pid))
            }
            CallError::Killed { call_at } => {
                self.expect(node, call_at)?;
                Ok(is_live && has_call(shape, node, pid, &op))
            }
            _ => Ok(true),
        }
    }

    // Whether no node has still to be declared failed.
    fn is_met(&self) -> bool
        ensures { IsTrue result → (n : ℕ) → tree.get nat_cmp self.now.awaited n ≡ None }
    {
        self.awaited.is_empty()
    }

    // Whether the line separates no phases, or no node has still to be declared failed.
    fn may_part(&self, no_join: bool, line: &PlayedLine) -> bool
        ensures { IsTrue result → parts no_join line.now.line.command ≡ true → (n : ℕ) → tree.get nat_cmp self.now.awaited n ≡ None }
    {
        !line.parts(no_join) || self.is_met()
    }

    // Passes the next line. `false` where it can't have its outcome.
    fn pass(&mut self, shape: Shape, no_join: bool, line: &PlayedLine) -> Result<bool, AllocError>
        ensures members { IfOk result (λ may. may ≡ true → members_of self.new.members ≡ after_line shape (members_of self.old.members) line.now) }
        ensures may { IfOk result (λ may. may ≡ true → (behind : List PlayedLine) → AreMet (parts no_join) self.new.awaited behind → MayCome (parts no_join) shape (members_of self.old.members) line.now.line.command line.now.outcome behind × AreMet (parts no_join) self.old.awaited (line.now ∷ behind)) }
    {
        let command = line.line.command();
        if !self.may_part(no_join, line) || !self.meet(command, &line.outcome) {
            return Ok(false);
        }
        match command {
            ScriptCommand::Call { node, pid, op } => self.pass_call(
                shape,
                node,
                pid,
                op,
                &line.outcome,
            ),
            _ => Ok(self.pass_change(shape, command, &line.outcome)),
        }
    }
}

/// Whether each line may have its outcome, by the failures and starts before it, and by those behind a call in its
/// phase.
pub(crate) fn may_all_come(
    alloc: Global,
    shape: Shape,
    no_join: bool,
    lines: &[PlayedLine],
) -> Result<bool, AllocError>
    ensures { IfOk result (λ may. may ≡ true → MayAllCome (parts no_join) shape (first_of shape) lines.now) }
{
    let mut passed = PassedMembers::new(alloc, shape)?;
    for line in lines {
        if !passed.pass(shape, no_join, line)? {
            return Ok(false);
        }
    }
    Ok(passed.is_met())
}

// Refuses where token servers of the shape's version don't fail and begin again.
fn rebuilds(shape: Shape) -> Result<(), Refused>
    ensures yes { OnOk result (may_rebuild shape.version ≡ true) }
    ensures no { IfErr result (λ why. (why ≡ refusal.Stranger) × (may_rebuild shape.version ≡ false)) }
{
    if shape.version().may_rebuild() {
        Ok(())
    } else {
        Err(Refused::Stranger)
    }
}
