//! The node, and how its steps are planned and applied.
ghost use Rattle.std.specs.Prelude.{◌≡◌, ◌≢◌, ◌≤◌, ◌-◌, ◌↔◌, Ok, Err, IfOk, IfErr, IsTrue};
ghost use Rattle.model.specs.rule.Limits.{IsNumber};
ghost use Rattle.node_core.specs.declared.event.NodeEvent.TheVariants.{Input, Deliver};
ghost use Rattle.node_core.specs.rule.State.{first_node, host};
ghost use Rattle.node_core.specs.rule.Node.{node_rule};
ghost use Rattle.node_core.specs.rule.Files.{state_of};
ghost use Rattle.node_core.specs.rule.Parts.{node_state};
ghost use Rattle.node_core.specs.code.Plans.{planned, Fits};

use crate::change::NodeChange;
use crate::event::NodeEvent;
use crate::file_rows::FileRows;
use crate::node_edit::{NodeDraft, NodeEdit, apply_table};
use crate::numbers::calls_after;
use crate::open_calls::OpenCalls;
use descriptors::processes::Processes;
use lock_table::lock_table::LockTable;
use messages::{Message, NodeInput, Outcome, Shape, StepError};
use model::Host;
use std::alloc::{AllocError, Global};
use std::marker::Model;

/// A node of the cluster in one incarnation: its processes with their descriptors, their locks, its
/// open calls in order of arrival, and what it knows of each file.
#[derive(Drop)]
pub struct Node {
    shape: Shape,
    node: u8,
    incarnation: u16,
    calls: u32,
    processes: Processes,
    locks: LockTable,
    pending: OpenCalls,
    files: FileRows,
}

impl Model for Node {
    ghost use Rattle.node_core.specs.rule.Files.{state_of};
    ghost use Rattle.node_core.specs.rule.Parts.{NodeParts, IsNode};

    ghost Value = { NodeParts };

    ghost view = { λ n. record {
      shape = n.shape;
      node = n.node;
      incarnation = n.incarnation;
      calls = n.calls;
      processes = n.processes;
      locks = n.locks;
      pending = n.pending;
      files = n.files;
    } };

    ghost invariant = { λ n. IsNode (record {
      shape = n.shape;
      node = n.node;
      incarnation = n.incarnation;
      calls = n.calls;
      processes = n.processes;
      locks = n.locks;
      pending = n.pending;
      files = n.files;
    }) };
}

// Whether both shapes are equal.
fn same_shape(shape: Shape, other: Shape) -> bool
    ensures { IsTrue result ↔ (shape ≡ other) }
{
    shape == other
}

impl Node {
    /// A node of the shape that begins in an incarnation, from 1.
    ///
    /// # Errors
    /// `AllocError` where a request for memory was refused.
    #[tactic(auto, using(crate::proofs::AnchorLaws::first_anchored))]
    pub fn new(alloc: Global, shape: Shape, node: u8, incarnation: u16) -> Result<Node, AllocError>
        requires node { IsNumber shape.nodes node }
        requires incarnation { 1 ≤ incarnation }
        ensures { IfOk result (λ made. node_state made ≡ first_node shape node incarnation) }
    {
        let _ = shape.nodes(); // tells the proof that the number of nodes is in range
        let files = FileRows::new(alloc, shape.files())?;
        Ok(Node {
            shape,
            node,
            incarnation,
            calls: 0,
            processes: Processes::new(alloc),
            locks: LockTable::new(alloc, shape.most_regions()),
            pending: OpenCalls::new(alloc),
            files,
        })
    }

    /// An equal node.
    ///
    /// # Errors
    /// `AllocError` where a request for memory was refused.
    pub fn copy(&self, alloc: Global) -> Result<Node, AllocError>
        ensures { IfOk result (λ copy. copy ≡ self.now) }
    {
        Ok(Node {
            shape: self.shape,
            node: self.node,
            incarnation: self.incarnation,
            calls: self.calls,
            files: self.files.copy(alloc)?,
            processes: self.processes.copy()?,
            locks: self.locks.copy()?,
            pending: self.pending.copy()?,
        })
    }

    /// The node and its incarnation.
    #[tactic(auto, unfolding(crate::specs::rule::Parts::node_state))]
    pub fn host(&self) -> Host
        ensures { result ≡ host (node_state self.now) }
    {
        Host {
            node: self.node,
            incarnation: self.incarnation,
        }
    }

    /// Plans what the node does when the message is delivered, as `plan` does for the event.
    ///
    /// # Errors
    /// The errors of `step`, in the same cases.
    pub fn plan_delivery(&self, alloc: Global, message: &Message) -> Result<NodeChange, StepError>
        ensures ok { IfOk result (λ change. node_rule (node_state self.now) (Deliver message.now) ≡ Ok (planned self.now change.edit, change.outcome)) }
        ensures err { IfErr result (λ error. error ≢ StepError.NoMemory → node_rule (node_state self.now) (Deliver message.now) ≡ Err error) }
        ensures refused { (r : StepError) → node_rule (node_state self.now) (Deliver message.now) ≡ Err r → result ≡ Err r }
        ensures fits { IfOk result (λ change. Fits self.now change.edit) }
    {
        let _ = &self.shape; // tells the proof what holds of every node
        self.plan_message(alloc, message)
    }

    // Plans what the node does at what comes to it beside messages, as `plan` does for the event.
    fn plan_input(&self, alloc: Global, input: &NodeInput) -> Result<NodeChange, StepError>
        ensures ok { IfOk result (λ change. node_rule (node_state self.now) (Input input.now) ≡ Ok (planned self.now change.edit, change.outcome)) }
        ensures err { IfErr result (λ error. error ≢ StepError.NoMemory → node_rule (node_state self.now) (Input input.now) ≡ Err error) }
        ensures refused { (r : StepError) → node_rule (node_state self.now) (Input input.now) ≡ Err r → result ≡ Err r }
        ensures fits { IfOk result (λ change. Fits self.now change.edit) }
    {
        let _ = &self.shape; // tells the proof what holds of every node
        match input {
            NodeInput::Call { pid, op } => self.plan_call(alloc, *pid, op),
            NodeInput::Interrupt { pid } => self.plan_interrupt(alloc, *pid),
            NodeInput::Retry { pid } => self.plan_retry(alloc, *pid),
        }
    }

    /// Plans what the node does at an event, as `step` says. It costs what the parts that the event
    /// changes hold, and no more: the locks of one owner in one file, and one file. An `exit` looks
    /// at each file, whether a Freed is owed for it. A Hello costs as much as the token holds.
    ///
    /// # Errors
    /// The errors of `step`, in the same cases.
    pub fn plan(&self, alloc: Global, event: &NodeEvent) -> Result<NodeChange, StepError>
        ensures ok { IfOk result (λ change. node_rule (node_state self.now) event.now ≡ Ok (planned self.now change.edit, change.outcome)) }
        ensures err { IfErr result (λ error. error ≢ StepError.NoMemory → node_rule (node_state self.now) event.now ≡ Err error) }
        ensures refused { (r : StepError) → node_rule (node_state self.now) event.now ≡ Err r → result ≡ Err r }
        ensures fits { IfOk result (λ change. Fits self.now change.edit) }
    {
        match event {
            NodeEvent::Input(input) => self.plan_input(alloc, input),
            NodeEvent::Deliver(message) => self.plan_delivery(alloc, message),
        }
    }

    // Makes a planned change of each part of the node.
    #[tactic(auto, unfolding(crate::specs::rule::Parts::node_state))]
    fn apply_edit(&mut self, edit: Box<NodeEdit>)
        requires { Fits self.old edit }
        ensures { node_state self.new ≡ planned self.old edit }
    {
        let NodeEdit {
            draft,
            table,
            calls,
            freed,
        } = Box::into_inner(edit);
        let NodeDraft { numbered, command } = draft;
        let host = self.host();
        self.calls = calls_after(self.calls, numbered);
        apply_table(&mut self.processes, &mut self.locks, host, table);
        self.pending.apply(calls);
        self.files.apply_command(command);
        self.files.clear_owed(freed.as_slice());
    }

    /// Makes a planned change, and gives the outcome of its step. Takes no memory.
    pub fn apply(&mut self, change: NodeChange) -> Outcome
        requires { Fits self.old change.edit }
        ensures state { node_state self.new ≡ planned self.old change.edit }
        ensures outcome { result ≡ change.outcome }
    {
        let NodeChange { edit, outcome } = change;
        self.apply_edit(edit);
        outcome
    }

    /// What the node does at an event: the node afterwards, and the outcome. This node stays as it
    /// is.
    ///
    /// # Errors
    /// In this order: `Stranger` where the number of a process is outside 1 to 256, a file is
    /// outside the shape, or a message is for another actor; `Busy` where the process has an open
    /// call and doesn't exit; `Spent` where no call number is left. Each of these is tested before
    /// memory is requested. `NoMemory` where a request for memory was refused.
    pub fn step(&self, alloc: Global, event: &NodeEvent) -> Result<(Node, Outcome), StepError>
        ensures ok { IfOk result (λ r. node_rule (node_state self.now) event.now ≡ Ok (node_state r.0, r.1)) }
        ensures err { IfErr result (λ error. error ≢ StepError.NoMemory → node_rule (node_state self.now) event.now ≡ Err error) }
        ensures refused { (r : StepError) → node_rule (node_state self.now) event.now ≡ Err r → result ≡ Err r }
    {
        let change = self.plan(alloc, event)?;
        let mut next = self.copy(alloc)?;
        let outcome = next.apply(change);
        Ok((next, outcome))
    }

    /// Whether both nodes are in the same state.
    pub fn same(&self, other: &Node) -> bool
        ensures { IsTrue result ↔ (node_state self.now ≡ node_state other.now) }
    {
        if !same_shape(self.shape, other.shape) {
            return false;
        }
        if self.node != other.node {
            return false;
        }
        if self.incarnation != other.incarnation {
            return false;
        }
        if self.calls != other.calls {
            return false;
        }
        if !self.pending.same(&other.pending) {
            return false;
        }
        if !self.processes.same(&other.processes) {
            return false;
        }
        if !self.locks.same(&other.locks) {
            return false;
        }
        self.files.same(&other.files)
    }
}

mod answers;
mod calls;
mod commands;
mod interrupts;
mod readers;
mod reading;
mod shuts;
mod tries;
