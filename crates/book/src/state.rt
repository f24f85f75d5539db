//! The copy of the state of one actor, a node or a token server.
ghost use Rattle.std.specs.Prelude.{◌≡◌, ◌≢◌, ◌≤◌, ◌<◌, ◌↔◌, true, Ok, Err, IfOk, IfErr, OnOk, OnErr, IsTrue};
ghost use Rattle.node_core.specs.rule.Parts.{node_state};
ghost use Rattle.token_server.specs.rule.Parts.{server_state};
ghost use Rattle.cluster_core.specs.rule.Parts.{world_state};
ghost use Rattle.node_core.specs.rule.Commands.{is_node};
ghost use Rattle.token_server.specs.rule.Server.{is_server};
ghost use Rattle.cluster_core.specs.rule.Actors.{node_step, server_step};
ghost use Rattle.node_core.specs.code.Plans.{planned as reached, Fits as NodeFits};
ghost use Rattle.token_server.specs.code.Edits.{planned, Fits as ServerFits};
ghost use Rattle.cluster_core.specs.rule.World.{journal_limit};
ghost use Rattle.cluster_core.specs.rule.Next.{is_known};
ghost use Rattle.cluster_core.specs.rule.Journals.{GoesOn};

use crate::{PlannedStep, StateEdit};
use cluster_core::{Run, World};
use messages::{Actor, Event, Outcome, StepError};
use node_core::{Node, NodeChange, NodeEvent};
use std::alloc::{AllocError, Global};
use token_server::{Server, ServerChange, ServerEvent};

/// A copy of the state of one actor: a node by its number, from 1, or the token server of a file by the file's number, from 1.
#[derive(Drop)]
pub(crate) enum State {
    OfNode { number: u8, node: Box<Node> },
    OfServer { file: u16, server: Box<Server> },
}

// Whether the actor is the node with that number.
fn is_node(number: u8, actor: Actor) -> bool
    ensures { result ≡ is_node number actor }
{
    match actor {
        Actor::Node(node) => node == number,
        Actor::Server(_) => false,
    }
}

// Whether the actor is the token server of that file.
fn is_server(number: u16, actor: Actor) -> bool
    ensures { result ≡ is_server number actor }
{
    match actor {
        Actor::Node(_) => false,
        Actor::Server(file) => file == number,
    }
}

// The planned step of the node at an event: its change and its outcome.
fn planned_node(
    alloc: Global,
    number: u8,
    node: &Node,
    event: &Event,
) -> Result<NodeChange, StepError>
    ensures ok { IfOk result (λ change. node_step number (node_state node.now) event.now ≡ Ok (reached node.now change.edit, change.outcome)) }
    ensures err { IfErr result (λ e. e ≢ StepError.NoMemory → node_step number (node_state node.now) event.now ≡ Err e) }
    ensures refused { (r : StepError) → node_step number (node_state node.now) event.now ≡ Err r → result ≡ Err r }
    ensures fits { IfOk result (λ change. NodeFits node.now change.edit) }
{
    match event {
        Event::AtNode(of, input) if *of == number => node.plan(alloc, &NodeEvent::Input(*input)),
        Event::Deliver(message) if is_node(number, message.get().addressee()) => {
            node.plan_delivery(alloc, message.get())
        }
        _ => Err(StepError::Stranger),
    }
}

// The planned step of the token server at an event: its change and its outcome.
fn planned_server(
    alloc: Global,
    number: u16,
    server: &Server,
    event: &Event,
) -> Result<ServerChange, StepError>
    ensures ok { IfOk result (λ change. server_step number (server_state server.now) event.now ≡ Ok (planned server.now change.edit, change.outcome)) }
    ensures err { IfErr result (λ e. e ≢ StepError.NoMemory → server_step number (server_state server.now) event.now ≡ Err e) }
    ensures refused { (r : StepError) → r ≢ StepError.Spent → server_step number (server_state server.now) event.now ≡ Err r → result ≡ Err r }
    ensures fits { IfOk result (λ change. ServerFits server.now change.edit) }
{
    match event {
        Event::Deliver(message) if is_server(number, message.get().addressee()) => {
            server.plan_delivery(alloc, message.get())
        }
        Event::AtServer(file, input) if *file == number => {
            server.plan(alloc, &ServerEvent::Input(*input))
        }
        _ => Err(StepError::Stranger),
    }
}

impl State {
    ghost use Rattle.book.specs.rule.States.{actor_of, incarnation_of, Rejects, HasState, is_declared};
    ghost use Rattle.book.specs.code.Copies.{Fits, Plans, Becomes};
    ghost use Rattle.book.specs.rule.States.{state_of};

    /// The actor of the state.
    pub(crate) fn actor(&self) -> Actor
        ensures { result ≡ actor_of (state_of self.now) }
    {
        match self {
            State::OfNode { number, .. } => Actor::Node(*number),
            State::OfServer { file, .. } => Actor::Server(*file),
        }
    }

    /// The incarnation of the node, or the epoch of the token server, from 1.
    pub(crate) fn incarnation(&self) -> u16
        ensures value { result ≡ incarnation_of (state_of self.now) }
        ensures from_one { 1 ≤ result }
    {
        match self {
            State::OfNode { node, .. } => node.incarnation(),
            State::OfServer { server, .. } => server.epoch(),
        }
    }

    /// The planned step of the actor at an event: its change and its outcome.
    ///
    /// # Errors
    /// `Stranger` where the actor takes no such event; then those of the actor's plan.
    pub(crate) fn plan(
        &self,
        alloc: Global,
        event: &Event,
    ) -> Result<(StateEdit, Outcome), StepError>
        ensures fits { IfOk result (λ r. Fits self.now r.0) }
        ensures ok { IfOk result (λ r. Plans self.now event.now r.0 r.1) }
        ensures err { IfErr result (λ e. e ≢ StepError.NoMemory → Rejects (state_of self.now) event.now e) }
        ensures refused { (r : StepError) → r ≢ StepError.Spent → Rejects (state_of self.now) event.now r → result ≡ Err r }
    {
        match self {
            State::OfNode { number, node } => {
                let change = planned_node(alloc, *number, node, event)?;
                Ok((StateEdit::Node(change.edit), change.outcome))
            }
            State::OfServer { file, server } => {
                let change = planned_server(alloc, *file, server, event)?;
                Ok((StateEdit::Server(change.edit), change.outcome))
            }
        }
    }

    /// Makes a planned change of the state, and gives the outcome back. Takes no memory.
    pub(crate) fn apply(&mut self, edit: StateEdit, outcome: Outcome) -> Outcome
        requires { Fits self.old edit }
        ensures state { Becomes self.old edit self.new }
        ensures outcome { result ≡ outcome }
    {
        match self {
            State::OfNode { node, .. } => match edit {
                StateEdit::Node(edit) => node.apply(NodeChange { edit, outcome }),
                StateEdit::Server(_) => unreachable!(),
            },
            State::OfServer { server, .. } => match edit {
                StateEdit::Server(edit) => server.apply(ServerChange { edit, outcome }),
                StateEdit::Node(_) => unreachable!(),
            },
        }
    }

    /// The run takes the event by the step, which was planned from this copy. The run's own copy, which is equal, is
    /// exchanged for this one: so this one is then as the actor was before the step.
    ///
    /// # Errors
    /// `AllocError` where a request for memory was refused. The run and the copy are then as they were.
    pub(crate) fn step_in(
        &mut self,
        alloc: Global,
        run: &mut Run,
        step: PlannedStep,
    ) -> Result<(), AllocError>
        requires room { run.old.world.length < journal_limit }
        requires known { is_known (world_state run.old.world) step.event ≡ true }
        requires stands { HasState (world_state run.old.world) (state_of self.old) }
        requires fits { Fits self.old step.edit }
        requires plans { Plans self.old step.event step.edit step.outcome }
        ensures ok { OnOk result (GoesOn run.old step.event run.new) }
        ensures state { state_of self.new ≡ state_of self.old }
        ensures unchanged { OnErr result ((run.new ≡ run.old) × (self.new ≡ self.old)) }
    {
        let PlannedStep {
            event,
            edit,
            outcome,
        } = step;
        match self {
            State::OfNode { number, node } => match edit {
                StateEdit::Node(edit) => {
                    run.step_node(alloc, event, *number, node, NodeChange { edit, outcome })
                }
                StateEdit::Server(_) => unreachable!(),
            },
            State::OfServer { file, server } => match edit {
                StateEdit::Server(edit) => {
                    run.step_server(alloc, event, *file, server, ServerChange { edit, outcome })
                }
                StateEdit::Node(_) => unreachable!(),
            },
        }
    }

    /// Whether the actor is alive in the world, and in this state.
    pub(crate) fn stands_in(&self, world: &World) -> bool
        ensures { IsTrue result ↔ HasState (world_state world.now) (state_of self.now) }
    {
        match self {
            State::OfNode { number, node } => world.has_node(*number, node),
            State::OfServer { file, server } => world.has_server(*file, server),
        }
    }

    /// Whether the node's incarnation, or the token server's epoch, was declared failed in the world.
    pub(crate) fn is_declared_in(&self, world: &World) -> bool
        ensures { result ≡ is_declared (world_state world.now) (state_of self.now) }
    {
        match self {
            State::OfNode { number, node } => world.has_declared(*number, node.incarnation()),
            State::OfServer { file, server } => world.has_failed(*file, server.epoch()),
        }
    }
}
