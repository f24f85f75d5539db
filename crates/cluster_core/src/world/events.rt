//! Which events a world knows, and which would be steps of an actor that was declared failed.
ghost use Rattle.std.specs.Prelude.{◌≡◌, ◌<◌, true, false, ◌-◌};
ghost use Rattle.messages.specs.rule.Messages.{addressee, is_within};
ghost use Rattle.node_core.specs.rule.Calls.{is_in_shape};
ghost use Rattle.cluster_core.specs.rule.World.{was_declared};
ghost use Rattle.cluster_core.specs.rule.Next.{fits_shape, is_true, has_member, is_known, is_fenced, is_stopped, has_actor};
ghost use Rattle.cluster_core.specs.rule.Parts.{world_state};
ghost use Rattle.messages.specs.declared.event.Event.TheVariants.{AtNode, AtServer, Deliver, Member};
ghost use Rattle.messages.specs.declared.event.MemberEvent.TheVariants.{Declare, Restart};

use super::World;
use messages::{Actor, Event, MemberEvent, NodeInput, ServerInput, Shape};
use model::{MOST_PROCESSES, Op, ProcessCall};

// Whether the number is from 1 to `most`.
pub(super) fn is_number(most: u16, number: u16) -> bool
    ensures { result ≡ is_within most number }
{
    1 <= number && number <= most
}

// Whether the file and the process that the operation names are within the shape's limits.
fn is_of_shape(shape: Shape, op: &Op) -> bool
    ensures { result ≡ is_in_shape shape op.now }
{
    match op {
        Op::Process(ProcessCall::Open { file, .. }) => is_number(shape.files(), *file),
        Op::Process(ProcessCall::Fork { child }) => is_number(MOST_PROCESSES, *child),
        _ => true,
    }
}

impl World {
    // Whether the cluster has the actor.
    pub(super) fn has_actor(&self, actor: &Actor) -> bool
        ensures { result ≡ has_actor (world_state self.now) actor.now }
    {
        match actor {
            Actor::Node(node) => is_number(self.shape.nodes() as u16, *node as u16),
            Actor::Server(file) => is_number(self.shape.files(), *file),
        }
    }

    // Whether what comes to a node names processes and files of the shape.
    fn fits_shape(&self, input: &NodeInput) -> bool
        ensures { result ≡ fits_shape self.now.shape input.now }
    {
        match input {
            NodeInput::Call { pid, op } => is_number(256, *pid) && is_of_shape(self.shape, op),
            NodeInput::Interrupt { pid } => is_number(256, *pid),
            NodeInput::Retry { pid } => is_number(256, *pid),
        }
    }

    // Whether what comes to a token server tells only of incarnations that were declared failed.
    fn is_true(&self, input: &ServerInput) -> bool
        ensures { result ≡ is_true (world_state self.now) input.now }
    {
        match input {
            ServerInput::Resend => true,
            ServerInput::Learn { node, incarnation } => {
                is_number(self.shape.nodes() as u16, *node as u16)
                    && self.was_declared(*node, *incarnation)
            }
        }
    }

    // Whether the cluster has the member, and a server may fail in its version.
    pub(super) fn has_member(&self, event: &MemberEvent) -> bool
        ensures { result ≡ has_member (world_state self.now) event.now }
    {
        match event {
            MemberEvent::Declare { node } | MemberEvent::Restart { node } => {
                is_number(self.shape.nodes() as u16, *node as u16)
            }
            MemberEvent::FailServer { file } | MemberEvent::StartServer { file } => {
                self.shape.version().may_rebuild() && is_number(self.shape.files(), *file)
            }
        }
    }

    // Whether the event names only what the cluster has.
    pub(super) fn is_known(&self, event: &Event) -> bool
        ensures { result ≡ is_known (world_state self.now) event.now }
    {
        match event {
            Event::AtNode(node, input) => {
                is_number(self.shape.nodes() as u16, *node as u16) && self.fits_shape(input)
            }
            Event::AtServer(file, input) => {
                is_number(self.shape.files(), *file) && self.is_true(input)
            }
            Event::Deliver(message) => {
                let message = message.get();
                self.has_actor(&message.addressee()) && self.sent.contains(message)
            }
            Event::Member(change) => self.has_member(change),
        }
    }

    // Whether the node is alive.
    pub(super) fn is_alive(&self, node: u8) -> bool
        requires { is_within self.now.shape.nodes node ≡ true }
        ensures { result ≡ (world_state self.now).alive node }
    {
        self.members.alive(node).is_some()
    }

    // Whether that incarnation of the node was declared failed.
    pub(super) fn was_declared(&self, node: u8, incarnation: u16) -> bool
        requires { is_within self.now.shape.nodes node ≡ true }
        ensures { result ≡ was_declared (world_state self.now) node incarnation }
    {
        self.members.declared(node, incarnation)
    }

    // Whether the actor was declared failed and is not started again.
    pub(super) fn is_stopped(&self, actor: &Actor) -> bool
        requires { has_actor (world_state self.now) actor.now ≡ true }
        ensures { result ≡ is_stopped (world_state self.now) actor.now }
    {
        match actor {
            Actor::Node(node) => !self.is_alive(*node),
            Actor::Server(file) => !self.works(*file),
        }
    }

    // Whether the event would be a step of an actor that was declared failed.
    pub(super) fn is_fenced(&self, event: &Event) -> bool
        requires { is_known (world_state self.now) event.now ≡ true }
        ensures { result ≡ is_fenced (world_state self.now) event.now }
    {
        match event {
            Event::AtNode(node, _) => !self.is_alive(*node),
            Event::AtServer(file, _) => !self.works(*file),
            Event::Deliver(message) => self.is_stopped(&message.get().addressee()),
            Event::Member(_) => false,
        }
    }
}
