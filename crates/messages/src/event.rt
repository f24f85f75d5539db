//! The events of a cluster: what can happen to its nodes and token servers.
ghost use Rattle.std.specs.Prelude.{◌≡◌, ◌↔◌, IsTrue, IfOk};

use crate::shared_message::SharedMessage;
use model::Op;
use std::alloc::AllocError;

/// An event of a cluster. A message that is lost has no event that delivers it, a repeated one has
/// two.
#[derive(Clone, PartialEq, Eq, Drop)]
pub enum Event {
    /// An input of the node with that number, which takes it by a step.
    AtNode(u8, NodeInput),
    /// An input of the token server of the file, which takes it by a step.
    AtServer(u16, ServerInput),
    /// A message that was sent is delivered to its addressee, which takes it by a step.
    Deliver(SharedMessage),
    /// A node or a token server fails, or begins again. No actor takes a step.
    Member(MemberEvent),
}

/// What comes to a node beside messages: the calls of its processes, and what its driver orders.
#[derive(Clone, Copy, PartialEq, Eq)]
pub enum NodeInput {
    /// A process of the node makes a call.
    Call { pid: u16, op: Op },
    /// The wait of a process is interrupted (a signal, in POSIX's words).
    Interrupt { pid: u16 },
    /// The node tries the open call of a process again.
    Retry { pid: u16 },
}

/// What comes to a token server beside messages.
#[derive(Clone, Copy, PartialEq, Eq)]
pub enum ServerInput {
    /// The order to send each message again that has no answer yet.
    Resend,
    /// The news that an incarnation of a node was declared failed. The server can't test it. If the node were alive,
    /// the server would forget what it holds, and grant the same bytes to another node.
    Learn { node: u8, incarnation: u16 },
}

/// How the members of a cluster change.
#[derive(Clone, Copy, PartialEq, Eq)]
pub enum MemberEvent {
    /// A node is declared failed: its incarnation takes no more steps.
    Declare { node: u8 },
    /// A node that was declared failed begins again, empty, in its next incarnation.
    Restart { node: u8 },
    /// The token server of a file is declared failed: its epoch takes no more steps.
    FailServer { file: u16 },
    /// The token server of a file that was declared failed is rebuilt, in its next epoch.
    StartServer { file: u16 },
}

impl Event {
    /// Whether both events are equal.
    pub fn same(&self, other: &Event) -> bool
        ensures { IsTrue result ↔ (self.now ≡ other.now) }
    {
        self == other
    }

    /// An equal event, which shares the message. It takes no memory.
    ///
    /// # Errors
    /// `AllocError` where the message has as many owners as can be counted.
    pub fn copy(&self) -> Result<Event, AllocError>
        ensures { IfOk result (λ copy. copy ≡ self.now) }
    {
        match self {
            Event::Deliver(message) => Ok(Event::Deliver(message.share()?)),
            _ => self.clone(),
        }
    }
}
