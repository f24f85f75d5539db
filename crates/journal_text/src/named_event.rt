//! Events with the names that their entries give them.
//!
//! Each function here that can fail errs with `AllocError`, where a request for memory was refused.
ghost use Rattle.std.specs.Prelude.{◌≡◌, IfOk};
ghost use Rattle.journal_text.specs.rule.Events as named;

use message_text::WrittenMessage;
use messages::{Event, MemberEvent, NodeInput, ServerInput, SharedMessage};
use model::{CallId, Host, Op};
use std::alloc::{AllocError, Global};

/// An event with the incarnation, the epoch or the call that its entry names.
#[derive(Drop)]
pub enum NamedEvent<'a> {
    /// A process makes a call, which gets this name.
    Call { call: CallId, pid: u16, op: Op },
    /// A message is delivered to its addressee.
    Deliver(WrittenMessage<'a>),
    /// The wait of a process is interrupted.
    Interrupt { host: Host, pid: u16 },
    /// A node tries the open call of a process again.
    Retry { host: Host, pid: u16 },
    /// The token server of a file sends again each message that has no answer yet.
    Resend { file: u16 },
    /// The node is declared failed in this incarnation.
    Declare { host: Host },
    /// The node begins again in this incarnation.
    Restart { host: Host },
    /// The token server of a file learns that this incarnation of a node was declared failed.
    Learn { file: u16, host: Host },
    /// The token server of a file is declared failed in this epoch.
    FailServer { file: u16, epoch: u16 },
    /// The token server of a file is rebuilt in this epoch.
    StartServer { file: u16, epoch: u16 },
}

impl NamedEvent<'_> {
    /// The event without the names in it.
    pub fn event(self, alloc: Global) -> Result<Event, AllocError>
        ensures { IfOk result (λ event. event ≡ named.event_of self.entry) }
    {
        Ok(match self {
            NamedEvent::Call { call, pid, op } => {
                Event::AtNode(call.node, NodeInput::Call { pid, op })
            }
            NamedEvent::Deliver(message) => {
                Event::Deliver(SharedMessage::new(alloc, message.message(alloc)?)?)
            }
            NamedEvent::Interrupt { host, pid } => {
                Event::AtNode(host.node, NodeInput::Interrupt { pid })
            }
            NamedEvent::Retry { host, pid } => Event::AtNode(host.node, NodeInput::Retry { pid }),
            NamedEvent::Resend { file } => Event::AtServer(file, ServerInput::Resend),
            NamedEvent::Declare { host } => {
                Event::Member(MemberEvent::Declare { node: host.node })
            }
            NamedEvent::Restart { host } => {
                Event::Member(MemberEvent::Restart { node: host.node })
            }
            NamedEvent::Learn { file, host } => {
                let Host { node, incarnation } = host;
                Event::AtServer(file, ServerInput::Learn { node, incarnation })
            }
            NamedEvent::FailServer { file, .. } => Event::Member(MemberEvent::FailServer { file }),
            NamedEvent::StartServer { file, .. } => Event::Member(MemberEvent::StartServer {
                file,
            }),
        })
    }

    /// The incarnation, or the epoch of a server, that the event's entry names; 0 for none.
    pub fn incarnation(&self) -> u16
        ensures { result ≡ named.incarnation_of self.now }
    {
        match self {
            NamedEvent::Interrupt { host, .. }
            | NamedEvent::Retry { host, .. }
            | NamedEvent::Declare { host }
            | NamedEvent::Restart { host } => host.incarnation,
            NamedEvent::FailServer { epoch, .. } | NamedEvent::StartServer { epoch, .. } => *epoch,
            _ => 0,
        }
    }

    /// The call that the event's entry names, if it names one.
    pub fn call(&self) -> Option<CallId>
        ensures { result ≡ named.call_of self.now }
    {
        match self {
            NamedEvent::Call { call, .. } => Some(*call),
            _ => None,
        }
    }
}
