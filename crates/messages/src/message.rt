//! The messages between nodes and token servers.
ghost use Rattle.std.specs.Prelude.{◌≡◌, ◌↔◌, IsTrue, IfOk};
ghost use Rattle.model.specs.rule.Limits.{IsNumber};
ghost use Rattle.messages.specs.rule.Messages.{addressee, host_of, file_of, SameMessageIsEquality};
ghost use Rattle.messages.specs.rule.Shapes.{most_files};

use crate::actor::Actor;
use crate::command_number::CommandNumber;
use crate::epoch_number::EpochNumber;
use crate::file_number::FileNumber;
use crate::token_run::TokenRuns;
use crate::wanted::Wanted;
use intervals::span::Span;
use model::{CallId, Host, LockInfo, Mode};
use std::alloc::{AllocError, Global};

/// Whether the request of a blocked call waits until locks go (POSIX.1-2017 `fcntl()`, F_SETLKW),
/// or is denied.
#[derive(Clone, Copy, PartialEq, Eq, Hash)]
pub enum Blocking {
    No,
    Yes,
}

/// A message between a node and the token server of a file, 1 to 256. `call` names the call that
/// needs the token. `number` is the number of the command that the message is, or that it answers:
/// for a revoke and its answers the command to the `holder`, the node whose token is in the way.
#[derive(Clone, PartialEq, Eq, Hash, Drop)]
pub enum Message {
    /// From a node to the server: a call needs a token.
    Request {
        file: FileNumber,
        call: CallId,
        blocking: Blocking,
        mode: Mode,
        wanted: Wanted,
    },
    /// From the server to the node of the call, as a command: the node's token is raised on the
    /// span.
    Grant {
        file: FileNumber,
        number: CommandNumber,
        call: CallId,
        mode: Mode,
        span: Span,
    },
    /// From the server to a holder, as a command: give up the token that the call needs, as far as
    /// its mode excludes it.
    Revoke {
        file: FileNumber,
        number: CommandNumber,
        holder: Host,
        call: CallId,
        mode: Mode,
        wanted: Wanted,
    },
    /// From a node to the server, the answer to a grant: the node has the token.
    Taken {
        file: FileNumber,
        number: CommandNumber,
        call: CallId,
    },
    /// From a holder to the server, an answer to a revoke: the holder gave up the span.
    Released {
        file: FileNumber,
        number: CommandNumber,
        holder: Host,
        call: CallId,
        span: Span,
    },
    /// From a holder to the server, an answer to a revoke: a lock of the holder is in the way.
    Conflict {
        file: FileNumber,
        number: CommandNumber,
        holder: Host,
        call: CallId,
        lock: LockInfo,
    },
    /// From the server to the node of the call: the call is denied, for the lock that the holder
    /// named when it answered the revoke with that number.
    Deny {
        file: FileNumber,
        call: CallId,
        holder: Host,
        number: CommandNumber,
        lock: LockInfo,
    },
    /// From a holder to the server: locks that the holder named in the way may be gone.
    Freed {
        file: FileNumber,
        holder: Host,
    },
    /// From a rebuilt server to a node: report your token. The number is the one after which the
    /// commands of the server's epoch begin.
    Hello {
        file: FileNumber,
        number: EpochNumber,
        holder: Host,
    },
    /// From a node to a rebuilt server, the answer to a hello: the longest runs of the node's
    /// token.
    Report {
        file: FileNumber,
        number: EpochNumber,
        holder: Host,
        runs: TokenRuns,
    },
}

impl Message {
    /// The actor that the message is for.
    pub fn addressee(&self) -> Actor
        ensures { result ≡ addressee self.now }
    {
        match self {
            Message::Request { file, .. }
            | Message::Taken { file, .. }
            | Message::Released { file, .. }
            | Message::Conflict { file, .. }
            | Message::Freed { file, .. }
            | Message::Report { file, .. } => Actor::Server(file.get()),
            Message::Grant { call, .. } | Message::Deny { call, .. } => Actor::Node(call.node),
            Message::Revoke { holder, .. } | Message::Hello { holder, .. } => {
                Actor::Node(holder.node)
            }
        }
    }

    /// The node, in its incarnation, that sends the message or receives it.
    pub fn host(&self) -> Host
        ensures { result ≡ host_of self.now }
    {
        match self {
            Message::Request { call, .. }
            | Message::Grant { call, .. }
            | Message::Taken { call, .. }
            | Message::Deny { call, .. } => call.host(),
            Message::Revoke { holder, .. }
            | Message::Released { holder, .. }
            | Message::Conflict { holder, .. }
            | Message::Freed { holder, .. }
            | Message::Hello { holder, .. }
            | Message::Report { holder, .. } => *holder,
        }
    }

    /// The file that the message is about, 1 to 256.
    pub fn file(&self) -> u16
        ensures value { result ≡ file_of self.now }
        ensures within { IsNumber most_files result }
    {
        match self {
            Message::Request { file, .. }
            | Message::Grant { file, .. }
            | Message::Revoke { file, .. }
            | Message::Taken { file, .. }
            | Message::Released { file, .. }
            | Message::Conflict { file, .. }
            | Message::Deny { file, .. }
            | Message::Freed { file, .. }
            | Message::Hello { file, .. }
            | Message::Report { file, .. } => file.get(),
        }
    }

    /// Whether both messages are equal.
    pub fn same(&self, other: &Message) -> bool
        ensures { IsTrue result ↔ (self.now ≡ other.now) }
    {
        self == other
    }

    /// An equal message.
    ///
    /// # Errors
    /// `AllocError` where a request for memory was refused; only the runs of a report need any.
    pub fn copy(&self, alloc: Global) -> Result<Message, AllocError>
        ensures { IfOk result (λ copy. copy ≡ self.now) }
    {
        let Message::Report {
            file,
            number,
            holder,
            runs,
        } = self
        else {
            return self.clone();
        };
        Ok(Message::Report {
            file: *file,
            number: *number,
            holder: *holder,
            runs: runs.copy(alloc)?,
        })
    }
}

/// The test `same_message` of the definitions, by value, holds exactly of two equal messages.
pub fn same_message_is_equality()
    ensures { SameMessageIsEquality }
{}
