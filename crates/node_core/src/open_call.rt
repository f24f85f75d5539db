//! The open calls of processes: what they want, and what they are about.
ghost use Rattle.std.specs.Prelude.{◌≡◌, ◌↔◌, IsTrue};
ghost use Rattle.node_core.specs.rule.State.{target_of};
ghost use Rattle.node_core.specs.rule.Try.{refusal_of, blocking_of};
ghost use Rattle.node_core.specs.rule.Interrupts.{interruption_of};

use intervals::span::Span;
use messages::Blocking;
use model::{LockCommand, LockInfo, LockTarget, Mode, Owner, Reply};

/// The reply that names a lock in the way; a wait stays open.
pub fn refusal_of(command: LockCommand, lock: LockInfo) -> Option<Reply>
    ensures { result ≡ refusal_of command lock }
{
    match command {
        LockCommand::Set => Some(Reply::Again(lock)),
        LockCommand::Wait => None,
        LockCommand::Query => Some(Reply::Blocked(lock)),
    }
}

/// What an interrupt answers: a wait alone (POSIX.1-2017 `fcntl()`, EINTR).
pub fn interruption_of(command: LockCommand) -> Option<Reply>
    ensures { result ≡ interruption_of command }
{
    match command {
        LockCommand::Wait => Some(Reply::Interrupted),
        LockCommand::Set | LockCommand::Query => None,
    }
}

/// Whether the request for its token waits where a lock blocks it.
pub fn blocking_of(command: LockCommand) -> Blocking
    ensures { result ≡ blocking_of command }
{
    match command {
        LockCommand::Wait => Blocking::Yes,
        LockCommand::Set | LockCommand::Query => Blocking::No,
    }
}

/// A call without a reply yet: its number, its process, what it wants, and the lock that it is
/// about.
#[derive(Clone, Copy, Debug, PartialEq, Eq)]
pub struct OpenCall {
    pub number: u32,
    pub pid: u16,
    pub lock_command: LockCommand,
    pub file: u16,
    pub owner: Owner,
    pub mode: Mode,
    pub span: Span,
}

impl OpenCall {
    /// The file, the owner and the bytes that the call is about.
    pub fn target(&self) -> LockTarget
        ensures { result ≡ target_of self.now }
    {
        LockTarget {
            file: self.file,
            owner: self.owner,
            span: self.span,
        }
    }

    /// Whether both calls are equal.
    pub fn same(&self, other: &OpenCall) -> bool
        ensures { IsTrue result ↔ (self.now ≡ other.now) }
    {
        self == other
    }
}
