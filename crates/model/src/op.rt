//! Operations.
ghost use Rattle.std.specs.Prelude.{◌≡◌};
ghost use Rattle.model.specs.rule.Table.{need_of};

use crate::access::Access;
use crate::mode::Mode;
use crate::owner::Kind;

/// An operation that a process calls. Files are numbers; a segment is START and LEN as in
/// `struct flock`.
#[derive(Clone, Copy, Debug, PartialEq, Eq)]
pub enum Op {
    /// A call about processes and descriptors alone.
    Process(ProcessCall),
    /// The descriptor goes (POSIX.1-2017 `close()`).
    Close {
        fd: u8,
    },
    /// Ends the calling process and closes its descriptors (POSIX.1-2017 `_exit()`).
    Exit,
    /// A call about a lock on a segment.
    Lock(LockCall),
    /// No lock on a segment (POSIX.1-2017 `fcntl()`, F_SETLK with F_UNLCK).
    Unlock {
        fd: u8,
        kind: Kind,
        start: i64,
        len: i64,
    },
}

/// What a process asks that changes which processes of its node run, or what their descriptors refer to, and no
/// lock.
#[derive(Clone, Copy, Debug, PartialEq, Eq)]
pub enum ProcessCall {
    /// The process begins.
    Spawn,
    /// A child, whose number is from 1 to 256, begins with the descriptors of the process (POSIX.1-2017
    /// `fork()`).
    Fork { child: u16 },
    /// The process opens the file (POSIX.1-2017 `open()`).
    Open { file: u16, access: Access },
    /// One more descriptor, the lowest that is free, refers to what this one, from 0 to 63, does (POSIX.1-2017
    /// `dup()`). Any other number is none that the process has.
    Dup { fd: u8 },
}

/// A call about a lock of this kind and mode on a segment of the file that the descriptor refers to.
#[derive(Clone, Copy, Debug, PartialEq, Eq)]
pub struct LockCall {
    pub command: LockCommand,
    pub fd: u8,
    pub kind: Kind,
    pub mode: Mode,
    pub start: i64,
    pub len: i64,
}

/// What a call asks about a lock: to have it, now or as soon as it is free, or whether it would be free.
#[derive(Clone, Copy, Debug, PartialEq, Eq)]
pub enum LockCommand {
    /// A lock on a segment, at once or not at all (POSIX.1-2017 `fcntl()`, F_SETLK).
    Set,
    /// A lock on a segment, as soon as no lock is in the way (POSIX.1-2017 `fcntl()`, F_SETLKW).
    Wait,
    /// Whether a lock on a segment would be in the way of another owner's, and which one is
    /// (POSIX.1-2017 `fcntl()`, F_GETLK).
    Query,
}

impl LockCall {
    /// The mode for which its descriptor has to be open; `None` where it only asks.
    pub fn need(&self) -> Option<Mode>
        ensures { result ≡ need_of self.now.command self.now.mode }
    {
        match self.command {
            LockCommand::Set | LockCommand::Wait => Some(self.mode),
            LockCommand::Query => None,
        }
    }
}
