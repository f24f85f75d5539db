//! The replies to calls: what a process gets back from each operation.
use crate::lock_info::LockInfo;

/// The reply to a call.
#[derive(Clone, Copy, Debug, PartialEq, Eq)]
pub enum Reply {
    Done,
    /// A descriptor was opened, with this number.
    Fd(u8),
    /// A lock of another owner is in the way: a whole region (POSIX.1-2017 `fcntl()`, EAGAIN).
    Again(LockInfo),
    /// No lock would be in the way of the queried one (POSIX.1-2017 `fcntl()`, F_GETLK with
    /// F_UNLCK).
    Free,
    /// A lock of another owner would be in the way of the queried one: a whole region (POSIX.1-2017
    /// `fcntl()`, F_GETLK).
    Blocked(LockInfo),
    /// The wait for a lock ended without the lock (POSIX.1-2017 `fcntl()`, EINTR).
    Interrupted,
    /// The calling process doesn't run.
    NoProcess,
    /// The process that should begin runs already.
    Exists,
    /// The process has no such descriptor, or it is not open for the mode (POSIX.1-2017 `fcntl()`,
    /// EBADF).
    BadFd,
    /// The process has 64 descriptors already (POSIX.1-2017 `open()`, EMFILE).
    TooManyFiles,
    /// The owner would have too many regions in the file (POSIX.1-2017 `fcntl()`, ENOLCK).
    NoLocks,
    /// The segment begins before byte 0 (POSIX.1-2017 `fcntl()`, EINVAL).
    Invalid,
    /// The segment ends past the greatest offset (POSIX.1-2017 `fcntl()`, EOVERFLOW).
    Overflow,
}
