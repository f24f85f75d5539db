//! The reasons for which calls on processes and descriptors are refused.
ghost use Rattle.std.specs.Prelude.{◌≡◌, Result, Err, MatchResult};
ghost use Rattle.model.specs.declared.reply.Reply.{Reply};
ghost use Rattle.model.specs.rule.Descriptors.{Processes};
ghost use Rattle.descriptors.specs.code.Rows.{Refuses, fd_reply};

use model::Reply;
use std::alloc::AllocError;
use thiserror::Error;

/// A reason for which a call on processes and descriptors is refused.
#[derive(Clone, Copy, Debug, PartialEq, Eq, Error)]
pub enum ProcessError {
    /// A request for memory was refused.
    #[error("no memory")]
    NoMemory,
    /// The calling process doesn't run.
    #[error("no such process")]
    NoProcess,
    /// The process that should begin runs already.
    #[error("the process runs already")]
    Exists,
    /// The process has no such descriptor (POSIX.1-2017 `dup()`, EBADF).
    #[error("no such descriptor")]
    BadFd,
    /// The process has 64 descriptors (POSIX.1-2017 `open()`, EMFILE).
    #[error("too many open files")]
    TooManyFiles,
}

impl ProcessError {
    /// The reply that says so.
    ///
    /// # Errors
    /// `AllocError` for `NoMemory`, for which there is no reply.
    pub fn reply(self) -> Result<Reply, AllocError>
        ensures { MatchResult result (λ reply. (answer : Result (Processes × Reply) Reply) → Refuses self answer → answer ≡ Err reply) (λ _. self ≡ ProcessError.NoMemory) }
    {
        match self {
            ProcessError::NoMemory => Err(AllocError),
            ProcessError::NoProcess => Ok(Reply::NoProcess),
            ProcessError::Exists => Ok(Reply::Exists),
            ProcessError::BadFd => Ok(Reply::BadFd),
            ProcessError::TooManyFiles => Ok(Reply::TooManyFiles),
        }
    }
}

impl From<FdError> for ProcessError {
    ghost use Rattle.descriptors.specs.code.Rows.{process_error};

    ghost from_gives = { λ error made. made ≡ process_error error };

    fn from(error: FdError) -> Self {
        match error {
            FdError::NoProcess => ProcessError::NoProcess,
            FdError::BadFd => ProcessError::BadFd,
        }
    }
}

/// A reason for which a descriptor refers to nothing.
#[derive(Clone, Copy, Debug, PartialEq, Eq, Error)]
pub enum FdError {
    /// The process doesn't run.
    #[error("no such process")]
    NoProcess,
    /// The process has no such descriptor (POSIX.1-2017 `fcntl()`, EBADF).
    #[error("no such descriptor")]
    BadFd,
}

impl FdError {
    /// The reply that says so.
    pub fn reply(self) -> Reply
        ensures { result ≡ fd_reply self }
    {
        match self {
            FdError::NoProcess => Reply::NoProcess,
            FdError::BadFd => Reply::BadFd,
        }
    }
}
