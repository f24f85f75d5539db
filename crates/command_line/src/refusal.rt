//! Why words are no command line.
ghost use Rattle.clap.specs.Words.{kind_of};
ghost use Rattle.command_line.specs.rule.Words.{IsOfKind};

use clap::error::ErrorKind;
use std::alloc::Global;
use thiserror::Error;

/// Why words are no command line. Its text is what is shown in place of a run.
#[derive(Debug, Drop, Error)]
pub enum Refusal {
    /// They ask for help or for the version, which is this text.
    #[error("{0}")]
    Help(String),
    /// They are wrong in the way that the text says.
    #[error("{0}")]
    Wrong(String),
    /// One of them is not UTF-8.
    #[error("a word of the command line is not UTF-8")]
    NotText,
    /// A request for memory was refused.
    #[error("no memory")]
    NoMemory,
}

impl Refusal {
    /// What the parser's error says.
    pub fn of(alloc: Global, error: &clap::Error) -> Refusal
        ensures { IsOfKind (kind_of error.now) result }
    {
        if error.kind() == ErrorKind::OutOfMemory {
            return Refusal::NoMemory;
        }
        match error.to_string(alloc) {
            Ok(text) if error.use_stderr() => Refusal::Wrong(text),
            Ok(text) => Refusal::Help(text),
            Err(_) => Refusal::NoMemory,
        }
    }
}
