//! The one table that a single machine's `fcntl()` would keep: the processes of all hosts, their
//! open files, and the locks. This crate knows nothing of tokens, messages or files on a disk.
#![tactic(auto)]

pub mod edit;
mod hosts;
pub mod locks;
pub mod shut;
pub mod table;
pub mod target;
