//! The processes of one node and their descriptors, and what spawn, fork, open, dup, close and exit
//! do to them. This crate knows nothing of locks, tokens or messages.
#![tactic(auto)]

mod counts;
pub mod edit;
pub mod error;
pub mod process_entry;
pub mod processes;
mod rows;
