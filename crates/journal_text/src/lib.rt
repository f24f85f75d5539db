//! Journals as texts: how a journal is written, read back, and checked line by line. This crate
//! doesn't check that the entries are a run, and knows nothing of files on a disk, or of threads.
#![tactic(auto)]

pub mod builder;
pub mod events;
mod fits;
pub mod head;
pub mod journal;
pub mod journal_place;
mod journal_reader;
pub mod laws;
pub mod lines;
pub mod named_entry;
pub mod named_event;
pub mod operands;
pub mod parse;
pub mod replies;
pub mod sink;
pub mod writing;
