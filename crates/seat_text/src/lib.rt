//! Blocks of lines. A talk reads lines, answers each, and keeps a log of what was said; a seat is told what to do by lines, and
//! says what it did in blocks; logs of such blocks are read back, and lists of declarations and starts. This crate knows
//! nothing of how logs are merged, of when a seat is asked, of command lines, or of files on a disk.
#![tactic(auto)]

pub mod block;
mod block_reader;
mod parts;
pub mod read;
pub mod seat_line;
pub mod talk;
pub mod writing;

pub use read::{LogError, LogFault, ReadList, ReadLog, read_list, read_log};
pub use seat_line::{SeatLine, seat_line_of};
pub use talk::{Answerer, TalkEnd, tell};
pub use writing::{Speaker, push_bad, push_begin, push_refused};
