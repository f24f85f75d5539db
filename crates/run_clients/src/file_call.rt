//! A call about a file, as its client saw it.
use crate::answer_time::AnswerTime;
use client_history::Act;
use model::{Op, Owner};

/// A call about a file (1 to 256), as its client saw it: its owner, its act on the locks of the file, and the
/// operation of its process. It was made at the entry at position `begin` of the journal, from 1, and answered at
/// `end`.
#[derive(Clone, Copy)]
pub struct FileCall {
    pub file: u16,
    pub op: Op,
    pub owner: Owner,
    pub begin: u64,
    pub end: AnswerTime,
    pub act: Act,
}
