//! The time of the answer to a call.

/// The time of the answer to a call: the position of an entry of the journal, from 1, or never.
#[derive(Clone, Copy)]
pub enum AnswerTime {
    At(u64),
    Never,
}
