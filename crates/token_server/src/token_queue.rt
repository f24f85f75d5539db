//! The requests for tokens that a token server keeps: the active ones, and lines of those that are queued or wait. It
//! knows when two requests need a common byte, and nothing of tokens, rows, messages that are sent, files or printed
//! text.

pub mod active;
pub mod active_request;
pub mod line;
mod slots;
pub mod token_request;
mod walk;
