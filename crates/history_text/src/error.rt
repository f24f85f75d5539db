//! The reasons why a text is no history.
use crate::judging::JudgeError;
use std::alloc::{AllocError, Global};

pub(crate) const NO_HEAD: &str = "the first line is `history 1 clock UNIT`";

pub(crate) const MISSING: &str = "a word is missing";

pub(crate) const NO_OWNER: &str = "expected an owner";

pub(crate) const WRONG_REPLY: &str = "the reply does not go with the call";

/// The reason why a line is not read.
#[derive(Clone, Copy)]
pub(crate) enum LineError {
    /// A request for memory was refused.
    NoMemory,
    /// A word may not stand there: the number of the line's bytes from its first one on, and the reason.
    Bad(usize, &'static str),
}

impl From<AllocError> for LineError {
    fn from(_error: AllocError) -> LineError {
        LineError::NoMemory
    }
}

impl LineError {
    /// The error of the whole text, the content of the file at this path, where the line has this number, from 1, and
    /// these words. It names the column, from 1, of the first character of the first word that may not stand there;
    /// one behind the last character where a word is missing.
    ///
    /// # Errors
    /// `AllocError` where a request for memory was refused.
    pub(crate) fn at(
        self,
        alloc: Global,
        path: &str,
        line: u64,
        words: &str,
    ) -> Result<JudgeError, AllocError> {
        match self {
            LineError::NoMemory => Ok(JudgeError::NoMemory),
            LineError::Bad(left, reason) => {
                let bytes = words.as_bytes();
                let front = &bytes[..bytes.len().saturating_sub(left)];
                let before = front.iter().filter(|byte| is_first(**byte)).count() as u64;
                let column = before.saturating_add(1);
                Ok(JudgeError::Bad(format!(in alloc; "{path}:{line}:{column}: {reason}\n")?))
            }
        }
    }
}

// Whether the byte is the first one of a character in UTF-8.
fn is_first(byte: u8) -> bool {
    byte < 0x80 || 0xc0 <= byte
}
