//! The words of a line, and the times, modes and bytes that they say. A function here that gives a `Result` answers
//! `Bad` with the first word that may not stand there.
ghost use Rattle.std.specs.Prelude.{◌≤◌, IfOk};

use crate::error::{LineError, MISSING};
use intervals::span::{GREATEST, Span, SpanError};
use model::Mode;
use texts::number::{number_of, offset_of};
use texts::text::split_field;
use texts::words::Named;

/// A word, and the number of the line's bytes from its first one on.
#[derive(Clone, Copy)]
pub(crate) struct LineWord<'a> {
    pub(crate) text: &'a str,
    left: usize,
}

impl LineWord<'_> {
    /// The error that the word may not stand there, for this reason.
    pub(crate) fn fault(&self, reason: &'static str) -> LineError {
        LineError::Bad(self.left, reason)
    }
}

/// The rest of a line, from the next word on. Words have one space between them.
#[derive(Drop)]
pub(crate) struct LineWords<'a> {
    rest: Option<&'a str>,
}

impl<'a> LineWords<'a> {
    /// The words of a line, or of the end of one.
    pub(crate) fn of(line: &'a str) -> LineWords<'a> {
        LineWords { rest: Some(line) }
    }

    /// Whether there is a next word.
    pub(crate) fn has_more(&self) -> bool {
        self.rest.is_some()
    }

    // The next word, or an empty one, and what stands behind it.
    fn split(&self) -> (&'a str, Option<&'a str>) {
        let line = self.rest.unwrap_or("");
        match split_field(line) {
            Some((text, rest)) => (text, Some(rest)),
            None => (line, None),
        }
    }

    /// Takes the next word.
    pub(crate) fn next_word(&mut self) -> Result<LineWord<'a>, LineError> {
        let (text, rest) = self.split();
        if text.is_empty() {
            return Err(self.fault(MISSING));
        }
        let left = self.rest.unwrap_or("").len();
        self.rest = rest;
        Ok(LineWord { text, left })
    }

    /// Takes the next word, which has to be this one; a reason says so.
    pub(crate) fn expect_word(
        &mut self,
        expected: &str,
        reason: &'static str,
    ) -> Result<(), LineError> {
        let word = self.next_word()?;
        if word.text == expected {
            Ok(())
        } else {
            Err(word.fault(reason))
        }
    }

    /// Takes the next word if it is this one. Answers whether it was.
    pub(crate) fn skip_word(&mut self, expected: &str) -> bool {
        let (text, rest) = self.split();
        let is_this = self.has_more() && text == expected;
        if is_this {
            self.rest = rest;
        }
        is_this
    }

    /// Checks that there is no next word.
    pub(crate) fn end(&self) -> Result<(), LineError> {
        if self.has_more() {
            Err(self.fault("expected the end of the line"))
        } else {
            Ok(())
        }
    }

    /// The error that the line may not go on like this behind the words that were taken.
    pub(crate) fn fault(&self, reason: &'static str) -> LineError {
        LineError::Bad(self.rest.unwrap_or("").len(), reason)
    }
}

/// Takes the next word, a time or a length of time: a whole number below 2 to the power of 63.
pub(crate) fn next_time(words: &mut LineWords<'_>) -> Result<u64, LineError> {
    let word = words.next_word()?;
    match number_of(word.text, 0, GREATEST) {
        Some(time) => Ok(time),
        None => Err(word.fault(unread_number(word.text))),
    }
}

/// Takes the next word: the end of what began at that time, and no earlier; a reason says so.
pub(crate) fn next_end(
    words: &mut LineWords<'_>,
    begin: u64,
    reason: &'static str,
) -> Result<u64, LineError>
    ensures { IfOk result (λ end. begin ≤ end) }
{
    let before = words.fault(reason);
    let end = next_time(words)?;
    if end < begin {
        return Err(before);
    }
    Ok(end)
}

/// Takes the next word, which names a mode.
pub(crate) fn next_mode(words: &mut LineWords<'_>) -> Result<Mode, LineError> {
    let word = words.next_word()?;
    match Mode::of_word(word.text) {
        Some(mode) => Ok(mode),
        None => Err(word.fault("expected `read` or `write`")),
    }
}

/// Takes the next two words, START and LEN, as in `struct flock`. Gives the bytes that they name.
pub(crate) fn next_span(words: &mut LineWords<'_>) -> Result<Span, LineError> {
    let first = words.next_word()?;
    let start = offset_in(&first)?;
    let second = words.next_word()?;
    let len = offset_in(&second)?;
    match Span::from_flock(start, len) {
        Ok(span) => Ok(span),
        Err(SpanError::Invalid) => Err(first.fault("the segment begins before byte 0")),
        Err(SpanError::Overflow) => {
            Err(first.fault("the segment ends past the greatest offset"))
        }
    }
}

// The offset that the word says.
fn offset_in(word: &LineWord<'_>) -> Result<i64, LineError> {
    match offset_of(word.text) {
        Some(offset) => Ok(offset),
        None => {
            let digits = word.text.strip_prefix('-').unwrap_or(word.text);
            Err(word.fault(unread_number(digits)))
        }
    }
}

// The reason why a word was not read as a number.
fn unread_number(word: &str) -> &'static str {
    if !word.starts_with('0') && word.bytes().all(|byte| byte.is_ascii_digit()) {
        "the number is past its limit"
    } else {
        "expected a whole number"
    }
}
