//! The lines of a text, with their numbers.
ghost use Rattle.std.specs.Prelude.{◌≡◌, ◌≢◌, ◌+◌, ◌<◌, ◌^◌, [], length, IfOk, IfErr, OnErr, MatchOption, IfSome};
ghost use Rattle.lockscript.specs.declared.error.ParseError.TheVariants.{BadLine};
ghost use Rattle.texts.specs.rule.LineFeeds.{line_feeds, is_skipped, BeginsWithLine, FindsLine, PassesLines};

use crate::error::ParseError;
use texts::text::split_at_first;

/// A line without its line feed, and its number, from 1.
#[derive(Clone, Copy)]
pub(crate) struct NumberedLine<'a> {
    pub(crate) number: u64,
    pub(crate) text: &'a str,
}

/// The rest of a text, and the number of its lines that were taken so far.
#[derive(Drop)]
pub(crate) struct Lines<'a> {
    rest: &'a str,
    taken: u64,
    ghost countable: { taken + length rest.now < 2 ^ 63 },
}

impl<'a> Lines<'a> {
    pub(crate) fn new(text: &'a str) -> Lines<'a>
        ensures rest { result.rest.now ≡ text.entry.now }
        ensures taken { result.taken ≡ 0 }
    {
        Lines {
            rest: text,
            taken: 0,
        }
    }

    /// The number of the next line, from 1.
    pub(crate) fn next_number(&self) -> u64
        ensures { result ≡ self.now.taken + 1 }
    {
        self.taken + 1
    }

    /// The next line, or `None` at the end of the text.
    ///
    /// # Errors
    /// `BadLine` with the number of the next line, if the rest of the text has no line feed.
    pub(crate) fn next_line(&mut self) -> Result<Option<NumberedLine<'a>>, ParseError>
        ensures line { IfOk result (λ found. MatchOption found
            ((self.old.rest.now ≡ []) × (self.new.rest.now ≡ self.old.rest.now) × (self.new.taken ≡ self.old.taken))
            (λ line. BeginsWithLine self.old.rest.now line.text.now self.new.rest.now
            × (line.number ≡ self.old.taken + 1) × (self.new.taken ≡ line.number))) }
        ensures unfinished { IfErr result (λ error. (error ≡ BadLine (self.new.taken + 1)) × (self.new.rest.now ≢ []) × (line_feeds self.new.rest.now ≡ 0)) }
        ensures err { OnErr result ((self.new.rest.now ≡ self.old.rest.now) × (self.new.taken ≡ self.old.taken)) }
    {
        if self.rest.is_empty() {
            return Ok(None);
        }
        let number = self.next_number();
        let (text, rest) = split_line(self.rest).ok_or(ParseError::BadLine(number))?;
        self.rest = rest;
        self.taken = number;
        Ok(Some(NumberedLine { number, text }))
    }

    /// The next line that isn't skipped: one that isn't empty and doesn't begin with `#`.
    ///
    /// # Errors
    /// `BadLine` with the number of the last line, if that has no line feed.
    pub(crate) fn next_command(&mut self) -> Result<Option<NumberedLine<'a>>, ParseError>
        ensures line { IfOk result (λ found. MatchOption found
            ((self.new.rest.now ≡ []) × PassesLines self.old.rest.now self.old.taken [] [] self.new.taken)
            (λ line. (line.number ≡ self.new.taken) × FindsLine self.old.rest.now self.old.taken line.number line.text.now self.new.rest.now)) }
        ensures shorter { IfOk result (λ found. IfSome found (λ line. length self.new.rest.now < length self.old.rest.now)) }
        ensures unfinished { IfErr result (λ error. (error ≡ BadLine (self.new.taken + 1))
            × PassesLines self.old.rest.now self.old.taken [] self.new.rest.now self.new.taken
            × (self.new.rest.now ≢ []) × (line_feeds self.new.rest.now ≡ 0)) }
    {
        while let Some(line) = self.next_line()? {
            if !is_skipped(line.text) {
                return Ok(Some(line));
            }
        }
        Ok(None)
    }
}

/// Whether the line is skipped: it is empty, or a comment.
pub fn is_skipped(line: &str) -> bool
    ensures { result ≡ is_skipped line.now }
{
    line.is_empty() || line.starts_with('#')
}

/// The first line of a text, and the text behind its line feed; `None` if the text has no line
/// feed.
pub fn split_line(text: &str) -> Option<(&str, &str)>
    ensures { MatchOption result (line_feeds text.now ≡ 0) (λ parts. BeginsWithLine text.now parts.0.now parts.1.now) }
{
    split_at_first(text, b'\n')
}
