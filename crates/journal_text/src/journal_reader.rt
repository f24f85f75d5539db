//! Reads a journal line by line.
ghost use Rattle.std.specs.Prelude.{◌≡◌, ◌+◌, ◌<◌, ◌^◌, [], true, false, length, IfErr, IfOk, MatchOption};
ghost use Rattle.messages.specs.rule.Shapes.{IsShape};
ghost use Rattle.texts.specs.rule.LineFeeds.{line_feeds, BeginsWithLine};
ghost use Rattle.lockscript.specs.declared.error.ParseError.TheVariants.{BadLine};
ghost use Rattle.journal_text.specs.declared.lines.JournalLine.{JournalLine as Line};
ghost use Rattle.journal_text.specs.declared.journal_place.Phase.TheVariants as phase;
ghost use Rattle.journal_text.specs.rule.Journals.{head_text};
ghost use Rattle.journal_text.specs.code.Places.{IsStuck, StandsNext, start};
ghost use Rattle.journal_text.specs.rule.Readings.{IsBadLine};

use crate::head::head_of;
use crate::journal_place::JournalPlace;
use crate::lines::{JournalLine, line_of};
use lockscript::{ParseError, split_line};
use messages::{Shape, Version};

/// The rest of a journal, the number of its lines that were read, and the place behind these lines.
#[derive(Drop)]
pub(crate) struct JournalReader<'a> {
    rest: &'a str,
    taken: u64,
    place: JournalPlace,
    ghost countable: { taken + length rest.now < 2 ^ 63 },
}

impl<'a> JournalReader<'a> {
    /// The reader before the first line.
    pub(crate) fn new(text: &'a str) -> JournalReader<'a>
        ensures rest { result.rest.now ≡ text.entry.now }
        ensures place { result.place ≡ start }
    {
        JournalReader {
            rest: text,
            taken: 0,
            place: JournalPlace::start(),
        }
    }

    /// Reads the first line, and gives the shape that it names.
    ///
    /// # Errors
    /// `BadLine` with 1, if the first line names no shape.
    pub(crate) fn first_line(&mut self) -> Result<Shape, ParseError>
        ensures begins { IfOk result (λ shape. BeginsWithLine self.old.rest.now (head_text shape) self.new.rest.now × (self.new.taken ≡ 1) × IsShape shape) }
        ensures place { self.new.place ≡ self.old.place }
        ensures bad { IfErr result (IsBadLine self.old.rest.now) }
    {
        let (line, rest) = split_line(self.rest).ok_or(ParseError::BadLine(1))?;
        let shape = head_of(line).ok_or(ParseError::BadLine(1))?;
        self.rest = rest;
        self.taken = 1;
        Ok(shape)
    }

    /// The number of entries that began so far.
    pub(crate) fn count(&self) -> u32
        ensures { result ≡ self.now.place.count }
    {
        self.place.count
    }

    /// The next line of a journal of this version, or `None` behind the last one.
    ///
    /// # Errors
    /// `BadLine` with the number of the next line, if that is missing, has no line feed or may not
    /// stand there.
    pub(crate) fn next_line(
        &mut self,
        version: Version,
    ) -> Result<Option<JournalLine<'a>>, ParseError>
        ensures line { IfOk result (λ found. MatchOption found
            ((self.new.rest.now ≡ []) × (self.new.place.phase ≡ phase.Ended) × (self.new.rest.now ≡ self.old.rest.now) × (self.new.place ≡ self.old.place))
            (λ line. StandsNext version self.old.place self.old.rest.now line self.new.place self.new.rest.now × (self.new.taken ≡ self.old.taken + 1))) }
        ensures stuck { IfErr result (λ error. (error ≡ BadLine (self.old.taken + 1)) × IsStuck version self.old.place self.old.rest.now) }
    {
        let bad = ParseError::BadLine(self.taken + 1);
        match split_line(self.rest) {
            Some((text, rest)) => {
                let line = line_of(version, text).ok_or(bad)?;
                self.place = self.place.behind(&line).ok_or(bad)?;
                self.rest = rest;
                self.taken += 1;
                Ok(Some(line))
            }
            None => {
                if self.rest.is_empty() && self.place.is_end() {
                    return Ok(None);
                }
                Err(bad)
            }
        }
    }

    /// Passes over the next line; the result is whether there was one.
    ///
    /// # Errors
    /// `BadLine`, as for `next_line`.
    pub(crate) fn pass_line(&mut self, version: Version) -> Result<bool, ParseError>
        ensures passed { IfOk result (λ more. more ≡ true → (line : Line) × StandsNext version self.old.place self.old.rest.now line self.new.place self.new.rest.now × (self.new.taken ≡ self.old.taken + 1)) }
        ensures ended { IfOk result (λ more. more ≡ false → (self.new.rest.now ≡ []) × (self.new.place.phase ≡ phase.Ended) × (self.new.rest.now ≡ self.old.rest.now) × (self.new.place ≡ self.old.place)) }
        ensures stuck { IfErr result (λ error. (error ≡ BadLine (self.old.taken + 1)) × IsStuck version self.old.place self.old.rest.now) }
    {
        match self.next_line(version) {
            Ok(Some(_)) => Ok(true),
            Ok(None) => Ok(false),
            Err(error) => Err(error),
        }
    }
}
