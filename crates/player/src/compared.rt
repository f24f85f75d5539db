//! Whether a run of a script comes to what the script expects.
ghost use Rattle.std.specs.Prelude.{◌≡◌, ◌||◌, option_map, slice_get, string_bytes, IfOk, Some, None, MatchOption};
ghost use Rattle.player.specs.rule.Expectations.{breaks_in_run, IsCompared, expected, is_broken_at, begins, is_broken, words_in, words_of, behind, split_feed};

use crate::answers::{LineAnswer, push_answer, run_answers};
use lockscript::{Operation, RefusedLine, ScriptCommand, ScriptLine, split_line};
use messages::Entry;
use std::alloc::{AllocError, Global};
use std::fmt::Write;
use texts::text::{Text, after};

/// What a run of the script that the text writes, in which these lines were refused and which has these entries, comes
/// to otherwise than the text expects: a line for each call whose reply begins with other words, as
/// `  line 7: 1 1 set 0 proc write 0 10 -> again, expected done`; none where nothing does.
///
/// # Errors
/// `AllocError` where a request for memory was refused.
pub fn compared(
    alloc: Global,
    text: &str,
    lines: &[ScriptLine],
    refused: &[RefusedLine],
    entries: &[Entry],
) -> Result<Option<String>, AllocError>
    ensures { IfOk result (λ told. IsCompared (breaks_in_run text.now lines.now refused.now entries.now) (option_map (λ t. string_bytes t) told)) }
{
    let answers = run_answers(alloc, lines, refused, entries)?;
    let mut reader = ScriptReader::new(text);
    let mut told = String::new(alloc);
    let mut breaks = false;
    let mut index = 0usize;
    for line in lines {
        let answer = answer_at(answers.as_slice(), index);
        let is_broken = push_broken(&mut told, alloc, &mut reader, line, answer)?;
        breaks = is_either(breaks, is_broken);
        index += 1;
    }
    if breaks { Ok(Some(told)) } else { Ok(None) }
}

// The answer at the index, if there is one.
fn answer_at(answers: &[LineAnswer], index: usize) -> Option<&LineAnswer>
    ensures { option_map (λ a. a.now) result ≡ slice_get answers.now index }
{
    answers.get(index)
}

fn is_either(one: bool, other: bool) -> bool
    ensures { result ≡ (one || other) }
{
    one || other
}

// Writes a line for the line of a script whose answer begins otherwise than the reader's text expects. Answers whether it does.
fn push_broken(
    out: &mut String,
    alloc: Global,
    reader: &mut ScriptReader<'_>,
    line: &ScriptLine,
    answer: Option<&LineAnswer>,
) -> Result<bool, AllocError>
    ensures same { reader.new.text.now ≡ reader.old.text.now }
    ensures broken { IfOk result (λ broken. broken ≡ is_broken_at (expected reader.old.text.now line.now) (option_map (λ a. a.now) answer.entry)) }
{
    let words = expected(reader, line);
    let Some(answer) = answer else {
        return Ok(false);
    };
    if !is_broken(alloc, words, answer)? {
        return Ok(false);
    }
    push_answered(out, line, answer)?;
    let wanted = words.unwrap_or("");
    writeln!(out, ", expected {wanted}")?;
    Ok(true)
}

// Writes the line of a call with its answer, without its end.
fn push_answered(
    out: &mut String,
    line: &ScriptLine,
    answer: &LineAnswer,
) -> Result<(), AllocError> {
    let number = line.number();
    write!(out, "  line {number}: ")?;
    if let ScriptCommand::Call { node, pid, op } = line.command() {
        write!(out, "{node} {pid} ")?;
        Operation::write(&op, out)?;
    }
    out.push_str(" -> ")?;
    push_answer(out, answer)
}

/// How a line begins that says what is expected.
const EXPECT: &str = "# expect ";

/// What is expected of a line of a script: the words behind `# expect `, where that begins the next line of the
/// reader's text behind a call.
pub(crate) fn expected<'a>(reader: &mut ScriptReader<'a>, line: &ScriptLine) -> Option<&'a str>
    ensures same { reader.new.text.now ≡ reader.old.text.now }
    ensures words { option_map (λ words. words.now) result ≡ expected reader.old.text.now line.now }
{
    match line.command() {
        ScriptCommand::Call { .. } => match reader.pass(line.number()) {
            Some(rest) => words_in(rest),
            None => None,
        },
        _ => None,
    }
}

// The words of the first line, where it says what is expected.
fn words_in<'a>(rest: &'a str) -> Option<&'a str>
    ensures { option_map (λ words. words.now) result ≡ words_in (Some rest.entry.now) }
{
    match split_feed(rest) {
        Some((line, _)) => words_of(line),
        None => None,
    }
}

// The words of a line that says what is expected.
fn words_of<'a>(line: &'a str) -> Option<&'a str>
    ensures { option_map (λ words. words.now) result ≡ words_of line.entry.now }
{
    after(line, EXPECT)
}

/// Whether the text of the answer begins otherwise than is expected.
///
/// # Errors
/// `AllocError` where a request for memory was refused.
pub(crate) fn is_broken(
    alloc: Global,
    words: Option<&str>,
    answer: &LineAnswer,
) -> Result<bool, AllocError>
    ensures { IfOk result (λ broken. broken ≡ is_broken (option_map (λ w. w.now) words.entry) answer.now) }
{
    let Some(words) = words else {
        return Ok(false);
    };
    let mut told = String::new(alloc);
    push_answer(&mut told, answer)?;
    Ok(!begins(words, told.as_str()))
}

// Whether a text begins with these words.
fn begins(words: &str, text: &str) -> bool
    ensures { result ≡ begins words.now text.now }
{
    text.starts_with(words)
}

/// A text, and what stands behind as many of its lines as were passed last.
#[derive(Drop)]
pub(crate) struct ScriptReader<'a> {
    pub(crate) text: &'a str,
    rest: &'a str,
    passed: u32,
    ghost stands: { behind passed (Some text.now) ≡ Some rest.now },
}

impl<'a> ScriptReader<'a> {
    /// At the beginning of the text.
    pub(crate) fn new(text: &'a str) -> ScriptReader<'a>
        ensures { result.text.now ≡ text.entry.now }
    {
        ScriptReader {
            text,
            rest: text,
            passed: 0,
        }
    }

    /// Passes so many lines, from the text's beginning, if it has as many: what stands behind them. It goes on
    /// from where it is, so lines in their order take one walk over the text.
    pub(crate) fn pass(&mut self, count: u32) -> Option<&'a str>
        ensures same { self.new.text.now ≡ self.old.text.now }
        ensures behind { MatchOption result (behind count (Some self.old.text.now) ≡ None) (λ rest. behind count (Some self.old.text.now) ≡ Some rest.now) }
    {
        let rest = self.rest_behind(count)?;
        self.rest = rest;
        self.passed = count;
        Some(rest)
    }

    // What stands behind so many lines.
    fn rest_behind(&self, count: u32) -> Option<&'a str>
        ensures { MatchOption result (behind count (Some self.now.text.now) ≡ None) (λ rest. behind count (Some self.now.text.now) ≡ Some rest.now) }
    {
        if count < self.passed {
            return behind(self.text, count);
        }
        behind(self.rest, count - self.passed)
    }
}

// What stands behind so many lines of a text.
fn behind(text: &str, count: u32) -> Option<&str>
    ensures { MatchOption result (behind count (Some text.now) ≡ None) (λ rest. behind count (Some text.now) ≡ Some rest.now) }
{
    let mut rest = text;
    let mut left = count;
    while left > 0 {
        match split_feed(rest) {
            Some((_, next)) => rest = next,
            None => return None,
        }
        left -= 1;
    }
    Some(rest)
}

/// The first line of a text, and what stands behind its line feed.
pub(crate) fn split_feed(text: &str) -> Option<(&str, &str)>
    ensures { MatchOption result (split_feed text.now ≡ None) (λ parts. split_feed text.now ≡ Some (parts.0.now, parts.1.now)) }
{
    split_line(text)
}
