//! What is printed of a history that was judged, in lines and as JSON: one walk writes both. A function here that
//! gives a `Result` answers `AllocError` where a request for memory was refused.
use crate::{
    Before, Json, Judged, JudgementOutcome, Judging, LineCounts, Misfit, WrittenHistory, got_by,
    words_of,
};
use intervals::span::{GREATEST, Span};
use model::LockInfo;
use std::alloc::{AllocError, Global};
use std::fmt::Write;
use texts::words::Named;

// The greatest number of a table's locks that are listed in lines, and of open calls.
const MOST_TOLD: usize = 20;

/// What is printed of a history, as far as it is written: the text of its file, how it was judged, and both forms.
#[derive(Drop)]
pub(crate) struct Page<'a> {
    alloc: Global,
    text: &'a str,
    history: &'a WrittenHistory,
    judging: Judging,
    lines: String,
    json: Json,
}

impl<'a> Page<'a> {
    /// The beginning for the history of the file at this path, which has this text.
    pub(crate) fn new(
        alloc: Global,
        path: &str,
        text: &'a str,
        history: &'a WrittenHistory,
        judging: Judging,
    ) -> Result<Page<'a>, AllocError> {
        let mut json = Json::new(alloc);
        json.open("{")?;
        json.word("history", path)?;
        Ok(Page {
            alloc,
            text,
            history,
            judging,
            lines: String::new(alloc),
            json,
        })
    }

    /// Adds the outcome of a search, and what was found of the calls of each file.
    pub(crate) fn push_judged(
        &mut self,
        outcome: JudgementOutcome,
        found: &[Judged],
    ) -> Result<(), AllocError> {
        let word = outcome.word();
        write!(&mut self.lines, "history {word}")?;
        self.push_allowed()?;
        self.json.word("verdict", word)?;
        self.json.key("files", "[")?;
        for (file, found) in found.iter().enumerate() {
            self.push_found(outcome, file, found)?;
        }
        self.json.close("]")
    }

    /// Adds whether given orders explain the files: the first file whose order doesn't is named.
    pub(crate) fn push_ordered(&mut self, unexplained: Option<usize>) -> Result<(), AllocError> {
        match unexplained {
            Some(file) => {
                let name = self.history.name_of_file(file);
                writeln!(&mut self.lines, "explains no {name}")?;
                self.json.word("explains", "no")?;
                self.json.word("file", name)
            }
            None => {
                self.lines.push_str("explains yes")?;
                self.push_allowed()?;
                self.json.word("explains", "yes")
            }
        }
    }

    /// Adds the rules that are allowed, and counts, if they are asked for. Gives the form that is asked for.
    pub(crate) fn end(mut self) -> Result<String, AllocError> {
        let rules = self.judging.allowed.words(self.alloc)?;
        if !rules.is_empty() {
            self.json.key("allowed", "[")?;
            for word in &rules {
                self.json.open("")?;
                self.json.string(*word)?;
            }
            self.json.close("]")?;
        }
        if self.judging.stats {
            self.push_stats()?;
        }
        self.json.close("}\n")?;
        let Page {
            judging,
            lines,
            json,
            ..
        } = self;
        if judging.json {
            let Json { text } = json;
            Ok(text)
        } else {
            Ok(lines)
        }
    }

    // Adds the rules that are allowed to the first line, and ends it.
    fn push_allowed(&mut self) -> Result<(), AllocError> {
        let mut front = ", but for ";
        for word in &self.judging.allowed.words(self.alloc)? {
            write!(&mut self.lines, "{front}{word}")?;
            front = ", ";
        }
        self.lines.push_str("\n")
    }

    // Adds what was found of the calls of the file with this index: their order, if it is asked for, or those that fit
    // nowhere, and up to which line an order was found, where that is known.
    fn push_found(
        &mut self,
        outcome: JudgementOutcome,
        file: usize,
        found: &Judged,
    ) -> Result<(), AllocError> {
        let name = self.history.name_of_file(file);
        self.json.open("{")?;
        self.json.word("file", name)?;
        self.json.word("verdict", found.outcome().word())?;
        if found.outcome() != JudgementOutcome::Yes && self.history.files.len() > 1 {
            writeln!(&mut self.lines, "file {name}")?;
        }
        let unknown = match found {
            Judged::Explained { order } => {
                if self.judging.order {
                    self.push_order(outcome, file, order)?;
                }
                None
            }
            Judged::Contradicted { misfits, unknown } => {
                self.json.key("misfits", "[")?;
                for misfit in misfits {
                    self.push_misfit(misfit)?;
                }
                self.json.close("]")?;
                *unknown
            }
            Judged::Unknown { line } => *line,
        };
        if let Some(line) = unknown {
            writeln!(&mut self.lines, "explained up to line {line}")?;
            self.json.number("explained_up_to", line)?;
        }
        self.json.close("}")
    }

    // Adds the order of the calls of the file with this index; to the lines only where all files have one.
    fn push_order(
        &mut self,
        outcome: JudgementOutcome,
        file: usize,
        order: &[usize],
    ) -> Result<(), AllocError> {
        let Some(calls) = self.history.files.get(file) else {
            return Ok(());
        };
        let mut line = String::new(self.alloc);
        self.json.key("order", "[")?;
        for word in &words_of(self.alloc, calls, order)? {
            write!(&mut line, " {word}")?;
            self.json.open("")?;
            if word.bytes().all(|byte| byte.is_ascii_digit()) {
                self.json.close(word)?;
            } else {
                self.json.string(word)?;
            }
        }
        if outcome == JudgementOutcome::Yes {
            let name = self.history.name_of_file(file);
            writeln!(&mut self.lines, "order {name}{line}")?;
        }
        self.json.close("]")
    }

    // Adds the call that fits nowhere, and the tables that there may be before it.
    fn push_misfit(&mut self, misfit: &Misfit) -> Result<(), AllocError> {
        let (line, count) = (misfit.line, misfit.tables.len());
        let words = line_of(self.text, line);
        writeln!(&mut self.lines, "fits nowhere: line {line}: {words}")?;
        writeln!(&mut self.lines, "possible tables before: {count}")?;
        self.json.open("{")?;
        self.json.number("line", line)?;
        self.json.word("call", words)?;
        self.json.key("tables", "[")?;
        for (index, table) in misfit.tables.iter().enumerate() {
            let number = index.saturating_add(1);
            writeln!(&mut self.lines, "table {number}")?;
            self.push_table(table)?;
        }
        self.json.close("]}")
    }

    // Adds the locks of a table, the one of them that blocks the call, and the calls that are open there.
    fn push_table(&mut self, table: &Before) -> Result<(), AllocError> {
        self.json.open("{")?;
        self.json.key("locks", "[")?;
        for (index, lock) in table.locks.iter().enumerate() {
            self.json.open("{")?;
            self.push_lock("", lock, index < MOST_TOLD)?;
        }
        self.push_more("locks", table.locks.len())?;
        match &table.in_way {
            Some(lock) => {
                self.json.key("in_way", "{")?;
                self.push_lock("in the way: ", lock, true)?;
            }
            None => {
                self.json.key("in_way", "null")?;
                self.lines.push_str("  nothing in the way\n")?;
            }
        }
        self.json.key("open", "[")?;
        for (index, line) in table.open.iter().enumerate() {
            self.json.open("")?;
            write!(&mut self.json.text, "{line}")?;
            if index < MOST_TOLD {
                writeln!(&mut self.lines, "  open: line {line}")?;
            }
        }
        self.push_more("open calls", table.open.len())?;
        self.json.close("}")
    }

    // Ends a list; adds to the lines the number of those that are not listed there, if there are any.
    fn push_more(&mut self, what: &str, count: usize) -> Result<(), AllocError> {
        if count > MOST_TOLD {
            let more = count - MOST_TOLD;
            writeln!(&mut self.lines, "  more {what}: {more}")?;
        }
        self.json.close("]")
    }

    // Adds the fields of a lock, and the end of its object, and to the lines, if it is listed there, the lock as
    // histories write it, behind these words.
    fn push_lock(
        &mut self,
        front: &str,
        lock: &LockInfo,
        is_listed: bool,
    ) -> Result<(), AllocError> {
        let (mode, owner) = (
            lock.mode.word(),
            self.history.name_of(&lock.owner).unwrap_or("?"),
        );
        let (start, len) = (lock.span.lo, length_of(lock.span));
        if is_listed {
            writeln!(&mut self.lines, "  {front}{mode} {start} {len} {owner}")?;
        }
        self.json.word("mode", mode)?;
        self.json.number("start", start)?;
        self.json.number("len", len)?;
        self.json.word("owner", owner)?;
        self.json.close("}")
    }

    // Adds the counts, and for each file the number of locks that were got, and of those that another owner observed.
    fn push_stats(&mut self) -> Result<(), AllocError> {
        let history = self.history;
        let LineCounts {
            calls,
            exits,
            silent,
        } = history.counts;
        self.lines.push_str("stats")?;
        self.json.key("stats", "{")?;
        for (name, count) in &[
            ("calls", calls),
            ("exits", exits),
            ("silent", silent),
            ("files", history.files.len() as u64),
            ("owners", history.owners.count() as u64),
            ("machines", history.machines.len() as u64),
        ] {
            write!(&mut self.lines, " {name} {count}")?;
            self.json.number(*name, *count)?;
        }
        self.lines.push_str("\n")?;
        self.json.key("locks", "[")?;
        for file in 0..history.files.len() {
            self.push_got(file)?;
        }
        self.json.close("]}")
    }

    // Adds the counts of the locks that were got in the file with this index.
    fn push_got(&mut self, file: usize) -> Result<(), AllocError> {
        let name = self.history.name_of_file(file);
        let Some(calls) = self.history.files.get(file) else {
            return Ok(());
        };
        let (got, observed) = got_by(self.alloc, &calls.calls)?;
        let never = got.saturating_sub(observed);
        writeln!(
            &mut self.lines,
            "stats of {name} locks {got} observed {observed} never observed {never}"
        )?;
        self.json.open("{")?;
        self.json.word("file", name)?;
        self.json.number("locks", got)?;
        self.json.number("observed", observed)?;
        self.json.number("never_observed", never)?;
        self.json.close("}")
    }
}

// The line of the text with this number, from 1; an empty one where there is none.
fn line_of(text: &str, number: u64) -> &str {
    let mut count = 0u64;
    for line in text.lines() {
        count = count.saturating_add(1);
        if count == number {
            return line;
        }
    }
    ""
}

// The number of the span's bytes, as histories write it: 0 where it goes to the greatest offset.
fn length_of(span: Span) -> u64 {
    if span.hi == GREATEST {
        0
    } else {
        span.hi - span.lo + 1
    }
}
