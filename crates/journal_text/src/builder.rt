//! Builds the entries of a journal from its lines.
//!
//! Each function here that can fail errs with `AllocError`, where a request for memory was refused.
ghost use Rattle.std.specs.Prelude.{◌≡◌, [], List, Some, None, IfOk, OnOk};
ghost use Rattle.messages.specs.rule.Entries.{EntryFields, NamesItsIncarnation};
ghost use Rattle.messages.specs.rule.Shapes.{ShapeFields};
ghost use Rattle.journal_text.specs.code.Built.{answered, built, closed, fields, sending};
ghost use Rattle.journal_text.specs.rule.Events.{event_of, incarnation_of};
ghost use Rattle.journal_text.specs.rule.Lines.{IsServedLine};
ghost use Rattle.messages.specs.declared.version.Version.{Version};
ghost use Rattle.journal_text.specs.rule.Readings.{entry_in};

use crate::lines::JournalLine;
use crate::named_entry::NamedEntry;
use crate::sink::Sink;
use message_text::WrittenMessage;
use messages::{Entry, KeptReply, Outcome, Sends};
use model::{CallId, Reply};
use std::alloc::{AllocError, Global};
use std::marker::Model;

/// The open entry, which may have more lines, if there is one. Entries that are complete go to a
/// sink.
#[derive(Drop)]
pub(crate) struct Builder<'a> {
    last: Option<NamedEntry<'a>>,
}

impl<'a> Model for Builder<'a> {
    ghost use Rattle.std.specs.Prelude.{Option};
    ghost use Rattle.journal_text.specs.declared.named_entry.NamedEntry.{NamedEntry};
    ghost use Rattle.journal_text.specs.code.Built.{IsOpen};

    ghost Value = { Option NamedEntry };

    ghost view = { λ b. b.last };

    ghost invariant = { λ b. IsOpen b.last };
}

impl<'a> Builder<'a> {
    /// The builder without an open entry.
    pub(crate) fn new() -> Builder<'a>
        ensures { result ≡ None }
    {
        Builder { last: None }
    }

    /// Takes the next line of the journal. If the line completes the open entry, that goes to the
    /// sink.
    pub(crate) fn take<K: Sink>(
        &mut self,
        alloc: Global,
        line: JournalLine<'a>,
        sink: &mut K,
    ) -> Result<(), AllocError>
        requires { (version : Version) × IsServedLine version line }
        ensures taken { OnOk result ((s : ShapeFields) (es : List EntryFields) → K.took sink.old s es → K.took sink.new s (built (fields es self.old) line.entry).entries) }
        ensures last { OnOk result (self.new ≡ (built (fields [] self.old) line.entry).last) }
    {
        match line {
            JournalLine::Entry { position: _, event } => {
                self.close(alloc, sink)?;
                self.last = Some(NamedEntry {
                    event,
                    reply: None,
                    sends: Sends::nothing(),
                });
                Ok(())
            }
            JournalLine::Answer { call, reply } => {
                self.last = answered((call, reply), self.last.take());
                Ok(())
            }
            JournalLine::Send(message) => {
                self.last = sending(alloc, message, self.last.take())?;
                Ok(())
            }
            JournalLine::End { count: _ } => self.close(alloc, sink),
        }
    }

    // Completes the open entry, which goes to the sink.
    fn close<K: Sink>(&mut self, alloc: Global, sink: &mut K) -> Result<(), AllocError>
        ensures taken { OnOk result ((s : ShapeFields) (es : List EntryFields) → K.took sink.old s es → K.took sink.new s (closed es self.old)) }
        ensures last { self.new ≡ None }
    {
        match self.last.take() {
            Some(named) => sink.take(alloc, entry_of(alloc, named)?),
            None => Ok(()),
        }
    }
}

// The open entry with this answer.
fn answered<'a>(answer: (CallId, Reply), named: Option<NamedEntry<'a>>) -> Option<NamedEntry<'a>>
    ensures { result ≡ answered answer named.entry }
{
    let mut entry = named?;
    entry.reply = Some(answer);
    Some(entry)
}

// The open entry with one more message.
fn sending<'a>(
    alloc: Global,
    message: WrittenMessage<'a>,
    named: Option<NamedEntry<'a>>,
) -> Result<Option<NamedEntry<'a>>, AllocError>
    ensures { IfOk result (λ made. made ≡ sending message.entry named.entry) }
{
    let Some(mut entry) = named else {
        return Ok(None);
    };
    entry.sends.push(alloc, message.message(alloc)?)?;
    Ok(Some(entry))
}

/// The complete entry, whose event loses the names in it.
pub fn entry_of(alloc: Global, named: NamedEntry<'_>) -> Result<Entry, AllocError>
    requires { NamesItsIncarnation (event_of named.event) (incarnation_of named.event) }
    ensures { IfOk result (λ entry. entry ≡ entry_in named.entry) }
{
    let event = named.event;
    let incarnation = event.incarnation();
    let outcome = Outcome {
        call: event.call(),
        reply: named.reply,
        sends: named.sends,
    };
    let reply = KeptReply::new(alloc, outcome.reply)?;
    Ok(Entry::at_node(event.event(alloc)?, incarnation, outcome, reply))
}
