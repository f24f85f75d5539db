//! Reads the lines of journals from their texts.
ghost use Rattle.std.specs.Prelude.{◌++◌, codes};
ghost use Rattle.texts.specs.rule.Reads.{Reads};
ghost use Rattle.journal_text.specs.rule.Lines.{IsServedLine, line_text};

use crate::events::event_in;
use crate::named_event::NamedEvent;
use crate::operands::AnswerFields;
use message_text::{
    CountField, Counted, Edition, FirstEdition, SecondEdition, WrittenMessage, message_in,
};
use messages::Version;
use model::{CallId, Reply};
use texts::text::{Text, split_field};

/// A line of a journal behind the first one.
#[derive(Drop)]
pub enum JournalLine<'a> {
    /// An entry begins, with its position and its event.
    Entry {
        position: u32,
        event: NamedEvent<'a>,
    },
    /// The open entry answers a call.
    Answer {
        call: CallId,
        reply: Reply,
    },
    /// The open entry sends a message.
    Send(WrittenMessage<'a>),
    /// The journal ends, with the number of its entries.
    End {
        count: u32,
    },
}

/// The line behind the first one, in a journal of this version, whose text this is.
pub fn line_of(version: Version, line: &str) -> Option<JournalLine<'_>>
    ensures { Reads (line_text version) (IsServedLine version) line.now result }
{
    match version {
        Version::First => line_in::<FirstEdition>(line),
        Version::Second => line_in::<SecondEdition>(line),
    }
}

// The line behind the first one, in a journal of the version of `V`, whose text this is.
fn line_in<V: Edition>(line: &str) -> Option<JournalLine<'_>>
    ensures { Reads (line_text V.version) (IsServedLine V.version) line.now result }
{
    let (word, operands) = split_field(line)?;
    match word {
        "entry" => entry_line::<V>(operands),
        "reply" => AnswerFields::read(operands).map(|(call, reply)| JournalLine::Answer {
            call,
            reply,
        }),
        "send" => message_in::<V>(operands).map(|message| JournalLine::Send(message)),
        "end" => CountField::read(operands).map(|count| JournalLine::End { count }),
        _ => None,
    }
}

// The line `entry POS EVENT` whose text behind the word this is.
fn entry_line<V: Edition>(text: &str) -> Option<JournalLine<'_>>
    ensures { Reads (line_text V.version) (IsServedLine V.version) (codes "entry " ++ text.now) result }
{
    let (word, rest) = split_field(text)?;
    let position = Counted::read(word)?;
    let event = event_in::<V>(rest)?;
    Some(JournalLine::Entry { position, event })
}
