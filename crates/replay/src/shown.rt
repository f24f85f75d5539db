//! What is shown of a command that is done.
ghost use Rattle.std.specs.Prelude.{◌≡◌, OnErr, OnOk};
ghost use Rattle.std.specs.Io.KnownBytes.{Appends};
ghost use Rattle.replay.specs.rule.Stores.{AppendsPart, Writes, TellsBeside, shown_status, shown_text};

use crate::output::{Output, WriteFailed, put_line};
use itoa::Buffer;

/// What is shown of a command that is done.
#[derive(Drop)]
pub enum Shown {
    /// A text, as a listing.
    Text(String),
    /// A text, where something is wanting: a receipt in the journal of a run on threads, an entry of a journal, or an order
    /// that explains a history.
    Wanting(String),
    /// A text, and what is told of what is not as it was to be: of a run on threads that was ended as stuck, a line for each
    /// call that is open then; of a run that is compared, one for each reply that begins otherwise than expected; of one whose
    /// rounds were cut off, by what.
    Partial { text: String, told: String },
    /// A text that says that what was asked is not known, as of histories that were judged.
    Undecided(String),
    /// A text of a run on threads that was ended, though of a call that is open then it is not known that it could not be
    /// answered. A line beside it says so.
    CutShort(String),
    /// `audit yes`: the entries of the journal are a run.
    Yes,
    /// `audit no K`: the entry at this position, from 1, is the first that is not the next step.
    No(u32),
}

impl Shown {
    /// The exit status: 1 where a journal is none of a run, or something is wanting; 5 where it is not known; else 0.
    pub fn status(&self) -> u8
        ensures { result ≡ shown_status self.now }
    {
        match self {
            Shown::Text(_) | Shown::Yes => 0,
            Shown::Wanting(_) | Shown::Partial { .. } | Shown::No(_) => 1,
            Shown::Undecided(_) | Shown::CutShort(_) => 5,
        }
    }

    /// Writes all of it, and sends it on.
    ///
    /// # Errors
    /// Where the writer fails, which took a beginning of it.
    pub fn show<O: Output>(&self, out: &mut O) -> Result<(), WriteFailed>
        ensures shown { OnOk result (Appends (O.taken out.old) (O.taken out.new) (shown_text self.now)) }
        ensures flushed { OnOk result (O.is_flushed out.new) }
        ensures part { OnErr result (AppendsPart (O.taken out.old) (O.taken out.new) (shown_text self.now) × O.has_failed out.new) }
    {
        self.write(out)?;
        out.finish()
    }

    /// Tells of what is not as it was to be, if anything is. What can't be written is lost.
    pub(crate) fn tell<E: Output>(&self, err: &mut E)
        ensures { TellsBeside E.taken E.has_failed err.old err.new self.now }
    {
        match self {
            Shown::Partial { told, .. } => {
                let _ = err.put(told.as_bytes());
            }
            Shown::CutShort(_) => {
                let _ = put_line(err, "not known: a call could still be answered", "");
            }
            Shown::Text(_) | Shown::Wanting(_) | Shown::Undecided(_) | Shown::Yes | Shown::No(_) =>
                {}
        }
    }

    fn write<O: Output>(&self, out: &mut O) -> Result<(), WriteFailed>
        ensures { Writes (O.taken out.old) (O.taken out.new) (O.has_failed out.new) (shown_text self.now) result }
    {
        match self {
            Shown::Text(text)
            | Shown::Wanting(text)
            | Shown::Undecided(text)
            | Shown::CutShort(text) => out.put(text.as_bytes()),
            Shown::Partial { text, .. } => out.put(text.as_bytes()),
            Shown::Yes => put_line(out, "audit yes", ""),
            Shown::No(position) => put_line(out, "audit no ", Buffer::new().format(*position)),
        }
    }
}
