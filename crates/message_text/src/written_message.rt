//! Messages as they are read from their texts.
ghost use Rattle.std.specs.Prelude.{◌≡◌, IfOk};
ghost use Rattle.messages.specs.declared.message.Message.TheVariants as message;
ghost use Rattle.message_text.specs.code.Reports.{message_in, IsForm, IsRunsText, runs_in};

use crate::reports::read_runs;
use messages::{EpochNumber, FileNumber, Message};
use model::Host;
use std::alloc::{AllocError, Global};
use std::marker::Model;

// The runs of a report stay a text, so that reading it takes no memory.
#[derive(Drop)]
enum WrittenForm<'a> {
    Whole(Message),
    Report {
        file: FileNumber,
        number: EpochNumber,
        holder: Host,
        runs: &'a str,
    },
}

impl WrittenForm<'_> {
    // The message, with the runs of a report read.
    fn message(self, alloc: Global) -> Result<Message, AllocError>
        requires { IsForm self }
        ensures { IfOk result (λ message. message ≡ message_in self.entry) }
    {
        match self {
            WrittenForm::Whole(message) => Ok(message),
            WrittenForm::Report {
                file,
                number,
                holder,
                runs,
            } => Ok(Message::Report {
                file,
                number,
                holder,
                runs: read_runs(alloc, runs)?,
            }),
        }
    }
}

/// A message that was read from its text. Of a report, the runs may still be a text.
#[derive(Drop)]
pub struct WrittenMessage<'a> {
    form: WrittenForm<'a>,
}

impl<'a> Model for WrittenMessage<'a> {
    ghost use Rattle.messages.specs.declared.message.Message.{Message};
    ghost use Rattle.message_text.specs.code.Reports.{message_in, IsForm};

    ghost Value = { Message };

    ghost view = { λ m. message_in m.form };

    ghost invariant = { λ m. IsForm m.form };
}

impl<'a> WrittenMessage<'a> {
    /// A message that is read completely.
    pub(crate) fn whole(message: Message) -> WrittenMessage<'a>
        ensures { result ≡ message }
    {
        WrittenMessage {
            form: WrittenForm::Whole(message),
        }
    }

    /// A report whose runs are still a text.
    pub(crate) fn report(
        file: FileNumber,
        number: EpochNumber,
        holder: Host,
        runs: &'a str,
    ) -> WrittenMessage<'a>
        requires { IsRunsText runs.now }
        ensures { result ≡ message.Report file number holder (runs_in runs.entry.now) }
    {
        WrittenMessage {
            form: WrittenForm::Report {
                file,
                number,
                holder,
                runs,
            },
        }
    }

    /// The message, with the runs of a report read.
    ///
    /// # Errors
    /// `AllocError` where a request for memory was refused; only the runs of a report need any.
    pub fn message(self, alloc: Global) -> Result<Message, AllocError>
        ensures { IfOk result (λ message. message ≡ self.entry) }
    {
        self.form.message(alloc)
    }
}
