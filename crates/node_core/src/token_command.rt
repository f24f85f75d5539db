//! The commands of token servers, a grant or a revoke, by what both have.
ghost use Rattle.std.specs.Prelude.{◌≡◌};
ghost use Rattle.messages.specs.declared.message.Message.TheVariants.{Taken};
ghost use Rattle.node_core.specs.rule.Answers.{message_of};
ghost use Rattle.node_core.specs.rule.Commands.{answer_to};

use crate::answer::{Answer, AnswerBody};
use messages::{CommandNumber, FileNumber};
use model::{CallId, Host, Mode};
use token_set::gave_up::GaveUp;

/// What a grant and a revoke both have: the file, the number of the command, the call that needs
/// the token, and its mode.
#[derive(Clone, Copy, Debug, PartialEq, Eq)]
pub struct TokenCommand {
    pub file: FileNumber,
    pub number: CommandNumber,
    pub call: CallId,
    pub mode: Mode,
}

impl TokenCommand {
    pub(crate) fn new(
        file: FileNumber,
        number: CommandNumber,
        call: CallId,
        mode: Mode,
    ) -> TokenCommand
        ensures { result ≡ record { file = file; number = number; call = call; mode = mode } }
    {
        TokenCommand {
            file,
            number,
            call,
            mode,
        }
    }

    /// The answer to the command, if it is a grant.
    pub fn taken(&self) -> Answer
        ensures { message_of result ≡ Taken self.now.file self.now.number self.now.call }
    {
        Answer {
            file: self.file,
            number: self.number,
            call: self.call,
            body: AnswerBody::Taken,
        }
    }

    /// The answer of the holder to the command, if it is a revoke: the span that was given up, or
    /// the lock in the way.
    pub fn answer(&self, holder: Host, gives: GaveUp) -> Answer
        ensures { message_of result ≡ answer_to self.now.file self.now.number holder self.now.call gives }
    {
        Answer {
            file: self.file,
            number: self.number,
            call: self.call,
            body: AnswerBody::GaveUp(holder, gives),
        }
    }
}
