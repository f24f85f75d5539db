//! The answers to commands of token servers.
ghost use Rattle.std.specs.Prelude.{◌≡◌};
ghost use Rattle.node_core.specs.rule.Answers.{message_of};

use messages::{CommandNumber, FileNumber, Message};
use model::{CallId, Host};
use token_set::gave_up::GaveUp;

/// The part of an answer that depends on the kind of its command.
#[derive(Clone, Copy)]
pub enum AnswerBody {
    /// The answer to a grant: the node has the token.
    Taken,
    /// The answer of a holder to a revoke: it gave up a span, or names a lock in the way.
    GaveUp(Host, GaveUp),
}

/// The answer to a command, which the node remembers until the next one.
#[derive(Clone, Copy)]
pub struct Answer {
    pub file: FileNumber,
    pub number: CommandNumber,
    pub call: CallId,
    pub body: AnswerBody,
}

impl Answer {
    /// The answer as a message. Takes no memory.
    pub fn message(self) -> Message
        ensures { result ≡ message_of self }
    {
        let Answer {
            file,
            number,
            call,
            ..
        } = self;
        match &self.body {
            AnswerBody::Taken => Message::Taken { file, number, call },
            AnswerBody::GaveUp(holder, GaveUp::Released(span)) => Message::Released {
                file,
                number,
                holder: *holder,
                call,
                span: *span,
            },
            AnswerBody::GaveUp(holder, GaveUp::Conflict(lock)) => Message::Conflict {
                file,
                number,
                holder: *holder,
                call,
                lock: *lock,
            },
        }
    }
}
