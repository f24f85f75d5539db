//! When a token server sends again.
ghost use Rattle.std.specs.Prelude.{◌≡◌};
ghost use Rattle.messages.specs.rule.Distances.{at_rest, begun, is_answer, is_due_at, noted, passed};

use crate::event::Event;
use crate::message::Message;
use crate::patience::Patience;

/// When a token server sends again what has no answer: it rests, or it waits so long.
#[derive(Clone, Copy, Debug, PartialEq, Eq)]
pub struct Pace {
    pub rests: bool,
    pub patience: Patience,
}

impl Pace {
    /// The server rests: it has nothing to send again.
    pub fn at_rest() -> Pace
        ensures { result ≡ at_rest }
    {
        Pace {
            rests: true,
            patience: Patience::new(),
        }
    }

    /// The server begins to wait.
    pub fn begun() -> Pace
        ensures { result ≡ begun }
    {
        Pace {
            rests: false,
            patience: Patience::new(),
        }
    }

    /// The pace after a step of the server at this event: it goes on to wait, or begins to where it rested, or where the event
    /// is an answer of a node.
    pub fn noted(self, event: &Event) -> Pace
        ensures { result ≡ noted self event.now }
    {
        if self.rests || is_answer(event) {
            return Pace::begun();
        }
        self
    }

    /// Whether the next tick brings a resend.
    pub fn is_due(self) -> bool
        ensures { result ≡ is_due_at self }
    {
        !self.rests && self.patience.is_due()
    }

    /// The pace after a tick.
    pub fn passed(self) -> Pace
        ensures { result ≡ passed self }
    {
        Pace {
            rests: self.rests,
            patience: self.patience.after_tick(),
        }
    }
}

// Whether the event delivers a node's answer to a command.
fn is_answer(event: &Event) -> bool
    ensures { result ≡ is_answer event.now }
{
    match event {
        Event::Deliver(message) => matches!(
            message.get(),
            Message::Taken { .. }
                | Message::Released { .. }
                | Message::Conflict { .. }
                | Message::Report { .. }
        ),
        _ => false,
    }
}
