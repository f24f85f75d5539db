//! The outcomes of steps: the name of a call, a reply, and messages.
ghost use Rattle.std.specs.Prelude.{◌≡◌};
ghost use Rattle.messages.specs.rule.Messages.{sending};

use crate::sends::Sends;
use model::{CallId, Reply};

/// The outcome of a step of an actor: the name of the call, if the event is one; at most one reply
/// to a call; and messages, in the order in which the rules name them.
#[derive(Drop)]
pub struct Outcome {
    pub call: Option<CallId>,
    pub reply: Option<(CallId, Reply)>,
    pub sends: Sends,
}

impl Outcome {
    /// The outcome that sends these messages, names no call and answers none.
    pub fn sending(sends: Sends) -> Outcome
        ensures { result ≡ sending sends }
    {
        Outcome {
            call: None,
            reply: None,
            sends,
        }
    }
}
