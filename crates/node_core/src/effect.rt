//! The effect of a step: its change, a reply, and messages.
//!
//! Each function here that can fail errs with `AllocError`, where a request for memory was refused.
ghost use Rattle.std.specs.Prelude.{◌≡◌, Some, None, [], ◌∷◌, IfOk};
ghost use Rattle.node_core.specs.code.Plans.{TellsOf};

use crate::change::NodeChange;
use crate::node_edit::NodeEdit;
use messages::{Message, Outcome, Sends};
use model::{CallId, Reply};
use std::alloc::{AllocError, Global};

/// The effect of a step: what it changes, in a box, because many calls hand it up by value; at most one reply; and
/// messages in their order.
#[derive(Drop)]
pub struct Effect {
    pub edit: Box<NodeEdit>,
    pub reply: Option<(CallId, Reply)>,
    pub sends: Sends,
}

impl Effect {
    /// The effect without a reply and without messages.
    pub fn quiet(edit: Box<NodeEdit>) -> Effect
        ensures { result ≡ record { edit = edit; reply = None; sends = [] } }
    {
        Effect {
            edit,
            reply: None,
            sends: Sends::nothing(),
        }
    }

    /// The effect of sending one message, without a reply.
    pub fn sent(alloc: Global, edit: Box<NodeEdit>, message: Message) -> Result<Effect, AllocError>
        ensures { IfOk result (λ effect. effect ≡ record { edit = edit; reply = None; sends = message ∷ [] }) }
    {
        Ok(Effect {
            edit,
            reply: None,
            sends: Sends::one(alloc, message)?,
        })
    }

    /// The effect of a reply to a call, without messages.
    pub fn answered(edit: Box<NodeEdit>, call: CallId, reply: Reply) -> Effect
        ensures { result ≡ record { edit = edit; reply = Some (call, reply); sends = [] } }
    {
        Effect {
            edit,
            reply: Some((call, reply)),
            sends: Sends::nothing(),
        }
    }

    /// Puts `first` before the other messages.
    pub fn with_first(self, alloc: Global, first: Message) -> Result<Effect, AllocError>
        ensures { IfOk result (λ effect. effect ≡ record { edit = self.edit; reply = self.reply; sends = first ∷ self.sends }) }
    {
        let mut sends = Sends::one(alloc, first)?;
        sends.append(alloc, self.sends)?;
        Ok(Effect {
            edit: self.edit,
            reply: self.reply,
            sends,
        })
    }

    /// Puts `freed` behind the other messages, and adds the file to those for which no Freed is owed
    /// any longer.
    pub fn with_freed_last(
        self,
        alloc: Global,
        file: u16,
        freed: Message,
    ) -> Result<Effect, AllocError>
        ensures { IfOk result (λ effect. TellsOf file freed self effect) }
    {
        let Effect {
            mut edit,
            reply,
            mut sends,
        } = self;
        edit.freed.push(file)?;
        sends.push(alloc, freed)?;
        Ok(Effect { edit, reply, sends })
    }

    /// The change and the outcome of a step, with the name that the call took, if the step is one
    /// of a call.
    pub fn change(self, call: Option<CallId>) -> NodeChange
        ensures { result ≡ record { edit = self.edit; outcome = record { call = call; reply = self.reply; sends = self.sends } } }
    {
        NodeChange {
            edit: self.edit,
            outcome: Outcome {
                call,
                reply: self.reply,
                sends: self.sends,
            },
        }
    }
}
