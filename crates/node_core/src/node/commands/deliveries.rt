//! The messages that a node takes.
ghost use Rattle.std.specs.Prelude.{◌≡◌, ◌≢◌, ◌==◌, true, false, Ok, Err, IfOk, IfErr};
ghost use Rattle.messages.specs.rule.Messages.{is_within, host_of, file_of};
ghost use Rattle.node_core.specs.rule.Commands.{delivered, deliver_rule};
ghost use Rattle.node_core.specs.rule.State.{host};
ghost use Rattle.node_core.specs.rule.Parts.{node_state, is_for};
ghost use Rattle.node_core.specs.code.Plans.{planned, effect_of, PartsFit};

use super::super::Node;
use crate::change::NodeChange;
use crate::effect::Effect;
use crate::node_edit::NodeEdit;
use crate::numbers::{is_node, is_within};
use crate::token_command::TokenCommand;
use messages::{Message, StepError};
use std::alloc::{AllocError, Global};

impl Node {
    // Whether the message is for this node, and about a file of the shape.
    #[tactic(auto, unfolding(crate::specs::rule::Parts::node_state))]
    fn is_for_me(&self, message: &Message) -> bool
        ensures { result ≡ is_for (node_state self.now) message.now }
    {
        if !is_node(self.node, message.addressee()) {
            return false;
        }
        is_within(self.shape.files(), message.file())
    }

    // Whether the message is for this incarnation of the node.
    #[tactic(auto, unfolding(crate::specs::rule::Parts::node_state))]
    fn is_for_now(&self, message: &Message) -> bool
        ensures { result ≡ ((host_of message.now).incarnation == (node_state self.now).incarnation) }
    {
        message.host().incarnation == self.incarnation
    }

    // Takes a message that is for this node in this incarnation.
    fn deliver(&self, alloc: Global, message: &Message) -> Result<Effect, AllocError>
        requires { is_within (node_state self.now).shape.files (file_of message.now) ≡ true }
        ensures value { IfOk result (λ effect. delivered (node_state self.now) message.now ≡ effect_of self.now effect) }
        ensures fits { IfOk result (λ effect. PartsFit self.now effect.edit) }
    {
        match message {
            Message::Grant {
                file,
                number,
                call,
                mode,
                span,
            } => self.grant(
                alloc,
                &TokenCommand::new(*file, *number, *call, *mode),
                *span,
            ),
            Message::Revoke {
                file,
                number,
                call,
                mode,
                wanted,
                ..
            } => self.revoke(
                alloc,
                &TokenCommand::new(*file, *number, *call, *mode),
                *wanted,
            ),
            Message::Hello { file, number, .. } => self.tell(alloc, *file, *number),
            Message::Deny { call, lock, .. } => {
                let waiting = self.open_call(call.number);
                self.deny(alloc, waiting, *lock)
            }
            _ => Ok(Effect::quiet(NodeEdit::none(alloc)?)),
        }
    }

    // Plans the step of a message. A message for another incarnation of the node does nothing.
    pub(crate) fn plan_message(
        &self,
        alloc: Global,
        message: &Message,
    ) -> Result<NodeChange, StepError>
        ensures ok { IfOk result (λ change. deliver_rule (node_state self.now) message.now ≡ Ok (planned self.now change.edit, change.outcome)) }
        ensures err { IfErr result (λ error. error ≢ StepError.NoMemory → deliver_rule (node_state self.now) message.now ≡ Err error) }
        ensures refused { (r : StepError) → deliver_rule (node_state self.now) message.now ≡ Err r → result ≡ Err r }
        ensures fits { IfOk result (λ change. PartsFit self.now change.edit) }
    {
        if !self.is_for_me(message) {
            return Err(StepError::Stranger);
        }
        if !self.is_for_now(message) {
            return Ok(Effect::quiet(NodeEdit::none(alloc)?).change(None));
        }
        let effect = self.deliver(alloc, message)?;
        Ok(effect.change(None))
    }
}
