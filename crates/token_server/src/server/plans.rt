//! The planned steps of a token server.
ghost use Rattle.std.specs.Prelude.{◌≡◌, ◌≢◌, ◌-◌, ◌<◌, ◌||◌, ◌==◌, IfOk, IfErr, Option, Some, None, Ok, Err};
ghost use Rattle.std.specs.Option.{option_to_list};
ghost use Rattle.token_server.specs.rule.Resends.{outstanding, resend_rule};
ghost use Rattle.token_server.specs.rule.Server.{server_rule, learn_rule};
ghost use Rattle.token_server.specs.rule.Parts.{server_state};
ghost use Rattle.token_server.specs.code.Edits.{planned, Fits};

use super::Server;
use crate::change::ServerChange;
use crate::event::ServerEvent;
use crate::known_nodes::known_change::KnownChange;
use crate::sketch::{Moved, Sketch};
use messages::{Message, Sends, ServerInput, StepError};
use std::alloc::{AllocError, Global};

impl Server {
    /// Plans the delivery of the message, as `plan` does.
    ///
    /// # Errors
    /// As `step`.
    pub fn plan_delivery(&self, alloc: Global, message: &Message) -> Result<ServerChange, StepError>
        ensures fits { IfOk result (λ change. Fits self.now change.edit) }
        ensures ok { IfOk result (λ change. server_rule (server_state self.now) (ServerEvent.Deliver message.now) ≡ Ok (planned self.now change.edit, change.outcome)) }
        ensures err { IfErr result (λ e. e ≢ StepError.NoMemory → server_rule (server_state self.now) (ServerEvent.Deliver message.now) ≡ Err e) }
        ensures refused { (r : StepError) → r ≢ StepError.Spent → server_rule (server_state self.now) (ServerEvent.Deliver message.now) ≡ Err r → result ≡ Err r }
    {
        if !self.is_addressed_by(message) {
            return Err(StepError::Stranger);
        }
        let host = message.host();
        if host.incarnation <= self.known_nodes.dead(host.node) {
            return self.no_change(alloc);
        }
        match self.deliver(alloc, message)? {
            Some((sketch, first)) => self.serve_after(&sketch, alloc, in_list(alloc, first)?),
            None => self.no_change(alloc),
        }
    }

    // Plans a Resend: every outstanding command is sent again, the waiting requests are queued again, and then the
    // server serves.
    fn resend(&self, alloc: Global) -> Result<ServerChange, StepError>
        ensures fits { IfOk result (λ change. Fits self.now change.edit) }
        ensures ok { IfOk result (λ change. resend_rule (server_state self.now) ≡ Ok (planned self.now change.edit, change.outcome)) }
        ensures err { IfErr result (λ e. e ≢ StepError.NoMemory → resend_rule (server_state self.now) ≡ Err e) }
        ensures refused { (r : StepError) → resend_rule (server_state self.now) ≡ Err r → r ≡ StepError.Spent }
    {
        let _ = &self.shape; // tells the proof what holds between two steps
        let commands = self.known_nodes.outstanding(alloc)?;
        self.serve_after(&Sketch::moving(Moved::Waiting), alloc, commands)
    }

    // Plans a Learn: the incarnation is known to be dead, the waiting requests are queued again, and then the server
    // serves.
    fn learn(&self, alloc: Global, node: u8, incarnation: u16) -> Result<ServerChange, StepError>
        ensures fits { IfOk result (λ change. Fits self.now change.edit) }
        ensures ok { IfOk result (λ change. learn_rule (server_state self.now) node incarnation ≡ Ok (planned self.now change.edit, change.outcome)) }
        ensures err { IfErr result (λ e. e ≢ StepError.NoMemory → learn_rule (server_state self.now) node incarnation ≡ Err e) }
        ensures refused { (r : StepError) → r ≢ StepError.Spent → learn_rule (server_state self.now) node incarnation ≡ Err r → result ≡ Err r }
    {
        if node == 0 || node > self.shape.nodes() {
            return Err(StepError::Stranger);
        }
        let _ = &self.shape; // tells the proof what holds between two steps
        let forgotten = KnownChange::Forgotten { incarnation };
        let sketch = Sketch::of(node, forgotten, Moved::Waiting, None);
        self.serve_after(&sketch, alloc, Sends::nothing())
    }

    /// Plans the step that `step` makes. Only what the event changes is made anew.
    ///
    /// # Errors
    /// As `step`.
    pub fn plan(&self, alloc: Global, event: &ServerEvent) -> Result<ServerChange, StepError>
        ensures fits { IfOk result (λ change. Fits self.now change.edit) }
        ensures ok { IfOk result (λ change. server_rule (server_state self.now) event.now ≡ Ok (planned self.now change.edit, change.outcome)) }
        ensures err { IfErr result (λ e. e ≢ StepError.NoMemory → server_rule (server_state self.now) event.now ≡ Err e) }

        // Every refusal but `Spent` always comes: it is decided before memory is taken.
        ensures refused { (r : StepError) → r ≢ StepError.Spent → server_rule (server_state self.now) event.now ≡ Err r → result ≡ Err r }
    {
        match event {
            ServerEvent::Input(ServerInput::Resend) => self.resend(alloc),
            ServerEvent::Input(ServerInput::Learn { node, incarnation }) => {
                self.learn(alloc, *node, *incarnation)
            }
            ServerEvent::Deliver(message) => self.plan_delivery(alloc, message),
        }
    }
}

// The message, if there is one, as a list.
fn in_list(alloc: Global, message: Option<Message>) -> Result<Sends, AllocError>
    ensures { IfOk result (λ sends. sends ≡ option_to_list message) }
{
    match message {
        Some(message) => Sends::one(alloc, message),
        None => Ok(Sends::nothing()),
    }
}
