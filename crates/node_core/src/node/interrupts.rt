//! How a node interrupts the wait of a process.
ghost use Rattle.std.specs.Prelude.{◌≡◌, ◌≢◌, Ok, Err, IfOk, IfErr, IfSome};
ghost use Rattle.node_core.specs.rule.Interrupts.{interrupted, interrupt_rule};
ghost use Rattle.node_core.specs.rule.Parts.{node_state, IsCallOf};
ghost use Rattle.node_core.specs.code.Plans.{planned, effect_of, PartsFit};

use super::Node;
use crate::change::NodeChange;
use crate::effect::Effect;
use crate::node_edit::NodeEdit;
use crate::numbers::is_pid;
use crate::open_call::{OpenCall, interruption_of};
use messages::StepError;
use std::alloc::{AllocError, Global};

impl Node {
    // Answers a wait, which is open no longer; nothing happens to any other call.
    fn interrupt(&self, alloc: Global, call: Option<OpenCall>) -> Result<Effect, AllocError>
        requires { IfSome call (IsCallOf (node_state self.now)) }
        ensures value { IfOk result (λ effect. interrupted (node_state self.now) call ≡ effect_of self.now effect) }
        ensures fits { IfOk result (λ effect. PartsFit self.now effect.edit) }
    {
        match call {
            None => Ok(Effect::quiet(NodeEdit::none(alloc)?)),
            Some(call) => self.answer_if(alloc, call.number, interruption_of(call.lock_command)),
        }
    }

    // Plans the step that interrupts the wait of the process.
    pub(super) fn plan_interrupt(&self, alloc: Global, pid: u16) -> Result<NodeChange, StepError>
        ensures ok { IfOk result (λ change. interrupt_rule (node_state self.now) pid ≡ Ok (planned self.now change.edit, change.outcome)) }
        ensures err { IfErr result (λ error. error ≢ StepError.NoMemory → interrupt_rule (node_state self.now) pid ≡ Err error) }
        ensures refused { (r : StepError) → interrupt_rule (node_state self.now) pid ≡ Err r → result ≡ Err r }
        ensures fits { IfOk result (λ change. PartsFit self.now change.edit) }
    {
        if !is_pid(pid) {
            return Err(StepError::Stranger);
        }
        let effect = self.interrupt(alloc, self.open_call_of(pid))?;
        Ok(effect.change(None))
    }
}
