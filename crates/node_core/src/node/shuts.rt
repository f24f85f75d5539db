//! How a node takes a call that closes descriptors.
ghost use Rattle.std.specs.Prelude.{◌≡◌, ◌<◌, ◌+◌, if◌then◌else◌, [], All, IfOk};
ghost use Rattle.descriptors.specs.rule.Rows.{processes};
ghost use Rattle.model.specs.rule.Limits.{IsNumber, most_processes};
ghost use Rattle.model.specs.rule.Descriptors.{has_open};
ghost use Rattle.messages.specs.rule.Messages.{greatest_number};
ghost use Rattle.node_core.specs.rule.State.{host, without_call_of};
ghost use Rattle.node_core.specs.rule.Try.{settled, with_freed, with_freed_of};
ghost use Rattle.node_core.specs.rule.Calls.{called};
ghost use Rattle.node_core.specs.rule.Parts.{node_state};
ghost use Rattle.node_core.specs.code.Plans.{numbered, table_after, effect_of, TableFits, PartsFit};

use super::Node;
use crate::effect::Effect;
use crate::node_edit::{NodeDraft, NodeEdit, NodeTableEdit};
use crate::open_calls::CallsEdit;
use model::{Op, Reply};
use std::alloc::{AllocError, Global};

impl Node {
    // Answers an exit, with that change of the table; no call of the process stays open.
    fn answer_exit(
        &self,
        alloc: Global,
        pid: u16,
        table: NodeTableEdit,
        reply: Reply,
    ) -> Result<Effect, AllocError>
        requires left { (node_state self.now).calls < greatest_number }
        requires table { TableFits self.now table }
        ensures value { IfOk result (λ effect. settled (without_call_of (numbered (node_state self.now)) pid) ((node_state self.now).calls + 1) (table_after (host (node_state self.now)) (node_state self.now).table table, reply) ≡ effect_of self.now effect) }
        ensures fits { IfOk result (λ effect. PartsFit self.now effect.edit) }
        ensures first { IfOk result (λ effect. effect.edit.value.freed ≡ []) }
    {
        let number = self.next_number();
        let mut edit = NodeEdit::of(alloc, NodeDraft::of_call())?;
        edit.table = table;
        edit.calls = CallsEdit::Left { pid, number };
        Ok(Effect::answered(edit, self.id(number), reply))
    }

    // Closes the descriptor and answers the call. If a Freed is owed for the descriptor's file, it
    // is sent.
    pub(super) fn call_close(&self, alloc: Global, pid: u16, fd: u8) -> Result<Effect, AllocError>
        requires left { (node_state self.now).calls < greatest_number }
        requires pid { IsNumber most_processes pid }
        ensures value { IfOk result (λ effect. called (numbered (node_state self.now)) ((node_state self.now).calls + 1) pid (Op.Close fd) ≡ effect_of self.now effect) }
        ensures fits { IfOk result (λ effect. PartsFit self.now effect.edit) }
    {
        match self.processes.resolve(pid, fd) {
            Ok(opened) => {
                let effect = self.answer_call(
                    alloc,
                    NodeTableEdit::Closes { pid, fd },
                    Reply::Done,
                )?;
                self.tell_freed(alloc, opened.file, effect)
            }
            Err(error) => self.answer_call(alloc, NodeTableEdit::Nothing, error.reply()),
        }
    }

    // Sends a Freed for the file, if the process has the file open and a Freed is owed.
    fn tell_if_open(
        &self,
        alloc: Global,
        pid: u16,
        file: u16,
        effect: Effect,
    ) -> Result<Effect, AllocError>
        requires file { IsNumber (node_state self.now).shape.files file }
        requires fits { PartsFit self.now effect.edit }
        requires rises { All (λ f. f < file) effect.edit.value.freed }
        ensures value { IfOk result (λ told. (if has_open (processes self.now.processes) pid file then with_freed file (effect_of self.now effect) else effect_of self.now effect) ≡ effect_of self.now told) }
        ensures fits { IfOk result (λ told. PartsFit self.now told.edit) }
        ensures rises { IfOk result (λ told. All (λ f. f < file + 1) told.edit.value.freed) }
    {
        if !self.processes.has_open(pid, file) {
            return Ok(effect);
        }
        self.tell_freed(alloc, file, effect)
    }

    // Sends a Freed for each file that the process has open and for which one is owed, by rising
    // file numbers.
    fn tell_open(&self, alloc: Global, pid: u16, effect: Effect) -> Result<Effect, AllocError>
        requires fits { PartsFit self.now effect.edit }
        requires first { effect.edit.value.freed ≡ [] }
        ensures value { IfOk result (λ told. with_freed_of (has_open (processes self.now.processes) pid) (node_state self.now).shape.files (effect_of self.now effect) ≡ effect_of self.now told) }
        ensures fits { IfOk result (λ told. PartsFit self.now told.edit) }
    {
        let mut told = effect;
        for before in 0..self.shape.files() {
            if !self.owes_freed(&told.edit.draft, before + 1) {
                continue;
            }
            told = self.tell_if_open(alloc, pid, before + 1, told)?;
        }
        Ok(told)
    }

    // Lets the process exit and answers the call; no other call of the process stays open. A Freed
    // is sent for each file that the process had open and for which one is owed.
    pub(super) fn call_exit(&self, alloc: Global, pid: u16) -> Result<Effect, AllocError>
        requires left { (node_state self.now).calls < greatest_number }
        requires pid { IsNumber most_processes pid }
        ensures value { IfOk result (λ effect. called (numbered (node_state self.now)) ((node_state self.now).calls + 1) pid Op.Exit ≡ effect_of self.now effect) }
        ensures fits { IfOk result (λ effect. PartsFit self.now effect.edit) }
    {
        if !self.processes.is_running(pid) {
            return self.answer_exit(alloc, pid, NodeTableEdit::Nothing, Reply::NoProcess);
        }
        let effect = self.answer_exit(alloc, pid, NodeTableEdit::Exits { pid }, Reply::Done)?;
        self.tell_open(alloc, pid, effect)
    }
}
