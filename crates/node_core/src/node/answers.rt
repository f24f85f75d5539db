//! How a node answers an open call, and what it locks and frees then.
ghost use Rattle.std.specs.Prelude.{◌≡◌, ◌≤◌, ◌<◌, ◌+◌, false, Ok, [], All, IfOk};
ghost use Rattle.model.specs.rule.Limits.{IsNumber};
ghost use Rattle.model.specs.declared.reply.Reply.{Reply};
ghost use Rattle.model.specs.rule.Table.{regions_with, lock_within};
ghost use Rattle.messages.specs.declared.message.Message.TheVariants.{Freed};
ghost use Rattle.node_core.specs.rule.State.{host};
ghost use Rattle.node_core.specs.rule.Try.{may_free, settled, answered_if, with_freed, locked_by, answered_here};
ghost use Rattle.node_core.specs.declared.node_edit.NodeTableEdit.TheVariants.{Nothing};
ghost use Rattle.node_core.specs.rule.Parts.{node_state, IsOwn, IsSpan, IsCallOf};
ghost use Rattle.node_core.specs.code.Plans.{drafted, table_after, effect_of, DraftFits, TableFits, PartsFit};

use super::Node;
use crate::effect::Effect;
use crate::node_edit::{NodeDraft, NodeEdit, NodeTableEdit};
use crate::open_call::OpenCall;
use crate::open_calls::CallsEdit;
use fcntl_table::locks::lock_reply;
use messages::Message;
use model::{LockCommand, LockTarget, Mode, Reply};
use std::alloc::{AllocError, Global};

// Whether an answered change of locks may end a conflict with other nodes' calls: it was done, and
// its bytes are free or only read locks from then on.
fn may_free(mode: Option<Mode>, reply: &Reply) -> bool
    ensures { result ≡ may_free mode reply.now }
{
    match (mode, reply) {
        (None | Some(Mode::Read), Reply::Done) => true,
        _ => false,
    }
}

impl Node {
    // Whether a Freed is owed for the file after the draft: one of the node's locks was named in
    // the way.
    pub(super) fn owes_freed(&self, draft: &NodeDraft, file: u16) -> bool
        requires { IsNumber (node_state self.now).shape.files file }
        ensures { result ≡ ((drafted self.now draft.now).files file).owes_freed }
    {
        let row = self.file(file);
        match &draft.command {
            Some(edit) if edit.file == file => edit.owes_freed,
            _ => row.owes_freed,
        }
    }

    // Answers the call, with that change of the table; it is open no longer.
    pub(super) fn answer(
        &self,
        alloc: Global,
        draft: NodeDraft,
        table: NodeTableEdit,
        number: u32,
        reply: Reply,
    ) -> Result<Effect, AllocError>
        requires number { 1 ≤ number }
        requires draft { DraftFits self.now draft }
        requires table { TableFits self.now table }
        ensures value { IfOk result (λ effect. settled (drafted self.now draft) number (table_after (host (node_state self.now)) (node_state self.now).table table, reply) ≡ effect_of self.now effect) }
        ensures fits { IfOk result (λ effect. PartsFit self.now effect.edit) }
        ensures first { IfOk result (λ effect. effect.edit.value.freed ≡ []) }
    {
        let mut edit = NodeEdit::of(alloc, draft)?;
        edit.table = table;
        edit.calls = CallsEdit::Gone(number);
        Ok(Effect::answered(edit, self.id(number), reply))
    }

    // Answers a call that is open already, if there is a reply; else it stays open.
    pub(super) fn answer_if(
        &self,
        alloc: Global,
        number: u32,
        reply: Option<Reply>,
    ) -> Result<Effect, AllocError>
        requires { 1 ≤ number }
        ensures value { IfOk result (λ effect. answered_if (node_state self.now) number reply ≡ effect_of self.now effect) }
        ensures fits { IfOk result (λ effect. PartsFit self.now effect.edit) }
    {
        match reply {
            None => Ok(Effect::quiet(NodeEdit::none(alloc)?)),
            Some(reply) => self.answer(
                alloc,
                NodeDraft::none(),
                NodeTableEdit::Nothing,
                number,
                reply,
            ),
        }
    }

    // The change that locks or frees the bytes, unless their owner would have too many regions, and
    // the reply. The reply `NoLocks` takes no memory.
    #[tactic(auto, unfolding(crate::specs::rule::Parts::node_state))]
    fn plan_lock(
        &self,
        alloc: Global,
        target: LockTarget,
        mode: Option<Mode>,
    ) -> Result<(NodeTableEdit, Reply), AllocError>
        requires own { IsOwn (node_state self.now).node (node_state self.now).incarnation target.owner }
        requires span { IsSpan target.span }
        ensures locked { IfOk result (λ r. lock_within (node_state self.now).table target mode ≡ (table_after (host (node_state self.now)) (node_state self.now).table r.0, r.1)) }
        ensures refused { (node_state self.now).table.limit < regions_with (node_state self.now).table target mode → result ≡ Ok (Nothing, Reply.NoLocks) }
        ensures fits { IfOk result (λ r. TableFits self.now r.0) }
    {
        match self
            .locks
            .plan(target.owner, target.file, target.span, mode)
        {
            Ok(edit) => Ok((NodeTableEdit::OfLocks(Box::new(alloc, edit)?), Reply::Done)),
            Err(error) => Ok((NodeTableEdit::Nothing, lock_reply(error)?)),
        }
    }

    // The message that says that locks of the node may be gone.
    fn freed(&self, file: u16) -> Message
        requires { IsNumber (node_state self.now).shape.files file }
        ensures { result ≡ Freed file (host (node_state self.now)) }
    {
        Message::Freed {
            file: self.file_number(file),
            holder: self.host(),
        }
    }

    // Sends a Freed for the file, if one is owed. The files of the effect so far have lower
    // numbers.
    pub(super) fn tell_freed(
        &self,
        alloc: Global,
        file: u16,
        effect: Effect,
    ) -> Result<Effect, AllocError>
        requires file { IsNumber (node_state self.now).shape.files file }
        requires fits { PartsFit self.now effect.edit }
        requires rises { All (λ f. f < file) effect.edit.value.freed }
        ensures value { IfOk result (λ told. with_freed file (effect_of self.now effect) ≡ effect_of self.now told) }
        ensures fits { IfOk result (λ told. PartsFit self.now told.edit) }
        ensures rises { IfOk result (λ told. All (λ f. f < file + 1) told.edit.value.freed) }
    {
        if !self.owes_freed(&effect.edit.draft, file) {
            return Ok(effect);
        }
        effect.with_freed_last(alloc, file, self.freed(file))
    }

    // Sets or frees the bytes and answers the call. A Freed is sent if one is owed and other nodes'
    // calls may be helped.
    pub(super) fn lock(
        &self,
        alloc: Global,
        draft: NodeDraft,
        number: u32,
        target: LockTarget,
        mode: Option<Mode>,
    ) -> Result<Effect, AllocError>
        requires number { 1 ≤ number }
        requires draft { DraftFits self.now draft }
        requires file { IsNumber (node_state self.now).shape.files target.file }
        requires own { IsOwn (node_state self.now).node (node_state self.now).incarnation target.owner }
        requires span { IsSpan target.span }
        ensures value { IfOk result (λ effect. locked_by (drafted self.now draft) number target mode ≡ effect_of self.now effect) }
        ensures fits { IfOk result (λ effect. PartsFit self.now effect.edit) }
    {
        let (table, reply) = self.plan_lock(alloc, target, mode)?;
        let effect = self.answer(alloc, draft, table, number, reply)?;
        if !may_free(mode, &reply) {
            return Ok(effect);
        }
        self.tell_freed(alloc, target.file, effect)
    }

    // Answers the call by the node's own table.
    pub(super) fn answer_here(
        &self,
        alloc: Global,
        draft: NodeDraft,
        call: &OpenCall,
    ) -> Result<Effect, AllocError>
        requires own { IsCallOf (node_state self.now) call.now }
        requires draft { DraftFits self.now draft }
        ensures value { IfOk result (λ effect. answered_here (drafted self.now draft) call.now call.now.lock_command ≡ effect_of self.now effect) }
        ensures fits { IfOk result (λ effect. PartsFit self.now effect.edit) }
    {
        match call.lock_command {
            LockCommand::Set | LockCommand::Wait => self.lock(
                alloc,
                draft,
                call.number,
                call.target(),
                Some(call.mode),
            ),
            LockCommand::Query => self.answer(
                alloc,
                draft,
                NodeTableEdit::Nothing,
                call.number,
                Reply::Free,
            ),
        }
    }
}
