//! How a node tries an open lock call.
ghost use Rattle.std.specs.Prelude.{◌≡◌, ◌<◌, false, Ok, IfOk, IfSome};
ghost use Rattle.model.specs.rule.Locks.{lowest_blocker};
ghost use Rattle.model.specs.declared.reply.Reply.{Reply};
ghost use Rattle.token_set.specs.rule.Tokens.{token_of};
ghost use Rattle.token_set.specs.rule.Tokens.{covers, desired};
ghost use Rattle.node_core.specs.rule.Try.{requested, answered_if, tried, tried_if};
ghost use Rattle.node_core.specs.declared.node_edit.NodeTableEdit.TheVariants.{Nothing};
ghost use Rattle.node_core.specs.rule.Parts.{node_state, IsCallOf};
ghost use Rattle.node_core.specs.code.Plans.{drafted, trying, opened_if, pending_after, effect_of, DraftFits, CallsFit, PartsFit};

use super::Node;
use crate::effect::Effect;
use crate::node_edit::{NodeDraft, NodeEdit, NodeTableEdit};
use crate::open_call::{OpenCall, blocking_of, refusal_of};
use crate::open_calls::CallsEdit;
use messages::{Message, Wanted};
use model::{LockInfo, Reply};
use std::alloc::{AllocError, Global};
use token_set::desired::desired;
use token_set::set::TokenSet;

impl Node {
    // The lowest of the node's own locks that blocks the call.
    fn blocker(&self, call: &OpenCall) -> Option<LockInfo>
        requires { IsCallOf (node_state self.now) call.now }
        ensures { result ≡ lowest_blocker ((node_state self.now).table.locks call.now.file) call.now.owner call.now.span call.now.mode }
    {
        self.locks
            .blocker(call.owner, call.file, call.span, call.mode)
    }

    // Whether the node's token covers the call after the draft.
    fn is_covered(&self, draft: &NodeDraft, call: &OpenCall) -> Result<bool, AllocError>
        requires { IsCallOf (node_state self.now) call.now }
        ensures { IfOk result (λ yes. yes ≡ covers ((drafted self.now draft.now).files call.now.file).token call.now.span call.now.mode) }
    {
        let token = &self.file(call.file).token;
        match &draft.command {
            Some(edit) if edit.file == call.file => token.covers_after(
                &edit.token,
                call.span,
                call.mode,
            ),
            _ => Ok(token.covers(call.span, call.mode)),
        }
    }

    // The bytes that the call needs, and the ones that the node requests with them, by this token.
    fn wanted_by(&self, token: &TokenSet, call: &OpenCall) -> Wanted
        requires { IsCallOf (node_state self.now) call.now }
        ensures { result ≡ record { required = call.now.span; desired = desired (node_state self.now).shape.policy (token_of token.now) call.now.span } }
    {
        Wanted::new(call.span, desired(self.shape.policy(), call.span, token))
    }

    // The bytes that the call needs, and the ones that the node requests with them, by its token
    // after the draft.
    fn wanted(&self, draft: &NodeDraft, call: &OpenCall) -> Result<Wanted, AllocError>
        requires { IsCallOf (node_state self.now) call.now }
        ensures { IfOk result (λ wanted. wanted ≡ record { required = call.now.span; desired = desired (node_state self.now).shape.policy ((drafted self.now draft.now).files call.now.file).token call.now.span }) }
    {
        let token = &self.file(call.file).token;
        match &draft.command {
            Some(edit) if edit.file == call.file => {
                let token = token.after(&edit.token)?;
                Ok(self.wanted_by(&token, call))
            }
            _ => Ok(self.wanted_by(token, call)),
        }
    }

    // Plans that a new call is open from now on; a call that is open already stays so.
    fn keep_open(&self, draft: &NodeDraft, call: &OpenCall) -> Result<CallsEdit, AllocError>
        requires { IsCallOf (node_state self.now) call.now }
        ensures value { IfOk result (λ edit. pending_after (node_state self.now).pending edit ≡ opened_if draft.now.numbered (node_state self.now).pending call.now) }
        ensures fits { IfOk result (CallsFit self.now) }
    {
        if !draft.numbered {
            return Ok(CallsEdit::Same);
        }
        Ok(CallsEdit::Put(*call, self.pending.room()?))
    }

    // Sends a request to the server for a call that the token doesn't cover.
    fn request(
        &self,
        alloc: Global,
        draft: NodeDraft,
        call: &OpenCall,
    ) -> Result<Effect, AllocError>
        requires own { IsCallOf (node_state self.now) call.now }
        requires draft { DraftFits self.now draft }
        ensures value { IfOk result (λ effect. requested (trying self.now draft call.now) call.now ≡ effect_of self.now effect) }
        ensures fits { IfOk result (λ effect. PartsFit self.now effect.edit) }
    {
        let request = Message::Request {
            file: self.file_number(call.file),
            call: self.id(call.number),
            blocking: blocking_of(call.lock_command),
            mode: call.mode,
            wanted: self.wanted(&draft, call)?,
        };
        let calls = self.keep_open(&draft, call)?;
        let mut edit = NodeEdit::of(alloc, draft)?;
        edit.calls = calls;
        Effect::sent(alloc, edit, request)
    }

    // Answers a call that one of the node's locks blocks, if there is a refusal; else it is open
    // from then on.
    fn refuse(
        &self,
        alloc: Global,
        draft: NodeDraft,
        call: &OpenCall,
        refusal: Option<Reply>,
    ) -> Result<Effect, AllocError>
        requires own { IsCallOf (node_state self.now) call.now }
        requires draft { DraftFits self.now draft }
        ensures value { IfOk result (λ effect. answered_if (trying self.now draft call.now) call.now.number refusal ≡ effect_of self.now effect) }
        ensures fits { IfOk result (λ effect. PartsFit self.now effect.edit) }
    {
        if let Some(reply) = refusal {
            return self.answer(alloc, draft, NodeTableEdit::Nothing, call.number, reply);
        }
        let calls = self.keep_open(&draft, call)?;
        let mut edit = NodeEdit::of(alloc, draft)?;
        edit.calls = calls;
        Ok(Effect::quiet(edit))
    }

    // Tries a call: first against the node's own locks of other owners, then by its token; if that
    // doesn't cover it, by a request to the server. A new call without a reply is open from then
    // on.
    pub(super) fn try_call(
        &self,
        alloc: Global,
        draft: NodeDraft,
        call: &OpenCall,
    ) -> Result<Effect, AllocError>
        requires own { IsCallOf (node_state self.now) call.now }
        requires draft { DraftFits self.now draft }
        ensures value { IfOk result (λ effect. tried (trying self.now draft call.now) call.now ≡ effect_of self.now effect) }
        ensures fits { IfOk result (λ effect. PartsFit self.now effect.edit) }
    {
        if let Some(lock) = self.blocker(call) {
            return self.refuse(alloc, draft, call, refusal_of(call.lock_command, lock));
        }
        if self.is_covered(&draft, call)? {
            return self.answer_here(alloc, draft, call);
        }
        self.request(alloc, draft, call)
    }

    // Tries a call, if it is still open.
    pub(super) fn try_if(
        &self,
        alloc: Global,
        draft: NodeDraft,
        call: Option<OpenCall>,
    ) -> Result<Effect, AllocError>
        requires own { IfSome call (IsCallOf (node_state self.now)) }
        requires old { draft.numbered ≡ false }
        requires draft { DraftFits self.now draft }
        ensures value { IfOk result (λ effect. tried_if (drafted self.now draft) call ≡ effect_of self.now effect) }
        ensures fits { IfOk result (λ effect. PartsFit self.now effect.edit) }
    {
        match call {
            None => Ok(Effect::quiet(NodeEdit::of(alloc, draft)?)),
            Some(call) => self.try_call(alloc, draft, &call),
        }
    }
}
