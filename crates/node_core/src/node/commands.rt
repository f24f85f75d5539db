//! How a node takes a message of a token server.
ghost use Rattle.std.specs.Prelude.{◌≡◌, ◌==◌, ◌+◌, false, Some, Ok, IfOk, IfSome};
ghost use Rattle.model.specs.rule.Limits.{IsNumber};
ghost use Rattle.token_set.specs.rule.Tokens.{gave_up};
ghost use Rattle.messages.specs.declared.message.Message.TheVariants.{Report};
ghost use Rattle.messages.specs.rule.Messages.{runs_of};
ghost use Rattle.node_core.specs.rule.Answers.{answer_of};
ghost use Rattle.node_core.specs.rule.Commands.{in_epoch, remembered, in_order, granted, revoked, told, denied};
ghost use Rattle.node_core.specs.rule.State.{host};
ghost use Rattle.node_core.specs.rule.Parts.{node_state, after_grant, after_revoke, out_of_order, IsCallOf};
ghost use Rattle.node_core.specs.code.Plans.{commanded, drafted, effect_of, CommandFits, DraftFits, PartsFit};

use super::Node;
use crate::effect::Effect;
use crate::file_row::{FileEdit, runs_of};
use crate::node_edit::{NodeDraft, NodeEdit};
use crate::open_call::{OpenCall, refusal_of};
use crate::token_command::TokenCommand;
use intervals::span::Span;
use messages::{EpochNumber, FileNumber, Message, Wanted};
use model::LockInfo;
use std::alloc::{AllocError, Global};
use token_set::gave_up::GaveUp;

mod deliveries;

impl Node {
    // The change by which the node enters the epoch of a command with that number, at the command's
    // file.
    fn enter(&self, file: u16, number: u64) -> FileEdit
        requires { IsNumber (node_state self.now).shape.files file }
        ensures state { commanded self.now result ≡ in_epoch (node_state self.now) file number }
        ensures last { result.last ≡ ((in_epoch (node_state self.now) file number).files file).last }
        ensures answer { answer_of result.answer ≡ ((in_epoch (node_state self.now) file number).files file).answer }
        ensures fits { CommandFits (node_state self.now).shape.files (Some result) }
    {
        self.file(file).plan_renewal(file, number)
    }

    // The draft of a command that changes its file so.
    fn draft_of(&self, alloc: Global, edit: FileEdit) -> Result<NodeDraft, AllocError>
        requires { CommandFits (node_state self.now).shape.files (Some edit) }
        ensures state { IfOk result (λ draft. drafted self.now draft ≡ commanded self.now edit) }
        ensures old { IfOk result (λ draft. draft.numbered ≡ false) }
        ensures fits { IfOk result (DraftFits self.now) }
    {
        Ok(NodeDraft::of_command(Box::new(alloc, edit)?))
    }

    // Sends the answer to the last command again, after the file is changed to `known`.
    fn remembered(&self, alloc: Global, known: FileEdit) -> Result<Effect, AllocError>
        requires { CommandFits (node_state self.now).shape.files (Some known) }
        ensures value { IfOk result (λ effect. remembered (commanded self.now known) (answer_of known.answer) ≡ effect_of self.now effect) }
        ensures fits { IfOk result (λ effect. PartsFit self.now effect.edit) }
    {
        let answer = known.answer;
        let edit = NodeEdit::of(alloc, self.draft_of(alloc, known)?)?;
        match answer {
            None => Ok(Effect::quiet(edit)),
            Some(answer) => Effect::sent(alloc, edit, answer.message()),
        }
    }

    // Whether the command is the one after the last one that was done, in its epoch.
    fn is_next(&self, command: &TokenCommand) -> bool
        requires { IsNumber (node_state self.now).shape.files command.now.file }
        ensures { result ≡ (command.now.number == ((in_epoch (node_state self.now) command.now.file command.now.number).files command.now.file).last + 1) }
    {
        let number = command.number.get();
        number - 1 == self.enter(command.file.get(), number).last
    }

    // Takes a command that isn't the next one: the last one that was done is answered again, any
    // other does nothing.
    fn on_out_of_order(&self, alloc: Global, command: &TokenCommand) -> Result<Effect, AllocError>
        requires { IsNumber (node_state self.now).shape.files command.now.file }
        ensures value { IfOk result (λ effect. out_of_order (in_epoch (node_state self.now) command.now.file command.now.number) command.now.file command.now.number ≡ effect_of self.now effect) }
        ensures fits { IfOk result (λ effect. PartsFit self.now effect.edit) }
    {
        let number = command.number.get();
        let known = self.enter(command.file.get(), number);
        if number != known.last {
            let edit = NodeEdit::of(alloc, self.draft_of(alloc, known)?)?;
            return Ok(Effect::quiet(edit));
        }
        self.remembered(alloc, known)
    }

    // Plans what a grant changes: the token is raised, the command is done, and its answer is
    // remembered.
    fn raise(
        &self,
        alloc: Global,
        command: &TokenCommand,
        span: Span,
    ) -> Result<NodeDraft, AllocError>
        requires { IsNumber (node_state self.now).shape.files command.now.file }
        ensures state { IfOk result (λ draft. drafted self.now draft ≡ after_grant (node_state self.now) command.now span) }
        ensures old { IfOk result (λ draft. draft.numbered ≡ false) }
        ensures fits { IfOk result (DraftFits self.now) }
    {
        let edit = self.file(command.file.get()).plan_grant(command, span)?;
        self.draft_of(alloc, edit)
    }

    // Takes a grant. If it is the next command the token is raised, and the call that it is for is
    // tried if it is still open.
    fn grant(&self, alloc: Global, command: &TokenCommand, span: Span) -> Result<Effect, AllocError>
        requires { IsNumber (node_state self.now).shape.files command.now.file }
        ensures value { IfOk result (λ effect. in_order (in_epoch (node_state self.now) command.now.file command.now.number) command.now.file command.now.number (granted (in_epoch (node_state self.now) command.now.file command.now.number) command.now.file command.now.number command.now.call command.now.mode span) ≡ effect_of self.now effect) }
        ensures fits { IfOk result (λ effect. PartsFit self.now effect.edit) }
    {
        if !self.is_next(command) {
            return self.on_out_of_order(alloc, command);
        }
        let draft = self.raise(alloc, command, span)?;
        let waiting = self.open_call(command.call.number);
        let effect = self.try_if(alloc, draft, waiting)?;
        effect.with_first(alloc, command.taken().message())
    }

    // The answer to a revoke: a span around the required bytes that is given up, or a lock in the
    // way. Takes no memory.
    fn gives(&self, command: &TokenCommand, wanted: Wanted) -> GaveUp
        ensures { result ≡ gave_up ((node_state self.now).table.locks command.now.file) (node_state self.now).node (node_state self.now).incarnation command.now.mode wanted.required wanted.desired }
    {
        let _ = &wanted.required.lo; // tells the proof that each span has a byte
        let file = command.file.get();
        GaveUp::by_locks(
            &self.locks,
            file,
            command.mode,
            wanted.required,
            wanted.desired,
        )
    }

    // Plans what a revoke changes: the token is given up as far as no lock is in the way, the
    // command is done, and its answer is remembered.
    fn give_up(
        &self,
        alloc: Global,
        command: &TokenCommand,
        wanted: Wanted,
    ) -> Result<(GaveUp, NodeDraft), AllocError>
        requires { IsNumber (node_state self.now).shape.files command.now.file }
        ensures answer { IfOk result (λ r. r.0 ≡ gave_up ((node_state self.now).table.locks command.now.file) (node_state self.now).node (node_state self.now).incarnation command.now.mode wanted.required wanted.desired) }
        ensures state { IfOk result (λ r. drafted self.now r.1 ≡ after_revoke (node_state self.now) command.now r.0) }
        ensures fits { IfOk result (λ r. DraftFits self.now r.1) }
    {
        let gives = self.gives(command, wanted);
        let row = self.file(command.file.get());
        let edit = row.plan_revoke(command, self.host(), &gives)?;
        Ok((gives, self.draft_of(alloc, edit)?))
    }

    // Takes a revoke. If it is the next command the token is given up as far as no lock is in the
    // way, and the answer is sent.
    fn revoke(
        &self,
        alloc: Global,
        command: &TokenCommand,
        wanted: Wanted,
    ) -> Result<Effect, AllocError>
        requires { IsNumber (node_state self.now).shape.files command.now.file }
        ensures value { IfOk result (λ effect. in_order (in_epoch (node_state self.now) command.now.file command.now.number) command.now.file command.now.number (revoked (in_epoch (node_state self.now) command.now.file command.now.number) command.now.file command.now.number command.now.call command.now.mode wanted) ≡ effect_of self.now effect) }
        ensures fits { IfOk result (λ effect. PartsFit self.now effect.edit) }
    {
        if !self.is_next(command) {
            return self.on_out_of_order(alloc, command);
        }
        let (gives, draft) = self.give_up(alloc, command, wanted)?;
        Effect::sent(
            alloc,
            NodeEdit::of(alloc, draft)?,
            command.answer(self.host(), gives).message(),
        )
    }

    // The report of the node's token for the file to a rebuilt server.
    fn report(
        &self,
        alloc: Global,
        file: FileNumber,
        number: EpochNumber,
    ) -> Result<Message, AllocError>
        requires { IsNumber (node_state self.now).shape.files file }
        ensures { IfOk result (λ report. report ≡ Report file number (host (node_state self.now)) (runs_of ((node_state self.now).files file).token)) }
    {
        Ok(Message::Report {
            file,
            number,
            holder: self.host(),
            runs: runs_of(alloc, &self.file(file.get()).token)?,
        })
    }

    // Takes a hello: the node reports its token to the rebuilt server, as long as it has done no
    // command of the server's epoch.
    fn tell(
        &self,
        alloc: Global,
        file: FileNumber,
        number: EpochNumber,
    ) -> Result<Effect, AllocError>
        requires { IsNumber (node_state self.now).shape.files file }
        ensures value { IfOk result (λ effect. told (in_epoch (node_state self.now) file number) file number ≡ effect_of self.now effect) }
        ensures fits { IfOk result (λ effect. PartsFit self.now effect.edit) }
    {
        let known = self.enter(file.get(), number.get());
        let is_begun = number.get() != known.last;
        let edit = NodeEdit::of(alloc, self.draft_of(alloc, known)?)?;
        if is_begun {
            return Ok(Effect::quiet(edit));
        }
        Effect::sent(alloc, edit, self.report(alloc, file, number)?)
    }

    // Takes a denial: the call, if it is still open, is answered with the lock in its way, unless
    // it is a wait.
    fn deny(
        &self,
        alloc: Global,
        call: Option<OpenCall>,
        lock: LockInfo,
    ) -> Result<Effect, AllocError>
        requires { IfSome call (IsCallOf (node_state self.now)) }
        ensures value { IfOk result (λ effect. denied (node_state self.now) lock call ≡ effect_of self.now effect) }
        ensures fits { IfOk result (λ effect. PartsFit self.now effect.edit) }
    {
        match call {
            None => Ok(Effect::quiet(NodeEdit::none(alloc)?)),
            Some(call) => self.answer_if(alloc, call.number, refusal_of(call.lock_command, lock)),
        }
    }
}
