//! How a node takes a call of one of its processes, and how it retries one.
ghost use Rattle.std.specs.Prelude.{◌≡◌, ◌≢◌, ◌+◌, ◌≤◌, ◌<◌, ◌↔◌, true, [], Ok, Err, IfOk, IfErr, IsTrue};
ghost use Rattle.model.specs.rule.Limits.{IsNumber, most_processes};
ghost use Rattle.model.specs.rule.Table.{target};
ghost use Rattle.messages.specs.rule.Messages.{greatest_number};
ghost use Rattle.node_core.specs.rule.State.{host, process, open_call_of};
ghost use Rattle.node_core.specs.rule.Try.{settled};
ghost use Rattle.node_core.specs.rule.Calls.{is_in_shape, is_exit, is_busy, lock_call, unlock_call, called, call_rule};
ghost use Rattle.node_core.specs.rule.Retries.{retry_rule};
ghost use Rattle.node_core.specs.rule.Parts.{node_state, asked, IsOwn, IsSpan};
ghost use Rattle.node_core.specs.code.Plans.{numbered, table_after, planned, effect_of, TableFits, PartsFit};

use super::Node;
use crate::change::NodeChange;
use crate::effect::Effect;
use crate::node_edit::{NodeDraft, NodeTableEdit};
use crate::numbers::is_pid;
use crate::open_call::OpenCall;
use fcntl_table::target::target_at;
use intervals::span::Span;
use messages::StepError;
use model::{Kind, LockCall, LockCommand, LockTarget, Mode, Op, ProcessCall, Reply};
use std::alloc::{AllocError, Global};

// Whether the operation is an exit.
fn is_exit(op: &Op) -> bool
    ensures { result ≡ is_exit op.now }
{
    match op {
        Op::Exit => true,
        _ => false,
    }
}

impl Node {
    // Whether the file or the process that the operation names is in range.
    #[tactic(auto, unfolding(crate::specs::rule::Parts::node_state))]
    fn is_in_shape(&self, op: &Op) -> bool
        ensures { result ≡ is_in_shape (node_state self.now).shape op.now }
    {
        match op {
            Op::Process(ProcessCall::Open { file, .. }) => {
                1 <= *file && *file <= self.shape.files()
            }
            Op::Process(ProcessCall::Fork { child }) => is_pid(*child),
            _ => true,
        }
    }

    // Whether the process waits for a reply, and so may not make the call.
    #[tactic(auto, unfolding(crate::specs::rule::Parts::node_state))]
    fn is_busy(&self, pid: u16, op: &Op) -> bool
        ensures { result ≡ is_busy (node_state self.now) pid op.now }
    {
        !is_exit(op) && self.pending.has_call_of(pid)
    }

    // Whether no call number is left.
    #[tactic(auto, unfolding(crate::specs::rule::Parts::node_state))]
    fn is_spent(&self) -> bool
        ensures { IsTrue result ↔ (greatest_number ≤ (node_state self.now).calls) }
    {
        self.calls == u32::MAX
    }

    // The number of the next call.
    #[tactic(auto, unfolding(crate::specs::rule::Parts::node_state))]
    pub(super) fn next_number(&self) -> u32
        requires { (node_state self.now).calls < greatest_number }
        ensures { result ≡ (node_state self.now).calls + 1 }
    {
        self.calls + 1
    }

    // The change of the processes by a call that concerns only processes and descriptors, and its
    // reply.
    fn plan_process(
        &self,
        pid: u16,
        call: ProcessCall,
    ) -> Result<(NodeTableEdit, Reply), AllocError>
        requires pid { IsNumber most_processes pid }
        requires file { is_in_shape (node_state self.now).shape (Op.Process call) ≡ true }
        ensures value { IfOk result (λ r. asked (node_state self.now) pid call ≡ (table_after (host (node_state self.now)) (node_state self.now).table r.0, r.1)) }
        ensures fits { IfOk result (λ r. TableFits self.now r.0) }
    {
        match self.processes.plan(pid, call) {
            Ok((edit, reply)) => Ok((NodeTableEdit::OfProcess(edit), reply)),
            Err(error) => Ok((NodeTableEdit::Nothing, error.reply()?)),
        }
    }

    // What a lock call of the process is about, or the reply of the first test that fails.
    fn target(
        &self,
        pid: u16,
        need: Option<Mode>,
        fd: u8,
        kind: Kind,
        start: i64,
        len: i64,
    ) -> Result<LockTarget, Reply>
        requires { IsNumber most_processes pid }
        ensures value { result ≡ target (node_state self.now).table (process (node_state self.now) pid) need fd kind start len }
        ensures own { IfOk result (λ target. IsOwn (node_state self.now).node (node_state self.now).incarnation target.owner) }
        ensures file { IfOk result (λ target. IsNumber (node_state self.now).shape.files target.file) }
        ensures span { IfOk result (λ target. IsSpan target.span) }
    {
        let opened = match self.processes.resolve(pid, fd) {
            Ok(opened) => opened,
            Err(error) => return Err(error.reply()),
        };
        let segment = Span::from_flock(start, len);
        target_at(self.process(pid), need, kind, opened, segment)
    }

    // Answers a new call in its own step, with that change of the table.
    pub(super) fn answer_call(
        &self,
        alloc: Global,
        table: NodeTableEdit,
        reply: Reply,
    ) -> Result<Effect, AllocError>
        requires left { (node_state self.now).calls < greatest_number }
        requires table { TableFits self.now table }
        ensures value { IfOk result (λ effect. settled (numbered (node_state self.now)) ((node_state self.now).calls + 1) (table_after (host (node_state self.now)) (node_state self.now).table table, reply) ≡ effect_of self.now effect) }
        ensures fits { IfOk result (λ effect. PartsFit self.now effect.edit) }
        ensures first { IfOk result (λ effect. effect.edit.value.freed ≡ []) }
    {
        self.answer(
            alloc,
            NodeDraft::of_call(),
            table,
            self.next_number(),
            reply,
        )
    }

    // Answers a new call that concerns only processes and descriptors.
    fn call_process(&self, alloc: Global, pid: u16, call: ProcessCall) -> Result<Effect, AllocError>
        requires left { (node_state self.now).calls < greatest_number }
        requires pid { IsNumber most_processes pid }
        requires file { is_in_shape (node_state self.now).shape (Op.Process call) ≡ true }
        ensures value { IfOk result (λ effect. settled (numbered (node_state self.now)) ((node_state self.now).calls + 1) (asked (node_state self.now) pid call) ≡ effect_of self.now effect) }
        ensures fits { IfOk result (λ effect. PartsFit self.now effect.edit) }
    {
        let (table, reply) = self.plan_process(pid, call)?;
        self.answer_call(alloc, table, reply)
    }

    // A call about a lock that passes its first tests is open, and is tried.
    fn open_lock(
        &self,
        alloc: Global,
        pid: u16,
        lock_command: LockCommand,
        mode: Mode,
        target: Result<LockTarget, Reply>,
    ) -> Result<Effect, AllocError>
        requires left { (node_state self.now).calls < greatest_number }
        requires own { IfOk target (λ t. IsOwn (node_state self.now).node (node_state self.now).incarnation t.owner) }
        requires file { IfOk target (λ t. IsNumber (node_state self.now).shape.files t.file) }
        requires span { IfOk target (λ t. IsSpan t.span) }
        ensures value { IfOk result (λ effect. lock_call (numbered (node_state self.now)) ((node_state self.now).calls + 1) pid lock_command mode target ≡ effect_of self.now effect) }
        ensures fits { IfOk result (λ effect. PartsFit self.now effect.edit) }
    {
        match target {
            Ok(target) => {
                let call = OpenCall {
                    number: self.next_number(),
                    pid,
                    lock_command,
                    file: target.file,
                    owner: target.owner,
                    mode,
                    span: target.span,
                };
                self.try_call(alloc, NodeDraft::of_call(), &call)
            }
            Err(refusal) => self.answer_call(alloc, NodeTableEdit::Nothing, refusal),
        }
    }

    // Frees the bytes of a new call, if it passes its first tests, and answers it.
    fn call_unlock(
        &self,
        alloc: Global,
        target: Result<LockTarget, Reply>,
    ) -> Result<Effect, AllocError>
        requires left { (node_state self.now).calls < greatest_number }
        requires own { IfOk target (λ t. IsOwn (node_state self.now).node (node_state self.now).incarnation t.owner) }
        requires file { IfOk target (λ t. IsNumber (node_state self.now).shape.files t.file) }
        requires span { IfOk target (λ t. IsSpan t.span) }
        ensures value { IfOk result (λ effect. unlock_call (numbered (node_state self.now)) ((node_state self.now).calls + 1) target ≡ effect_of self.now effect) }
        ensures fits { IfOk result (λ effect. PartsFit self.now effect.edit) }
    {
        match target {
            Ok(target) => self.lock(
                alloc,
                NodeDraft::of_call(),
                self.next_number(),
                target,
                None,
            ),
            Err(refusal) => self.answer_call(alloc, NodeTableEdit::Nothing, refusal),
        }
    }

    // The call about a lock is open, and is tried, if it passes its first tests.
    fn call_lock(&self, alloc: Global, pid: u16, call: LockCall) -> Result<Effect, AllocError>
        requires left { (node_state self.now).calls < greatest_number }
        requires pid { IsNumber most_processes pid }
        ensures value { IfOk result (λ effect. called (numbered (node_state self.now)) ((node_state self.now).calls + 1) pid (Op.Lock call) ≡ effect_of self.now effect) }
        ensures fits { IfOk result (λ effect. PartsFit self.now effect.edit) }
    {
        let target = self.target(pid, call.need(), call.fd, call.kind, call.start, call.len);
        self.open_lock(alloc, pid, call.command, call.mode, target)
    }

    // Takes a new call: all but set, wait and query are answered in the same step.
    fn call(&self, alloc: Global, pid: u16, op: &Op) -> Result<Effect, AllocError>
        requires left { (node_state self.now).calls < greatest_number }
        requires pid { IsNumber most_processes pid }
        requires file { is_in_shape (node_state self.now).shape op.now ≡ true }
        ensures value { IfOk result (λ effect. called (numbered (node_state self.now)) ((node_state self.now).calls + 1) pid op.now ≡ effect_of self.now effect) }
        ensures fits { IfOk result (λ effect. PartsFit self.now effect.edit) }
    {
        match *op {
            Op::Process(call) => self.call_process(alloc, pid, call),
            Op::Close { fd } => self.call_close(alloc, pid, fd),
            Op::Exit => self.call_exit(alloc, pid),
            Op::Lock(call) => self.call_lock(alloc, pid, call),
            Op::Unlock {
                fd,
                kind,
                start,
                len,
            } => self.call_unlock(alloc, self.target(pid, None, fd, kind, start, len)),
        }
    }

    // Plans the step of a process's call, if the process has no open call or exits.
    pub(super) fn plan_call(
        &self,
        alloc: Global,
        pid: u16,
        op: &Op,
    ) -> Result<NodeChange, StepError>
        ensures ok { IfOk result (λ change. call_rule (node_state self.now) pid op.now ≡ Ok (planned self.now change.edit, change.outcome)) }
        ensures err { IfErr result (λ error. error ≢ StepError.NoMemory → call_rule (node_state self.now) pid op.now ≡ Err error) }
        ensures refused { (r : StepError) → call_rule (node_state self.now) pid op.now ≡ Err r → result ≡ Err r }
        ensures fits { IfOk result (λ change. PartsFit self.now change.edit) }
    {
        if !(is_pid(pid) && self.is_in_shape(op)) {
            return Err(StepError::Stranger);
        }
        if self.is_busy(pid, op) {
            return Err(StepError::Busy);
        }
        if self.is_spent() {
            return Err(StepError::Spent);
        }
        let effect = self.call(alloc, pid, op)?;
        Ok(effect.change(Some(self.id(self.next_number()))))
    }

    // Plans the step that tries the open call of the process again, with its own number.
    pub(super) fn plan_retry(&self, alloc: Global, pid: u16) -> Result<NodeChange, StepError>
        ensures ok { IfOk result (λ change. retry_rule (node_state self.now) pid ≡ Ok (planned self.now change.edit, change.outcome)) }
        ensures err { IfErr result (λ error. error ≢ StepError.NoMemory → retry_rule (node_state self.now) pid ≡ Err error) }
        ensures refused { (r : StepError) → retry_rule (node_state self.now) pid ≡ Err r → result ≡ Err r }
        ensures fits { IfOk result (λ change. PartsFit self.now change.edit) }
    {
        if !is_pid(pid) {
            return Err(StepError::Stranger);
        }
        let effect = self.try_if(alloc, NodeDraft::none(), self.open_call_of(pid))?;
        Ok(effect.change(None))
    }
}
