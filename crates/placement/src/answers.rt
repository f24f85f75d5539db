//! The answers that a single machine's table may give to a call.
ghost use Rattle.std.specs.Prelude.{◌≡◌, ◌≢◌, true, false, IsTrue, ◌↔◌, IfOk, IsOkAnd};
ghost use Rattle.model.specs.declared.op.Op.TheVariants.{Unlock};
ghost use Rattle.model.specs.declared.reply.Reply.TheVariants.{Interrupted};
ghost use Rattle.model.specs.rule.Step.{BlocksCall, IsPossible, Step};
ghost use Rattle.model.specs.rule.Replay.{NeverAnswers, NamesNoLock};
ghost use Rattle.fcntl_table.specs.rule.Tables.{table_of};
ghost use Rattle.placement.specs.code.Indexes.{GoesOn, BlocksOp};

use fcntl_table::table::FcntlTable;
use model::{
    Kind, LockCall, LockCommand, LockInfo, LockTarget, MOST_PROCESSES, Mode, Op, Process,
    ProcessCall, Reply,
};
use std::alloc::AllocError;

// Whether both replies are equal.
fn is_same(one: &Reply, other: &Reply) -> bool
    ensures { IsTrue result ↔ (one.now ≡ other.now) }
{
    one == other
}

/// Whether the table may answer the process's call with this reply. If it may, the table takes that step. Where
/// several locks block a call, the reply may name any of them.
///
/// # Errors
/// `AllocError` where a request for memory was refused.
#[tactic(auto, using(crate::proofs::Waits::denied, crate::proofs::Waits::never_denied, crate::proofs::Waits::told, crate::proofs::Waits::never_told))]
pub(crate) fn take(
    table: &mut FcntlTable,
    process: Process,
    op: Op,
    reply: Reply,
) -> Result<bool, AllocError>
    ensures taken { IfOk result (λ yes. yes ≡ true → Step (table_of table.old) process op reply (table_of table.new)) }
    ensures never { IfOk result (λ yes. yes ≡ false → NeverAnswers (table_of table.old) process op reply) }
{
    match reply {
        Reply::Again(lock) => Ok(is_blocked(table, process, op, LockCommand::Set, &lock)),
        Reply::Blocked(lock) => Ok(is_blocked(table, process, op, LockCommand::Query, &lock)),
        Reply::Interrupted => Ok(may_interrupt(table, process, op)),
        _ => take_answer(table, process, op, reply),
    }
}

// Whether the table gives this reply, which names no lock and is not that of an interrupt. If it does, it takes that
// step.
fn take_answer(
    table: &mut FcntlTable,
    process: Process,
    op: Op,
    reply: Reply,
) -> Result<bool, AllocError>
    requires names_none { NamesNoLock reply }
    requires is_own { Interrupted ≢ reply }
    ensures taken { IfOk result (λ yes. yes ≡ true → Step (table_of table.old) process op reply (table_of table.new)) }
    ensures never { IfOk result (λ yes. yes ≡ false → NeverAnswers (table_of table.old) process op reply) }
{
    if !is_possible(&op) {
        return Ok(false);
    }
    let answer = step(table, process, op)?;
    Ok(is_same(&answer, &reply))
}

// Whether each process that the operation names has a number that a process can have.
fn is_possible(op: &Op) -> bool
    ensures { IsTrue result ↔ IsPossible op.now }
{
    match op {
        Op::Process(ProcessCall::Fork { child }) => 1 <= *child && *child <= MOST_PROCESSES,
        _ => true,
    }
}

// Whether the call has the command and passes its tests, and the lock is a region of another owner that blocks it.
fn is_blocked(
    table: &FcntlTable,
    process: Process,
    op: Op,
    command: LockCommand,
    lock: &LockInfo,
) -> bool
    ensures { IsTrue result ↔ BlocksOp (table_of table.now) process op command lock.now }
{
    match op {
        Op::Lock(call) if call.command == command => {
            is_blocked_at(table, table.call_target(process, call), call.mode, lock)
        }
        _ => false,
    }
}

// Whether the target passes its tests, and the lock is a region of another owner that blocks a lock of that mode
// there.
fn is_blocked_at(
    table: &FcntlTable,
    target: Result<LockTarget, Reply>,
    mode: Mode,
    lock: &LockInfo,
) -> bool
    ensures { IsTrue result ↔ IsOkAnd target (λ call. BlocksCall (table_of table.now) call mode lock.now) }
{
    match target {
        Ok(call) => is_blocked_by(table, call, mode, lock),
        Err(_) => false,
    }
}

// Whether the call may be answered by an interrupt: it waits, and passes its tests.
fn may_interrupt(table: &FcntlTable, process: Process, op: Op) -> bool
    ensures may { result ≡ true → Step (table_of table.now) process op Interrupted (table_of table.now) }
    ensures never { result ≡ false → NeverAnswers (table_of table.now) process op Interrupted }
{
    match op {
        Op::Lock(call) if call.command == LockCommand::Wait => {
            table.call_target(process, call).is_ok()
        }
        _ => false,
    }
}

// Whether the lock is a region of another owner that blocks the call.
fn is_blocked_by(table: &FcntlTable, call: LockTarget, mode: Mode, lock: &LockInfo) -> bool
    ensures { IsTrue result ↔ BlocksCall (table_of table.now) call mode lock.now }
{
    if lock.owner == call.owner || !lock.mode.excludes(mode) {
        return false;
    }
    if lock.span.lo > call.span.hi || call.span.lo > lock.span.hi {
        return false;
    }
    table.has_region(call.file, lock)
}

// Answers the process's call. A segment is tested before the open mode of its descriptor. Where locks of several
// owners block, the reply names one of them; a call that waits is then interrupted.
fn step(table: &mut FcntlTable, process: Process, op: Op) -> Result<Reply, AllocError>
    requires { IsPossible op }
    ensures step { IfOk result (λ reply. Step (table_of table.old) process op reply (table_of table.new)) }
    ensures goes_on { IfOk result (GoesOn (table_of table.old) process op) }
{
    match op {
        Op::Process(call) => table.call(process, call),
        Op::Close { fd } => Ok(table.close(process, fd)),
        Op::Exit => Ok(table.exit(process)),
        Op::Lock(call) => lock(table, process, call),
        Op::Unlock {
            fd,
            kind,
            start,
            len,
        } => unlock(table, process, fd, kind, start, len),
    }
}

// A lock on a segment, or whether it would be in the way of another owner's. Where one is in its way, a wait goes on
// until it is interrupted.
fn lock(table: &mut FcntlTable, process: Process, call: LockCall) -> Result<Reply, AllocError>
    ensures step { IfOk result (λ reply. Step (table_of table.old) process (Op.Lock call) reply (table_of table.new)) }
    ensures goes_on { IfOk result (GoesOn (table_of table.old) process (Op.Lock call)) }
{
    let target = match table.call_target(process, call) {
        Ok(target) => target,
        Err(refusal) => return Ok(refusal),
    };
    match (call.command, table.blocker(target, call.mode)) {
        (LockCommand::Set, Some(lock)) => Ok(Reply::Again(lock)),
        (LockCommand::Wait, Some(_)) => Ok(Reply::Interrupted),
        (LockCommand::Query, Some(lock)) => Ok(Reply::Blocked(lock)),
        (LockCommand::Query, None) => Ok(Reply::Free),
        (LockCommand::Set | LockCommand::Wait, None) => {
            table.lock_within(target, Some(call.mode))
        }
    }
}

// Unlocks a segment.
fn unlock(
    table: &mut FcntlTable,
    process: Process,
    fd: u8,
    kind: Kind,
    start: i64,
    len: i64,
) -> Result<Reply, AllocError>
    ensures { IfOk result (λ reply.
        Step (table_of table.old) process (Unlock fd kind start len) reply (table_of table.new)) }
{
    match table.target(process, None, fd, kind, start, len) {
        Ok(call) => table.lock_within(call, None),
        Err(refusal) => Ok(refusal),
    }
}
