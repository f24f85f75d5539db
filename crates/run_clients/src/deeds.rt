//! The deeds of lock calls. A function here that gives a `Result` answers `AllocError` where a request for memory was
//! refused.
ghost use Rattle.std.specs.Prelude.{◌≡◌, ◌++◌, ◌∷◌, [], OnOk};
ghost use Rattle.fcntl_table.specs.rule.Tables.{table_of};
ghost use Rattle.run_clients.specs.rule.Seen.{asking, denied, listed, lock_deed, locking, unlocking};

use crate::deed::Deed;
use client_history::{Act, ToldLock};
use fcntl_table::table::FcntlTable;
use intervals::span::Span;
use model::{LockCall, LockCommand, LockInfo, LockTarget, Mode, Op, Process, Reply};
use std::alloc::AllocError;

/// Adds the deed of a lock call with this reply, if it does or says something. There is none where the call is no
/// lock call, or its tests refuse it.
pub(crate) fn push_lock_deed(
    deeds: &mut Vec<Deed>,
    table: &FcntlTable,
    process: Process,
    op: &Op,
    reply: &Reply,
) -> Result<(), AllocError>
    ensures { OnOk result (deeds.new.items ≡ deeds.old.items ++ listed (lock_deed (table_of table.now) process op.now reply.now)) }
{
    match *op {
        Op::Lock(call) => push_commanded(deeds, table, process, call, reply),
        Op::Unlock {
            fd,
            kind,
            start,
            len,
        } => push_unlocking(
            deeds,
            reply,
            table.target(process, None, fd, kind, start, len),
        ),
        _ => Ok(()),
    }
}

// What a set, a wait or a query does that is answered so.
fn push_commanded(
    deeds: &mut Vec<Deed>,
    table: &FcntlTable,
    process: Process,
    call: LockCall,
    reply: &Reply,
) -> Result<(), AllocError>
    ensures { OnOk result (deeds.new.items ≡ deeds.old.items ++ listed (lock_deed (table_of table.now) process (Op.Lock call) reply.now)) }
{
    let target = table.call_target(process, call);
    match call.command {
        LockCommand::Set | LockCommand::Wait => push_locking(deeds, call.mode, reply, target),
        LockCommand::Query => push_asking(deeds, call.mode, reply, target),
    }
}

// What a set or a wait in the mode does that is answered so.
fn push_locking(
    deeds: &mut Vec<Deed>,
    mode: Mode,
    reply: &Reply,
    target: Result<LockTarget, Reply>,
) -> Result<(), AllocError>
    ensures { OnOk result (deeds.new.items ≡ deeds.old.items ++ listed (locking mode reply.now target)) }
{
    let Ok(target) = target else {
        return Ok(());
    };
    let span = target.span;
    match *reply {
        Reply::Done => push(deeds, target, Act::Locks { mode, span }),
        Reply::Again(lock) => push(deeds, target, denied(mode, span, lock)),
        _ => Ok(()),
    }
}

// Adds the deed of an unlock with this reply, if it has one.
fn push_unlocking(
    deeds: &mut Vec<Deed>,
    reply: &Reply,
    target: Result<LockTarget, Reply>,
) -> Result<(), AllocError>
    ensures { OnOk result (deeds.new.items ≡ deeds.old.items ++ listed (unlocking reply.now target)) }
{
    let Ok(target) = target else {
        return Ok(());
    };
    let span = target.span;
    match *reply {
        Reply::Done => push(deeds, target, Act::Frees { span }),
        _ => Ok(()),
    }
}

// Adds the deed of a query for the mode with this reply, if it has one.
fn push_asking(
    deeds: &mut Vec<Deed>,
    mode: Mode,
    reply: &Reply,
    target: Result<LockTarget, Reply>,
) -> Result<(), AllocError>
    ensures { OnOk result (deeds.new.items ≡ deeds.old.items ++ listed (asking mode reply.now target)) }
{
    let Ok(target) = target else {
        return Ok(());
    };
    let span = target.span;
    match *reply {
        Reply::Free => push(deeds, target, Act::IsFree { mode, span }),
        Reply::Blocked(lock) => push(deeds, target, denied(mode, span, lock)),
        _ => Ok(()),
    }
}

// Adds the act on the target as a deed.
fn push(deeds: &mut Vec<Deed>, target: LockTarget, act: Act) -> Result<(), AllocError>
    ensures { OnOk result (deeds.new.items ≡ deeds.old.items ++ record { file = target.file; owner = target.owner; act = act } ∷ []) }
{
    deeds.push(Deed {
        file: target.file,
        owner: target.owner,
        act,
    })?;
    Ok(())
}

// The act of a call that the lock blocked, where the client was told all of the lock.
fn denied(mode: Mode, span: Span, lock: LockInfo) -> Act
    ensures { result ≡ denied mode span lock }
{
    Act::IsDenied {
        mode,
        span,
        told: ToldLock {
            mode: Some(lock.mode),
            span: Some(lock.span),
            owner: Some(lock.owner),
        },
    }
}
