//! The line of a call in a client history.
use crate::answer_time::AnswerTime;
use crate::file_call::FileCall;
use client_history::{Act, ToldLock};
use intervals::span::{GREATEST, Span};
use model::{Kind, LockCommand, Mode, Op, Owner};
use std::alloc::AllocError;
use std::fmt::Write;
use texts::words::Named;

/// Writes `call BEGIN END OWNER OP -> REPLY`, or, where no reply is known, `call BEGIN - OWNER OP`.
///
/// # Errors
/// `AllocError` where a request for memory was refused.
pub(crate) fn push_call(out: &mut String, call: &FileCall) -> Result<(), AllocError> {
    push_times(out, call.begin, call.end)?;
    push_client(out, &call.owner)?;
    push_asked(out, call.file, &call.op, &call.act)?;
    if let AnswerTime::At(_) = call.end {
        push_answer(out, &call.op, &call.act)?;
    }
    out.push_str("\n")
}

fn push_times(out: &mut String, begin: u64, end: AnswerTime) -> Result<(), AllocError> {
    match end {
        AnswerTime::At(end) => write!(out, "call {begin} {end} "),
        AnswerTime::Never => write!(out, "call {begin} - "),
    }
}

// Writes the owner as `N.I.pPID` or `N.I.dNUMBER`: an `@` would stand before the name of a machine.
fn push_client(out: &mut String, owner: &Owner) -> Result<(), AllocError> {
    let Owner {
        node,
        incarnation,
        kind,
        number,
    } = *owner;
    let letter = match kind {
        Kind::OfProcess => "p",
        Kind::OfDescription => "d",
    };
    write!(out, "{node}.{incarnation}.{letter}{number}")
}

// Writes the operation of the call.
fn push_asked(out: &mut String, file: u16, op: &Op, act: &Act) -> Result<(), AllocError> {
    match act {
        Act::Locks { mode, span } | Act::IsDenied { mode, span, .. } | Act::IsFree { mode, span } =>
            {
                let verb = verb_of(op);
                let mode = Mode::word(*mode);
                write!(out, " {verb} {file} {mode}")?;
                push_segment(out, span)
            }
        Act::Frees { span } => {
            write!(out, " unlock {file}")?;
            push_segment(out, span)
        }
        Act::Drops => write!(out, " close {file}"),
    }
}

// The word of a set, a wait or a query.
fn verb_of(op: &Op) -> &'static str {
    match op {
        Op::Lock(call) => match call.command {
            LockCommand::Set => "set",
            LockCommand::Wait => "wait",
            LockCommand::Query => "query",
        },
        _ => "set",
    }
}

// Writes the reply to the call.
fn push_answer(out: &mut String, op: &Op, act: &Act) -> Result<(), AllocError> {
    match act {
        Act::Locks { .. } | Act::Frees { .. } | Act::Drops => out.push_str(" -> done"),
        Act::IsFree { .. } => out.push_str(" -> free"),
        Act::IsDenied { told, .. } => {
            let word = denial_of(op);
            write!(out, " -> {word}")?;
            push_told(out, told)
        }
    }
}

// The word of a denial.
fn denial_of(op: &Op) -> &'static str {
    match op {
        Op::Lock(call) if call.command == LockCommand::Query => "blocked",
        _ => "again",
    }
}

// Writes the lock that the reply names, if it names all of it.
fn push_told(out: &mut String, told: &ToldLock) -> Result<(), AllocError> {
    let (Some(mode), Some(span), Some(owner)) = (told.mode, told.span, told.owner) else {
        return Ok(());
    };
    let mode = Mode::word(mode);
    write!(out, " {mode}")?;
    push_segment(out, &span)?;
    out.push_str(" ")?;
    push_client(out, &owner)
}

// Writes ` START LEN`; LEN is 0 where the span has the greatest byte that a file can have.
fn push_segment(out: &mut String, span: &Span) -> Result<(), AllocError> {
    let start = span.lo;
    let len = if span.hi == GREATEST {
        0
    } else {
        span.hi - span.lo + 1
    };
    write!(out, " {start} {len}")
}
