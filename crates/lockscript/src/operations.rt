//! Operations in scripts.
ghost use Rattle.std.specs.Prelude.{◌≡◌, ◌∷◌, ◌++◌, string_bytes, OnOk};
ghost use Rattle.texts.specs.rule.Layout.{space};
ghost use Rattle.texts.specs.rule.Reads.{Lacks, Reads};
ghost use Rattle.lockscript.specs.rule.Served.{IsServedOp};
ghost use Rattle.lockscript.specs.rule.Texts.{lock_of, op_text};

use message_text::{DescriptorField, FileField, PidField, push};
use model::{Access, Kind, LockCall, LockCommand, Mode, Op, ProcessCall};
use std::alloc::AllocError;
use texts::text::{Text, split_field};

/// The operands of `open`: `FILE ACCESS`.
type OpenOperands = (FileField, Access);

/// A segment: `START LEN`.
type Segment = (i64, i64);

/// The operands of `set`, `wait` and `query`: `FD KIND MODE START LEN`.
type AskedLock = (DescriptorField, (Kind, (Mode, Segment)));

/// The operands of `unlock`: `FD KIND START LEN`.
type Unlocked = (DescriptorField, (Kind, Segment));

/// An operation, with its operands.
pub struct Operation;

impl Text for Operation {
    type Value = Op;

    ghost text_of = { op_text };

    ghost is_served = { IsServedOp };

    fn read(text: &str) -> Option<Op> {
        match split_field(text) {
            Some((word, operands)) => op_with(word, operands),
            None => match text {
                "spawn" => Some(Op::Process(ProcessCall::Spawn)),
                "exit" => Some(Op::Exit),
                _ => None,
            },
        }
    }

    fn write(value: &Op, out: &mut String) -> Result<(), AllocError> {
        match *value {
            Op::Process(call) => write_process_call(call, out),
            Op::Close { fd } => push::<DescriptorField>(out, "close ", &fd),
            Op::Exit => out.push_str("exit"),
            Op::Lock(call) => write_lock_call(call, out),
            Op::Unlock {
                fd,
                kind,
                start,
                len,
            } => push::<Unlocked>(out, "unlock ", &(fd, (kind, (start, len)))),
        }
    }
}

// Writes a call about processes and descriptors alone.
fn write_process_call(call: ProcessCall, out: &mut String) -> Result<(), AllocError>
    ensures { OnOk result (string_bytes out.new ≡ string_bytes out.old ++ op_text (Op.Process call)) }
{
    match call {
        ProcessCall::Spawn => out.push_str("spawn"),
        ProcessCall::Fork { child } => push::<PidField>(out, "fork ", &child),
        ProcessCall::Open { file, access } => push::<OpenOperands>(out, "open ", &(file, access)),
        ProcessCall::Dup { fd } => push::<DescriptorField>(out, "dup ", &fd),
    }
}

// Writes a call about a lock.
fn write_lock_call(call: LockCall, out: &mut String) -> Result<(), AllocError>
    ensures { OnOk result (string_bytes out.new ≡ string_bytes out.old ++ op_text (Op.Lock call)) }
{
    let asked = (call.fd, (call.kind, (call.mode, (call.start, call.len))));
    match call.command {
        LockCommand::Set => push::<AskedLock>(out, "set ", &asked),
        LockCommand::Wait => push::<AskedLock>(out, "wait ", &asked),
        LockCommand::Query => push::<AskedLock>(out, "query ", &asked),
    }
}

// The call of the command about this lock.
fn lock_of(command: LockCommand, asked: (u8, (Kind, (Mode, Segment)))) -> Op
    ensures { result ≡ lock_of command asked }
{
    let (fd, (kind, (mode, (start, len)))) = asked;
    Op::Lock(LockCall {
        command,
        fd,
        kind,
        mode,
        start,
        len,
    })
}

// The operation of this word, with these operands.
fn op_with(word: &str, operands: &str) -> Option<Op>
    requires { Lacks space word.now }
    ensures { Reads op_text IsServedOp (word.now ++ space ∷ operands.now) result }
{
    match word {
        "fork" => { PidField::read(operands).map(|child| Op::Process(ProcessCall::Fork { child })) }
        "open" => OpenOperands::read(operands).map(|(file, access)| Op::Process(ProcessCall::Open {
            file,
            access,
        })),
        "dup" => DescriptorField::read(operands).map(|fd| Op::Process(ProcessCall::Dup { fd })),
        "close" => DescriptorField::read(operands).map(|fd| Op::Close { fd }),
        "set" => AskedLock::read(operands).map(|asked| lock_of(LockCommand::Set, asked)),
        "wait" => AskedLock::read(operands).map(|asked| lock_of(LockCommand::Wait, asked)),
        "unlock" => Unlocked::read(operands).map(|(fd, (kind, (start, len)))| Op::Unlock {
            fd,
            kind,
            start,
            len,
        }),
        "query" => AskedLock::read(operands).map(|asked| lock_of(LockCommand::Query, asked)),
        _ => None,
    }
}
