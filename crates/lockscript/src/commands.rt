//! Reads the commands of the lines of scripts.
ghost use Rattle.texts.specs.rule.Reads.{Reads};
ghost use Rattle.lockscript.specs.rule.Scripts.{IsCommand, command_text};

use crate::operations::Operation;
use crate::script_line::ScriptCommand;
use crate::script_line::ScriptCommand::{
    Call, Declare, Deliver, FailServer, Interrupt, Learn, Lose, Resend, Restart, Retry, Settle,
    StartServer,
};
use message_text::{Counted, FileField, IncarnationField, NodeField, PidField};
use texts::text::{Text, split_field};

/// The operands of `call`: `N PID OP`.
type CallLineFields = (NodeField, (PidField, Operation));

/// The operands of `interrupt` and `retry`: `N PID`.
type ProcessLineFields = (NodeField, PidField);

/// The operands of `learn`: `F N I`.
type LearnLineFields = (FileField, (NodeField, IncarnationField));

/// The command of the line; `None` if the line isn't one of `call N PID OP`, `interrupt N PID`,
/// `retry N PID`, `settle`, `deliver K`, `lose K`, `resend F`, `declare N`, `restart N`,
/// `fail-server F`, `start-server F` and `learn F N I`.
pub fn command_of(line: &str) -> Option<ScriptCommand>
    ensures { Reads command_text IsCommand line.now result }
{
    match split_field(line) {
        Some((word, operands)) => match word {
            "call" => CallLineFields::read(operands).map(|(node, (pid, op))| Call {
                node,
                pid,
                op,
            }),
            "interrupt" => ProcessLineFields::read(operands).map(|(node, pid)| Interrupt {
                node,
                pid,
            }),
            "retry" => ProcessLineFields::read(operands).map(|(node, pid)| Retry { node, pid }),
            "deliver" => Counted::read(operands).map(|message| Deliver { message }),
            "lose" => Counted::read(operands).map(|message| Lose { message }),
            "resend" => FileField::read(operands).map(|file| Resend { file }),
            "declare" => NodeField::read(operands).map(|node| Declare { node }),
            "restart" => NodeField::read(operands).map(|node| Restart { node }),
            "fail-server" => FileField::read(operands).map(|file| FailServer { file }),
            "start-server" => FileField::read(operands).map(|file| StartServer { file }),
            "learn" => LearnLineFields::read(operands).map(|(file, (node, incarnation))| Learn {
                file,
                node,
                incarnation,
            }),
            _ => None,
        },
        None => match line {
            "settle" => Some(Settle),
            _ => None,
        },
    }
}
