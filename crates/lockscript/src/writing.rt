//! Writes the commands of lines of scripts.
//!
//! Each function here that can fail errs with `AllocError`, where a request for memory was refused.
ghost use Rattle.std.specs.Prelude.{◌≡◌, ◌++◌, string_bytes, OnOk};
ghost use Rattle.lockscript.specs.rule.Scripts.{command_text};

use crate::operations::Operation;
use crate::script_line::ScriptCommand;
use std::alloc::AllocError;
use std::fmt::Write;
use texts::text::Text;

/// Adds the text of a command, without a line feed.
pub fn push_command(out: &mut String, command: &ScriptCommand) -> Result<(), AllocError>
    ensures { OnOk result (string_bytes out.new ≡ string_bytes out.old ++ command_text command.now) }
{
    match command {
        ScriptCommand::Call { node, pid, op } => {
            write!(out, "call {node} {pid} ")?;
            Operation::write(op, out)
        }
        ScriptCommand::Interrupt { node, pid } => write!(out, "interrupt {node} {pid}"),
        ScriptCommand::Retry { node, pid } => write!(out, "retry {node} {pid}"),
        ScriptCommand::Settle => out.push_str("settle"),
        ScriptCommand::Deliver { message } => write!(out, "deliver {message}"),
        ScriptCommand::Lose { message } => write!(out, "lose {message}"),
        ScriptCommand::Resend { file } => write!(out, "resend {file}"),
        ScriptCommand::Declare { node } => write!(out, "declare {node}"),
        ScriptCommand::Restart { node } => write!(out, "restart {node}"),
        ScriptCommand::FailServer { file } => write!(out, "fail-server {file}"),
        ScriptCommand::StartServer { file } => write!(out, "start-server {file}"),
        ScriptCommand::Learn {
            file,
            node,
            incarnation,
        } => write!(out, "learn {file} {node} {incarnation}"),
    }
}
