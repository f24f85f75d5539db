//! The lines of scripts, and the commands that they give.
use model::Op;
use std::marker::Model;

/// The command of a line of a script.
#[derive(Clone, Copy, Debug, PartialEq, Eq)]
pub enum ScriptCommand {
    /// A process of a node makes a call.
    Call {
        node: u8,
        pid: u16,
        op: Op,
    },
    /// The wait of a process is interrupted.
    Interrupt {
        node: u8,
        pid: u16,
    },
    /// A node tries the open call of a process again.
    Retry {
        node: u8,
        pid: u16,
    },
    /// Messages are delivered in order of sending, also ones that are sent meanwhile, until each
    /// was delivered, lost or passed over by some line. A message whose delivery is refused is
    /// passed over.
    Settle,
    /// The message with this number, from 1 in the order of sending, is delivered.
    Deliver {
        message: u32,
    },
    /// The message with this number, from 1 in the order of sending, is lost: `settle` doesn't
    /// deliver it.
    Lose {
        message: u32,
    },
    /// The server of a file sends again each message that has no answer yet.
    Resend {
        file: u16,
    },
    /// A node is declared failed.
    Declare {
        node: u8,
    },
    /// A node that was declared failed begins again, in its next incarnation.
    Restart {
        node: u8,
    },
    /// The server of a file is declared failed.
    FailServer {
        file: u16,
    },
    /// The server of a file that was declared failed is rebuilt, in its next epoch.
    StartServer {
        file: u16,
    },
    /// The server of a file learns that an incarnation of a node was declared failed.
    Learn {
        file: u16,
        node: u8,
        incarnation: u16,
    },
}

impl ScriptCommand {
    ghost use Rattle.std.specs.Prelude.{◌≡◌};
    ghost use Rattle.lockscript.specs.rule.ThreadLines.{is_for_threads};

    /// Whether a script for threads may have a line with this command: a call, `settle`, `declare`,
    /// `restart`, `fail-server` or `start-server`. On threads no line says which message is
    /// delivered or lost, or when.
    pub fn is_for_threads(&self) -> bool
        ensures { result ≡ is_for_threads self.now }
    {
        matches!(
            self,
            ScriptCommand::Call { .. }
                | ScriptCommand::Settle
                | ScriptCommand::Declare { .. }
                | ScriptCommand::Restart { .. }
                | ScriptCommand::FailServer { .. }
                | ScriptCommand::StartServer { .. }
        )
    }
}

/// A line of a script with a command: its number in the text, from 1, and the command. The numbers
/// in the command are within their limits: nodes 1 to 64, processes 1 to 256, files 1 to 256,
/// messages 1 to 4294967295, incarnations 1 to 65535.
#[derive(Clone, Copy, Debug, PartialEq, Eq)]
pub struct ScriptLine {
    number: u32,
    command: ScriptCommand,
}

impl Model for ScriptLine {
    ghost use Rattle.lockscript.specs.rule.Scripts.{LineFields, IsLine};

    ghost Value = { LineFields };

    ghost view = { λ l. record { number = l.number; command = l.command } };

    ghost invariant = { λ l. IsLine (record { number = l.number; command = l.command }) };

    ghost inverse = { λ l. record { number = l.number; command = l.command } };
}

impl ScriptLine {
    ghost use Rattle.std.specs.Prelude.{◌≡◌, ◌≤◌};
    ghost use Rattle.model.specs.rule.Limits.{IsNumber};
    ghost use Rattle.lockscript.specs.rule.Scripts.{IsCommand, greatest_line};

    /// The line with this number and this command.
    pub(crate) fn new(number: u32, command: ScriptCommand) -> ScriptLine
        requires counted { 1 ≤ number }
        requires within { IsCommand command }
        ensures { result ≡ record { number = number; command = command } }
    {
        ScriptLine { number, command }
    }

    /// The number of the line in the text, from 1.
    pub fn number(&self) -> u32
        ensures value { result ≡ self.now.number }
        ensures counted { IsNumber greatest_line result }
    {
        self.number
    }

    /// The command of the line.
    pub fn command(&self) -> ScriptCommand
        ensures value { result ≡ self.now.command }
        ensures within { IsCommand result }
    {
        self.command
    }
}
