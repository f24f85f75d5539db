//! The commands that a token server sent to one node.
ghost use Rattle.std.specs.Prelude.{◌≡◌, ◌≤◌, ◌+◌, ◌↔◌, IsTrue, Some, None};
ghost use Rattle.messages.specs.rule.Shapes.{IsEpoch, before_epoch};
ghost use Rattle.messages.specs.declared.message.Message.TheVariants.{Hello};
ghost use Rattle.token_server.specs.rule.Rows.{is_hello};
ghost use Rattle.token_server.specs.code.Rows.{awaiting, next_number, told_commands, answered_commands};

use crate::known_nodes::server_command::{Order, ServerCommand};
use messages::{CommandNumber, EpochNumber, FileNumber, GREATEST_NUMBER, StepError};
use model::Host;
use std::marker::Model;

/// The commands to a node in one incarnation (from 1): the number of the last one sent (before the first, the epoch's
/// base: the number after which its commands begin), and that command while no answer has come.
#[derive(Clone, Copy)]
pub struct Commands {
    pub incarnation: u16,
    pub number: u64,
    pub outstanding: Option<ServerCommand>,
}

impl Model for Commands {
    ghost use Rattle.std.specs.Prelude.{◌≤◌};
    ghost use Rattle.token_server.specs.rule.Rows.{Commands as Fields};

    ghost Value = { Fields };

    ghost view = { λ c. record { incarnation = c.incarnation; number = c.number; outstanding = c.outstanding } };

    ghost invariant = { λ c. 1 ≤ c.incarnation };

    ghost inverse = { λ v. record { incarnation = v.incarnation; number = v.number; outstanding = v.outstanding } };
}

/// The base of an epoch (from 1): the number after which its commands begin.
pub fn before_epoch(epoch: u16) -> u64
    requires { IsEpoch epoch }
    ensures { result ≡ before_epoch epoch }
{
    CommandNumber::of(epoch, 1).get() - 1
}

impl Commands {
    /// No command has been sent to that incarnation (from 1): the first comes after that number.
    pub fn new(incarnation: u16, number: u64) -> Commands
        requires { 1 ≤ incarnation }
        ensures { result ≡ record { incarnation = incarnation; number = number; outstanding = None } }
    {
        Commands {
            incarnation,
            number,
            outstanding: None,
        }
    }

    /// The node was sent a Hello by a server that was rebuilt. Later commands come after that number.
    pub fn asking(file: FileNumber, number: EpochNumber, holder: Host) -> Commands
        ensures { result ≡ record { incarnation = holder.incarnation; number = number; outstanding = Some (Hello file number holder) } }
    {
        let hello = Order::Hello { number, holder };
        Commands {
            incarnation: holder.incarnation,
            number: number.get(),
            outstanding: Some(ServerCommand::of(file, hello)),
        }
    }

    /// The incarnation of the node, from 1.
    pub fn incarnation(&self) -> u16
        ensures value { result ≡ self.now.incarnation }
        ensures counted { 1 ≤ result }
    {
        self.incarnation
    }

    /// The number of the next command in the epoch, or `None` where a command has no answer yet.
    ///
    /// # Errors
    /// `Spent` where the next number would be past 4,294,967,295 in the epoch.
    pub fn next_number(&self, epoch: u16) -> Result<Option<CommandNumber>, StepError>
        requires epoch_in { IsEpoch epoch }
        requires counted { self.now.outstanding ≡ None → before_epoch epoch ≤ self.now.number }
        ensures { result ≡ next_number (before_epoch epoch) self.now }
    {
        if self.outstanding.is_some() {
            return Ok(None);
        }
        let sent = self.number - before_epoch(epoch);
        if sent >= GREATEST_NUMBER as u64 {
            return Err(StepError::Spent);
        }
        Ok(Some(CommandNumber::of(epoch, sent as u32 + 1)))
    }

    /// Whether the node was asked for its token and has not answered.
    pub fn is_asked(&self) -> bool
        ensures { result ≡ is_hello self.now.outstanding }
    {
        self.outstanding.is_some_and(|command| command.is_hello())
    }

    /// The commands after the outstanding one is answered.
    pub fn answered(self) -> Commands
        ensures { result ≡ answered_commands self }
    {
        Commands {
            outstanding: None,
            ..self
        }
    }

    /// The commands after the next one, which has that number, is sent.
    pub fn told(self, number: CommandNumber, command: ServerCommand) -> Commands
        requires { number ≡ self.number + 1 }
        ensures { result ≡ told_commands command self }
    {
        Commands {
            incarnation: self.incarnation,
            number: number.get(),
            outstanding: Some(command),
        }
    }

    /// The commands with that one outstanding, and the same number.
    pub fn awaiting(self, command: ServerCommand) -> Commands
        ensures { result ≡ awaiting command self }
    {
        Commands {
            outstanding: Some(command),
            ..self
        }
    }

    /// Whether both are equal.
    pub fn same(&self, other: &Commands) -> bool
        ensures { IsTrue result ↔ (self.now ≡ other.now) }
    {
        if self.incarnation != other.incarnation || self.number != other.number {
            return false;
        }
        match (&self.outstanding, &other.outstanding) {
            (Some(command), Some(next)) => command.message().same(&next.message()),
            (None, None) => true,
            _ => false,
        }
    }
}
