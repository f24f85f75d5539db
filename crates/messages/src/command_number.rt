//! The numbers of commands, counted through all epochs of a token server.
ghost use Rattle.std.specs.Prelude.{◌≡◌, ◌≤◌, ◌+◌};
ghost use Rattle.messages.specs.rule.Shapes.{IsEpoch, IsCommand, before_epoch, epoch_of};

use std::marker::Model;

/// The greatest number that a command has within its epoch; the first is 1.
pub const GREATEST_NUMBER: u32 = 4_294_967_295;

/// The greatest number of epochs of a token server; they are numbered from 1.
pub const MOST_EPOCHS: u16 = 65_535;

/// How far the counts of two epochs are apart. No command has the first count of an epoch.
pub(crate) const NUMBERS: u64 = 4_294_967_296;

/// The number of a command of a token server to a node, counted through all epochs of the server.
/// Within each epoch the commands are numbered from 1 to 4,294,967,295.
#[derive(Clone, Copy, Debug, PartialEq, Eq, Hash)]
pub struct CommandNumber {
    count: u64,
}

impl Model for CommandNumber {
    ghost use Rattle.std.specs.Prelude.{ℕ};
    ghost use Rattle.messages.specs.rule.Shapes.{IsCommand};

    ghost Value = { ℕ };

    ghost view = { λ c. c.count };

    ghost invariant = { λ c. IsCommand c.count };

    ghost inverse = { λ n. record { count = n } };
}

impl CommandNumber {
    /// The command with the number `number`, from 1, in the epoch `epoch`, from 1.
    pub fn of(epoch: u16, number: u32) -> CommandNumber
        requires epoch_in { IsEpoch epoch }
        requires counted { 1 ≤ number }
        ensures { result ≡ before_epoch epoch + number }
    {
        CommandNumber {
            count: (epoch as u64 - 1) * NUMBERS + number as u64,
        }
    }

    /// The command with the count `count` through all epochs.
    pub fn counted(count: u64) -> CommandNumber
        requires { IsCommand count }
        ensures { result ≡ count }
    {
        CommandNumber { count }
    }

    /// The epoch of the command, from 1.
    pub fn epoch(self) -> u16
        ensures value { result ≡ epoch_of self }
        ensures within { IsEpoch result }
    {
        (self.count / NUMBERS + 1) as u16
    }

    /// The number of the command within its epoch, from 1.
    pub fn number(self) -> u32
        ensures value { before_epoch (epoch_of self) + result ≡ self }
        ensures counted { 1 ≤ result }
    {
        (self.count % NUMBERS) as u32
    }

    /// The count of the command through all epochs.
    pub fn get(self) -> u64
        ensures value { result ≡ self }
        ensures counted { IsCommand result }
    {
        self.count
    }
}
