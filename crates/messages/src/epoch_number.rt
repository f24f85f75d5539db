//! The counts after which the commands of an epoch begin.
ghost use Rattle.std.specs.Prelude.{◌≡◌, ◌≤◌};
ghost use Rattle.messages.specs.rule.Shapes.{most_epochs, before_epoch, epoch_of, IsRebuilt};

use crate::command_number::NUMBERS;
use std::marker::Model;

/// The count after which the commands of a rebuilt server's epoch, 2 to 65,535, begin.
#[derive(Clone, Copy, PartialEq, Eq, Hash)]
pub struct EpochNumber {
    count: u64,
}

impl Model for EpochNumber {
    ghost use Rattle.std.specs.Prelude.{ℕ};
    ghost use Rattle.messages.specs.rule.Shapes.{IsRebuilt};

    ghost Value = { ℕ };

    ghost view = { λ e. e.count };

    ghost invariant = { λ e. IsRebuilt e.count };

    ghost inverse = { λ n. record { count = n } };
}

impl EpochNumber {
    /// The count after which the commands of the epoch begin.
    pub fn of(epoch: u16) -> EpochNumber
        requires least { 2 ≤ epoch }
        requires most { epoch ≤ most_epochs }
        ensures { result ≡ before_epoch epoch }
    {
        EpochNumber {
            count: (epoch as u64 - 1) * NUMBERS,
        }
    }

    /// The epoch whose commands begin after the count, 2 to 65,535.
    pub fn epoch(self) -> u16
        ensures value { result ≡ epoch_of self }
        ensures begins { before_epoch result ≡ self }
        ensures least { 2 ≤ result }
        ensures most { result ≤ most_epochs }
    {
        (self.count / NUMBERS + 1) as u16
    }

    /// The count.
    pub fn get(self) -> u64
        ensures value { result ≡ self }
        ensures begins { IsRebuilt result }
    {
        self.count
    }
}
