//! The numbers of files, as a type that admits no other numbers.
ghost use Rattle.std.specs.Prelude.{◌≡◌, ◌↔◌, IfSome, IsSome};
ghost use Rattle.model.specs.rule.Limits.{IsNumber};
ghost use Rattle.messages.specs.rule.Shapes.{most_files};

use crate::shape::MOST_FILES;
use std::marker::Model;

/// The number of a file: 1 to 256.
#[derive(Clone, Copy, Debug, PartialEq, Eq, Hash)]
pub struct FileNumber {
    number: u16,
}

impl Model for FileNumber {
    ghost use Rattle.std.specs.Prelude.{ℕ};
    ghost use Rattle.model.specs.rule.Limits.{IsNumber};
    ghost use Rattle.messages.specs.rule.Shapes.{most_files};

    ghost Value = { ℕ };

    ghost view = { λ f. f.number };

    ghost invariant = { λ f. IsNumber most_files f.number };

    ghost inverse = { λ n. record { number = n } };
}

impl FileNumber {
    /// The number of a file, if it is from 1 to 256; else `None`.
    pub fn new(number: u16) -> Option<FileNumber>
        ensures value { IfSome result (λ file. file ≡ number) }
        ensures served { IsSome result ↔ IsNumber most_files number }
    {
        if number < 1 || number > MOST_FILES {
            return None;
        }
        Some(FileNumber { number })
    }

    /// The number of a file, known to be from 1 to 256.
    pub fn of(number: u16) -> FileNumber
        requires { IsNumber most_files number }
        ensures { result ≡ number }
    {
        FileNumber { number }
    }

    /// The number, 1 to 256.
    pub fn get(self) -> u16
        ensures value { result ≡ self }
        ensures within { IsNumber most_files result }
    {
        self.number
    }
}
