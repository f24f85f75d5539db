//! A mark: a position of a journal up to which somebody has seen it.
ghost use Rattle.std.specs.Prelude.{◌≡◌};

use std::marker::Model;

/// A position in a journal, from 1. Only a stamp or a receipt makes one.
#[derive(Clone, Copy, Debug, PartialEq, Eq)]
pub struct Mark {
    position: u32,
}

impl Model for Mark {
    ghost use Rattle.std.specs.Prelude.{ℕ};

    ghost Value = { ℕ };

    ghost view = { λ m. m.position };

    ghost inverse = { λ n. record { position = n } };
}

impl Mark {
    /// The mark at that position, from 1.
    pub(crate) fn new(position: u32) -> Mark
        ensures { result ≡ position }
    {
        Mark { position }
    }

    /// The position, from 1.
    pub fn position(&self) -> u32
        ensures { result ≡ self.now }
    {
        self.position
    }
}
