//! The trail for a new book.
ghost use Rattle.std.specs.Prelude.{◌≡◌};

use crate::{Name, Standing, Trail, Unnamed};
use std::marker::Model;

/// An empty trail for a new book. With a trail, a book tells by comparing two numbers that a seat is up to date. The
/// name ties a seat to its book's trail, in proofs only. Making one takes no memory.
#[derive(Drop)]
pub struct NewTrail {
    states: Unnamed<Standing>,
}

impl Model for NewTrail {
    ghost use Rattle.logbook.specs.Pages.{Book};

    ghost Value = { Book };

    ghost view = { λ t. t.states };
}

impl NewTrail {
    /// A new trail, without a name.
    pub fn new() -> NewTrail {
        NewTrail {
            states: Unnamed::new(),
        }
    }

    /// The trail under the name that the caller picked for it.
    pub(crate) fn named<J: Name>(self) -> Trail<J, Standing>
        requires { self ≡ J.trail }
    {
        self.states.named()
    }
}
