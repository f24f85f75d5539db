//! A trail without a name.
ghost use Rattle.std.specs.Prelude.{◌≡◌, []};

use crate::{Law, Name, Trail};
use logbook::{Seen, Start, Word};
use std::marker::Model;

/// An empty trail that has no name yet. Contracts see which trail it is.
#[derive(Drop)]
pub struct Unnamed<E> {
    head: Word<E, u64, Law>,
    seen: Seen<E, u64, Law>,
}

impl<E> Model for Unnamed<E> {
    ghost use Rattle.std.specs.Prelude.{◌≡◌, []};
    ghost use Rattle.logbook.specs.Pages.{Book};
    ghost use Rattle.book.specs.rule.Trails.{head_of};

    ghost Value = { Book };

    ghost view = { λ u. u.seen.book };

    ghost invariant = { λ u. (u.seen.log ≡ []) × (u.head ≡ head_of u.seen.book) };
}

impl<E> Unnamed<E> {
    /// A new empty trail.
    pub fn new() -> Unnamed<E> {
        let (seen, mut first, _second) = Seen::open(Start::alone(), 0, 0);
        Unnamed {
            head: Word::tracked(0, &mut first),
            seen,
        }
    }

    /// The trail under the name that the caller picked for it.
    pub fn named<J: Name>(self) -> Trail<J, E>
        requires { self ≡ J.trail }
        ensures { result ≡ [] }
    {
        let Unnamed { head, seen } = self;
        Trail::new(head, seen)
    }
}
