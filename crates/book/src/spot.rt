//! A spot: a place of a trail, with what stands there.
ghost use Rattle.std.specs.Prelude.{◌≡◌, ◌<◌, ◌↔◌, length, slice_get, true, IsTrue};

use crate::{Law, Name};
use logbook::Seen;
use std::marker::{Model, PhantomData};

/// A place of a trail, from 0. Contracts see the place and the item that stands there.
#[derive(Drop)]
pub struct Spot<J: Name, E> {
    place: u64,
    seen: Seen<E, u64, Law>,
    of: PhantomData<J>,
}

impl<J: Name, E> Model for Spot<J, E> {
    ghost use Rattle.std.specs.Prelude.{◌≡◌, ◌<◌, length, slice_get};
    ghost use Rattle.book.specs.code.Copies.{SpotFields};

    ghost Value = { SpotFields E };

    ghost view = { λ s. record { place = s.place; item = slice_get s.seen.log s.place } };

    ghost invariant = { λ s. (s.place < length s.seen.log) × (s.seen.book ≡ J.trail) };
}

impl<J: Name, E> Spot<J, E> {
    pub(crate) fn new(place: u64, seen: Seen<E, u64, Law>) -> Spot<J, E>
        requires within { place < length seen.log }
        requires book { seen.book ≡ J.trail }
        ensures { result ≡ record { place = place; item = slice_get seen.log place } }
    {
        Spot {
            place,
            seen,
            of: PhantomData,
        }
    }

    /// A copy.
    pub fn again(&self) -> Spot<J, E>
        ensures { result ≡ self.now }
    {
        Spot {
            place: self.place,
            seen: self.seen.again(),
            of: PhantomData,
        }
    }

    /// Whether both are the same place of the trail. Then the same item stands there.
    pub fn is_at(&self, other: &Spot<J, E>) -> bool
        ensures places { IsTrue result ↔ (self.now.place ≡ other.now.place) }
        ensures items { result ≡ true → self.now.item ≡ other.now.item }
    {
        let mut both = self.seen.again();
        both.learn(&other.seen);
        self.place == other.place
    }
}
