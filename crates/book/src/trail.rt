//! A trail: a list that only grows, of which the program keeps the length.
ghost use Rattle.std.specs.Prelude.{◌≡◌, ◌<◌, ◌≤◌, ◌^◌, ◌⊎◌, ◌++◌, ◌∷◌, [], length, Some, IfNone, IfSome};
ghost use Rattle.book.specs.rule.Trails.{head_of};

use crate::{Add, Law, Name, Nothing, Spot};
use logbook::{Offer, Seen, Word};
use std::marker::{Model, PhantomData};

// The length of a trail stays below this, so that numbers of places don't overflow.
const MOST: u64 = 1 << 62;

/// The right to append to a trail: what was seen of the list, and its length.
#[derive(Drop)]
pub struct Trail<J: Name, E> {
    head: Word<E, u64, Law>,
    seen: Seen<E, u64, Law>,
    len: u64,
    of: PhantomData<J>,
}

impl<J: Name, E> Model for Trail<J, E> {
    ghost use Rattle.std.specs.Prelude.{◌≡◌, length, List};
    ghost use Rattle.book.specs.rule.Trails.{head_of};

    ghost Value = { List E };

    ghost view = { λ t. t.seen.log };

    ghost invariant = { λ t. (t.len ≡ length t.seen.log) × (t.seen.book ≡ J.trail) × (t.head ≡ head_of J.trail) };
}

impl<J: Name, E> Trail<J, E> {
    pub(crate) fn new(head: Word<E, u64, Law>, seen: Seen<E, u64, Law>) -> Trail<J, E>
        requires book { seen.book ≡ J.trail }
        requires empty { seen.log ≡ [] }
        requires head { head ≡ head_of J.trail }
        ensures { result ≡ [] }
    {
        Trail {
            head,
            seen,
            len: 0,
            of: PhantomData,
        }
    }

    /// Appends an item, of which nothing is kept but the spot, which is given. `None` where the trail has 2^62 items.
    /// (The contract allows that another value has made the trail longer. None can.)
    pub fn push(&mut self, item: &E) -> Option<Spot<J, E>>
        ensures spot { IfSome result (λ spot. (spot.place ≡ length self.old) × (spot.item ≡ Some item.now)) }
        ensures put { IfSome result (λ _. self.new ≡ self.old ++ item.now ∷ []) }
        ensures none { IfNone result ((2 ^ 62 ≤ length self.old) ⊎ (length self.old < length self.new)) }
    {
        let place = self.len;
        if place >= MOST {
            return None;
        }
        let mut offer: Offer<E, u64, Law, Nothing> = self.seen.plain::<Nothing, E, Add>(item);
        let mut pen = self.seen.no_pen();
        let found = self
            .head
            .compare_exchange::<Add, Nothing>(
                place,
                place + 1,
                &mut self.seen,
                &mut offer,
                &mut pen,
            );
        if found != place {
            self.len = found;
            return None;
        }
        self.len = place + 1;
        Some(Spot::new(place, self.seen.again()))
    }
}
