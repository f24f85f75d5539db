//! The spots of the actors' last states in a book's trail.
ghost use Rattle.std.specs.Prelude.{◌≡◌, IfOk, IfSome};
ghost use Rattle.book.specs.code.Copies.{IsLastSpot, IsSpotOf, Noted, Forgotten, place_of, AreReached};
ghost use Rattle.book.specs.rule.States.{standing_state};

use crate::{Name, Spot, Standing, Trail};
use messages::Actor;
use model::MOST_NODES;
use std::alloc::{AllocError, Global};
use std::marker::Model;

/// The trail of where the seats of a book stood behind each commit, and for each actor the spot of its last state, if it is known. A seat
/// whose state stands at that spot has the state of the book's copy, without a comparison of states.
#[derive(Drop)]
pub(crate) struct LastSpots<J: Name> {
    trail: Option<Trail<J, Standing>>,
    last: Vec<Option<Spot<J, Standing>>>,
}

impl<J: Name> Model for LastSpots<J> {
    ghost use Rattle.book.specs.code.Copies.{LastSpots};

    ghost Value = { LastSpots };

    ghost view = { λ s. s.last.items };
}

// The index of the actor among the spots.
fn place_of(actor: Actor) -> usize
    ensures { result ≡ place_of actor }
{
    match actor {
        Actor::Node(node) => usize::from(node),
        Actor::Server(file) => usize::from(MOST_NODES) + usize::from(file),
    }
}

impl<J: Name> LastSpots<J> {
    /// The spots of actors of which none is known yet. With a trail, those of all nodes and of that many token
    /// servers can become known.
    ///
    /// # Errors
    /// `AllocError` where a request for memory was refused.
    pub(crate) fn new(
        alloc: Global,
        trail: Option<Trail<J, Standing>>,
        files: u16,
    ) -> Result<LastSpots<J>, AllocError>
        ensures { (w : _) → IfOk result (λ spots. AreReached w spots) }
    {
        let mut last = Vec::new(alloc);
        if trail.is_some() {
            for _ in 0..place_of(Actor::Server(files)) + 1 {
                last.push(None)?;
            }
        }
        Ok(LastSpots { trail, last })
    }

    /// The spot of the actor's last state, if it is known.
    pub(crate) fn at(&self, actor: Actor) -> Option<&Spot<J, Standing>>
        ensures { IfSome result (λ spot. IsLastSpot self.now (place_of actor) spot.now) }
    {
        self.last.get(place_of(actor))?.as_ref()
    }

    /// Notes the new state of its actor. Gives the state's spot, if it can be known.
    pub(crate) fn note(&mut self, standing: &Standing) -> Option<Spot<J, Standing>>
        ensures spot { IfSome result (λ spot. IsSpotOf spot (standing_state standing.now)) }
        ensures noted { Noted self.old (standing_state standing.now) self.new }
    {
        let spot = match &mut self.trail {
            Some(trail) => trail.push(standing),
            None => None,
        };
        if let Some(last) = self.last.get_mut(place_of(standing.actor())) {
            *last = spot.as_ref().map(|spot| spot.again());
        }
        spot
    }

    /// Drops the actor's spot: its last state is known no longer.
    pub(crate) fn forget(&mut self, actor: Actor)
        ensures { Forgotten self.old actor self.new }
    {
        if let Some(last) = self.last.get_mut(place_of(actor)) {
            *last = None;
        }
    }
}
