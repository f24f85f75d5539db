//! What happens at a seat.
ghost use Rattle.std.specs.Prelude.{◌≡◌, ◌∷◌, [], IfOk};
ghost use Rattle.messages.specs.rule.Messages.{sending};
ghost use Rattle.seats.specs.rule.Steps.{of_member, step_of};

use messages::{Event, Items, MemberEvent, Outcome, Sends};
use std::alloc::{AllocError, Global};

/// A step of the seat's actor, or a change of a member: the event, the incarnation or epoch that its entry names (0 for none),
/// and what comes of it.
#[derive(Drop)]
pub struct SeatStep {
    pub event: Event,
    pub incarnation: u16,
    pub outcome: Outcome,
}

/// The one step at which this comes of the event.
pub(crate) fn one(
    alloc: Global,
    event: Event,
    incarnation: u16,
    outcome: Outcome,
) -> Result<Items<SeatStep>, AllocError>
    ensures { IfOk result (λ steps. steps ≡ step_of event incarnation outcome ∷ []) }
{
    let step = SeatStep {
        event,
        incarnation,
        outcome,
    };
    Items::one(alloc, step)
}

/// A member changes, and nothing is sent for it.
pub(crate) fn silent(
    alloc: Global,
    change: MemberEvent,
    incarnation: u16,
) -> Result<Items<SeatStep>, AllocError>
    ensures { IfOk result (λ steps. steps ≡ of_member change incarnation (sending []) ∷ []) }
{
    let outcome = Outcome::sending(Sends::nothing());
    one(alloc, Event::Member(change), incarnation, outcome)
}
