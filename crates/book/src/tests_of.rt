//! The tests that a commit makes.
ghost use Rattle.std.specs.Prelude.{◌≡◌, ◌<◌, ◌≤◌, ◌≢◌, ◌↔◌, Err, IsTrue, MatchResult, option_copied};
ghost use Rattle.cluster_core.specs.rule.Parts.{world_state};
ghost use Rattle.book.specs.rule.Commits.{Names, Accepts, Refuses, seen_at};
ghost use Rattle.book.specs.rule.States.{seat_state, IsLevel, HasState};
ghost use Rattle.book.specs.code.Copies.{AreReached};

use crate::{CommitError, LastSpots, Mark, Name, Prepared, Seat};
use cluster_core::{JOURNAL_LIMIT, Run, World};

/// The position of the mark, 0 for none.
pub(crate) fn seen_of(seen: Option<&Mark>) -> u32
    ensures { result ≡ seen_at (option_copied seen.entry) }
{
    match seen {
        Some(mark) => mark.position(),
        None => 0,
    }
}

// Whether the seat's actor is alive in the world and in the seat's state. The spots tell it, or a comparison of
// states does.
fn stands<J: Name>(spots: &LastSpots<J>, seat: &Seat<J>, world: &World) -> bool
    requires reached { AreReached (world_state world.now) spots.now }
    requires level { IsLevel seat.now }
    ensures { IsTrue result ↔ HasState (world_state world.now) (seat_state seat.now) }
{
    if let (Some(last), Some(spot)) = (spots.at(seat.actor()), seat.spot()) {
        if last.is_at(spot) {
            return true;
        }
    }
    seat.standing().stands_in(world)
}

/// Whether the run may go on by the step of the seat, whose actor has seen the journal up to that position.
///
/// # Errors
/// Those of `Book::commit` but `NoMemory`, in their order.
pub(crate) fn accepts<J: Name>(
    run: &Run,
    spots: &LastSpots<J>,
    seat: &Seat<J>,
    prepared: &Prepared,
    seen: u32,
) -> Result<(), CommitError>
    requires reached { AreReached (world_state run.now.world) spots.now }
    requires level { Names prepared.now seat.now → IsLevel seat.now }
    ensures tests { MatchResult result (λ _. Accepts run.now seat.now prepared.now seen) (λ e. Refuses run.now seat.now prepared.now seen e) }
    ensures definite { result ≢ Err CommitError.NoMemory }
{
    if run.len() >= JOURNAL_LIMIT {
        return Err(CommitError::JournalFull);
    }
    if !prepared.names(seat) {
        return Err(CommitError::Stale);
    }
    let world = run.world();
    if !world.knows(prepared.event()) {
        return Err(CommitError::Stranger);
    }
    if seat.standing().is_declared_in(world) {
        return Err(CommitError::Fenced);
    }
    if !stands(spots, seat, world) || run.len() < seen {
        return Err(CommitError::Stale);
    }
    Ok(())
}
