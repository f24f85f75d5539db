//! The fronts that the search has reached by different ways. A function here that gives a `Result` answers
//! `AllocError` where a request for memory was refused.
ghost use Rattle.std.specs.Prelude.{◌≡◌, IfOk, IsTrue, length};
ghost use Rattle.client_history.specs.code.Search.{HasAll, HasOnly, HasEqual, AreAskedFor};

use crate::{OpenClientCall, Paths, SearchFront};
use std::alloc::AllocError;

// Whether one of the fronts took the same calls and has the same locks.
fn has_same(fronts: &[SearchFront], front: &SearchFront) -> bool
    ensures { IsTrue result → HasEqual fronts.now front.now }
{
    for other in fronts {
        if other.same(front) {
            return true;
        }
    }
    false
}

/// Adds the front, unless an equal one is in the list.
pub(crate) fn add_front(fronts: &mut Vec<SearchFront>, front: SearchFront) -> Result<(), AllocError>
    ensures kept { HasAll fronts.old.items fronts.new.items }
    ensures only { HasOnly fronts.old.items front fronts.new.items }
    ensures there { IfOk result (λ _. HasEqual fronts.new.items front) }
{
    if has_same(fronts, &front) {
        return Ok(());
    }
    fronts.push(front)?;
    Ok(())
}

/// Takes the call at each front, if it only asks, is left, and the table allows it.
pub(crate) fn ask_each(
    fronts: &mut [SearchFront],
    call: &OpenClientCall,
    paths: &mut Paths,
) -> Result<(), AllocError>
    ensures len { length fronts.new ≡ length fronts.old }
    ensures asked { IfOk result (λ _. AreAskedFor call.now fronts.old fronts.new) }
{
    for front in fronts.iter_mut() {
        front.ask(call, paths)?;
    }
    Ok(())
}
