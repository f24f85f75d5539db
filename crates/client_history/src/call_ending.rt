//! The step of the search at the end of a call. A function here that gives a `Result` answers `AllocError` where a
//! request for memory was refused.
ghost use Rattle.std.specs.Prelude.{◌≡◌, ◌<◌, ◌⊎◌, IfOk, length};
ghost use Rattle.client_history.specs.code.Search.{HasAll, HasNext, GoesOn, GoesOnFrom, AreSettled, AreTaken};

use crate::first_calls::first_calls;
use crate::{OpenClientCall, Paths, SearchFront, add_front};
use std::alloc::{AllocError, Global};

/// The end of a call: the calls that are open then, and the one that ends.
#[derive(Clone, Copy)]
pub(crate) struct CallEnding<'a> {
    pub alloc: Global,
    pub open: &'a [OpenClientCall],
    pub end: usize,
}

// Adds the front that the call leads to from this one, if the table allows the call.
fn go(
    ending: &CallEnding,
    front: SearchFront,
    call: &OpenClientCall,
    paths: &mut Paths,
    queue: &mut Vec<SearchFront>,
) -> Result<(), AllocError>
    ensures kept { HasAll queue.old.items queue.new.items }
    ensures goes { IfOk result (λ _. HasNext ending.now.open.now front call.now queue.new.items) }
{
    let mut next = front;
    if next.take(call, paths)? {
        next.ask_all(ending.open, paths)?;
        add_front(queue, next)?;
    }
    Ok(())
}

// Adds the fronts that the first calls lead to from this one.
fn branch(
    ending: &CallEnding,
    front: SearchFront,
    paths: &mut Paths,
    queue: &mut Vec<SearchFront>,
) -> Result<(), AllocError>
    ensures kept { HasAll queue.old.items queue.new.items }
    ensures goes { IfOk result (λ _. GoesOnFrom ending.now.open.now front ending.now.end queue.new.items) }
{
    let first = first_calls(
        ending.alloc,
        &front.table,
        ending.open,
        &front.taken,
        ending.end,
    )?;
    let Some((last, others)) = first.split_last() else {
        return Ok(());
    };
    for call in others {
        let next = front.copy()?;
        go(ending, next, call, paths, queue)?;
    }
    go(ending, front, last, paths, queue)
}

// Goes on from each front of the layer that has not taken the call, while steps are left. Gives the fronts that come
// next; those that took the call are done.
fn go_on(
    ending: &CallEnding,
    layer: Vec<SearchFront>,
    paths: &mut Paths,
    left: &mut u64,
    done: &mut Vec<SearchFront>,
) -> Result<Vec<SearchFront>, AllocError>
    ensures less { 0 < length layer.items → left.old ≡ 0 ⊎ left.new < left.old }
    ensures taken { IfOk result (λ _. AreTaken ending.now.end done.old.items → AreTaken ending.now.end done.new.items) }
    ensures goes { IfOk result (λ next. 0 < left.new → GoesOn ending.now.open.now ending.now.end layer.items done.old.items next.items done.new.items) }
{
    let mut layer = layer;
    let mut next = Vec::new(ending.alloc);
    while let Some(front) = layer.pop() {
        if *left == 0 {
            break;
        }
        *left -= 1;
        if front.taken.contains(&ending.end) {
            add_front(done, front)?;
        } else {
            branch(ending, front, paths, &mut next)?;
        }
    }
    Ok(next)
}

/// Makes the call end: goes on from each front until it has taken the call, while steps are left. Each front takes
/// one step.
pub(crate) fn settle(
    ending: &CallEnding,
    fronts: Vec<SearchFront>,
    paths: &mut Paths,
    left: &mut u64,
) -> Result<Vec<SearchFront>, AllocError>
    ensures { IfOk result (λ done. 0 < left.new → AreSettled ending.now.open.now ending.now.end fronts.items done.items) }
{
    let mut layer = fronts;
    let mut done = Vec::new(ending.alloc);
    while *left > 0 && !layer.is_empty() {
        layer = go_on(ending, layer, paths, left, &mut done)?;
    }
    Ok(done)
}
