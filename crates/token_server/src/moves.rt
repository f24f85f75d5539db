//! The moves of requests between a token server's queue and those that wait. None of them takes memory.
ghost use Rattle.std.specs.Prelude.{◌≡◌, ◌≤◌, ◌++◌, ◌∷◌, [], find, None};
ghost use Rattle.token_server.specs.rule.Requests.{is_of_call};
ghost use Rattle.token_server.specs.rule.Actives.{requests_of};
ghost use Rattle.token_server.specs.code.Admissions.{has_call_of, all_but};
ghost use Rattle.token_server.specs.code.Edits.{queue_moved, waiting_moved, IsNewCall, many_moved, many_put_off};

use crate::sketch::Moved;
use crate::token_queue::active_request::ActiveRequest;
use crate::token_queue::line::Line;
use crate::token_queue::token_request::TokenRequest;

/// Removes from the queue the requests of the calls of these.
pub(crate) fn leave(queue: &mut Line, fresh: &[ActiveRequest])
    ensures { queue.new.requests ≡ all_but (requests_of fresh.now) queue.old.requests }
{
    for held in fresh {
        queue.take_out(held.request.call);
    }
}

// Whether one of these requests is of the same call as this one.
fn has_call_of(fresh: &[ActiveRequest], request: &TokenRequest) -> bool
    ensures { result ≡ has_call_of (requests_of fresh.now) request.now }
{
    fresh.iter().any(|held| held.is_of_call(request.call))
}

// Appends the request to the queue, unless it is admitted at once: then it is one of `fresh`.
fn put(queue: &mut Line, request: TokenRequest, fresh: &[ActiveRequest])
    requires room { 1 ≤ queue.old.room }
    requires new { find (is_of_call request.call) queue.old.requests ≡ None }
    ensures { all_but (requests_of fresh.now) queue.new.requests ≡ all_but (requests_of fresh.now) (queue.old.requests ++ request ∷ []) }
{
    if !has_call_of(fresh, &request) {
        queue.push(request);
    }
}

/// Moves requests between the queue and those that wait, as `moved` says, without those that are admitted at once.
pub(crate) fn move_requests(
    queue: &mut Line,
    waiting: &mut Line,
    moved: Moved,
    fresh: &[ActiveRequest],
)
    requires queued { many_moved moved waiting.old.requests ≤ queue.old.room }
    requires put_off { many_put_off moved ≤ waiting.old.room }
    requires new { IsNewCall moved queue.old.requests waiting.old.requests }
    ensures queue { all_but (requests_of fresh.now) queue.new.requests ≡ all_but (requests_of fresh.now) (queue_moved moved queue.old.requests waiting.old.requests) }
    ensures waiting { waiting.new.requests ≡ waiting_moved moved waiting.old.requests }
{
    match moved {
        Moved::Nothing => {}
        Moved::New(request) => put(queue, request, fresh),
        Moved::Again { call, request } => {
            waiting.take_out(call);
            put(queue, request, fresh);
        }
        Moved::Waiting => queue.append(waiting),
        Moved::PutOff(request) => waiting.push(request),
    }
}
