//! The admission of requests from the queue of a token server.
ghost use Rattle.std.specs.Prelude.{◌≡◌, ◌+◌, ◌<◌, ◌≤◌, ◌++◌, ◌∷◌, [], true, false, ◌&&◌, ◌||◌, take, length, Some, IfOk};
ghost use Rattle.token_server.specs.rule.Requests.{meets, requests_in};
ghost use Rattle.token_server.specs.rule.Actives.{requests_of};
ghost use Rattle.token_server.specs.rule.Serve.{meets_some};
ghost use Rattle.token_server.specs.code.Admissions.{IsAdmitted};
ghost use Rattle.token_server.specs.rule.Obstacles.{all_stay};
ghost use Rattle.token_server.specs.code.Edits.{AreDistinct, without, still_active, queue_moved, served_on, left_in, NeedsAllOf, HasEnded};

use super::Server;
use crate::gone::Gone;
use crate::sketch::Moved;
use crate::token_queue::active::Active;
use crate::token_queue::active_request::ActiveRequest;
use crate::token_queue::line::Line;
use crate::token_queue::token_request::TokenRequest;
use intervals::span::Span;
use model::CallId;
use std::alloc::{AllocError, Global};

impl Server {
    // The requests that are admitted from the queue, in order, after the removals and moves of a step. None while a
    // node has not reported its token.
    pub(super) fn admit(
        &self,
        alloc: Global,
        awaiting: bool,
        gone: &Gone,
        moved: &Moved,
    ) -> Result<Vec<TokenRequest>, AllocError>
        requires { AreDistinct (queue_moved moved.now (without gone.now.dropped self.now.queue.requests) (without gone.now.dropped self.now.waiting.requests)) }
        ensures comes { IfOk result (λ fresh. awaiting ≡ false → IsAdmitted (still_active gone.now.ended (without gone.now.dropped (requests_of self.now.active.held))) (queue_moved moved.now (without gone.now.dropped self.now.queue.requests) (without gone.now.dropped self.now.waiting.requests)) fresh.items) }
        ensures rests { IfOk result (λ fresh. awaiting ≡ true → fresh.items ≡ []) }
    {
        let mut fresh = Vec::new(alloc);
        if awaiting {
            return Ok(fresh);
        }
        admit_queued(&mut fresh, gone, !self.awaits, &self.active, &self.queue)?;
        admit_moved(
            &mut fresh,
            gone,
            &self.active,
            &self.queue,
            &self.waiting,
            moved,
        )?;
        Ok(fresh)
    }
}

// Whether the request needs a byte of an active one that stays active.
fn meets_served(held: &[ActiveRequest], gone: &Gone, request: &TokenRequest) -> bool
    ensures { result ≡ meets_some request.now (served_on gone.now held.now) }
{
    let span = request.required();
    held.iter()
        .any(|held| gone.keeps_meeting(&held.request, span))
}

// Whether the request needs a byte of a request in the slots that is not dropped.
fn meets_left(slots: &[Option<TokenRequest>], gone: &Gone, request: &TokenRequest) -> bool
    ensures { result ≡ meets_some request.now (left_in gone.now slots.now) }
{
    let span = request.required();
    slots.iter().any(|slot| gone.leaves_meeting(slot, span))
}

// Whether the request needs all bytes of the span.
pub(super) fn needs_all_of(request: &TokenRequest, span: Span) -> bool
    ensures { result ≡ true → (request.now.wanted.required.lo ≤ span.lo) × (span.hi ≤ request.now.wanted.required.hi) }
{
    let required = request.required();
    required.lo <= span.lo && span.hi <= required.hi
}

// Whether the request stays queued: it needs a byte of one that stays active, or of one before it in the queue.
fn must_stay(
    held: &[ActiveRequest],
    gone: &Gone,
    front: &[Option<TokenRequest>],
    before: &[Option<TokenRequest>],
    request: &TokenRequest,
) -> bool
    ensures { result ≡ (meets_some request.now (served_on gone.now held.now) || (meets_some request.now (left_in gone.now front.now) || meets_some request.now (left_in gone.now before.now))) }
{
    meets_served(held, gone, request)
        || (meets_left(front, gone, request) || meets_left(before, gone, request))
}

// Takes one slot more: admits its request, unless the request is dropped or stays queued.
fn admit_slot(
    fresh: &mut Vec<TokenRequest>,
    held: &[ActiveRequest],
    gone: &Gone,
    front: &[Option<TokenRequest>],
    slots: &[Option<TokenRequest>],
    place: usize,
) -> Result<(), AllocError>
    requires place_in { place < length slots.now }
    requires distinct { AreDistinct (left_in gone.now front.now ++ left_in gone.now slots.now) }
    requires so_far { IsAdmitted (served_on gone.now held.now) (left_in gone.now front.now ++ left_in gone.now (take place slots.now)) fresh.old.items }
    ensures { IfOk result (λ done. IsAdmitted (served_on gone.now held.now) (left_in gone.now front.now ++ left_in gone.now (take (place + 1) slots.now)) fresh.new.items) }
{
    let Some(request) = &slots[place] else {
        return Ok(());
    };
    if gone.drops(request) || must_stay(held, gone, front, &slots[..place], request) {
        return Ok(());
    }
    fresh.push(*request)?;
    Ok(())
}

// Takes all slots in order, behind those in `front`.
fn admit_each(
    fresh: &mut Vec<TokenRequest>,
    held: &[ActiveRequest],
    gone: &Gone,
    front: &[Option<TokenRequest>],
    slots: &[Option<TokenRequest>],
) -> Result<(), AllocError>
    requires distinct { AreDistinct (left_in gone.now front.now ++ left_in gone.now slots.now) }
    requires so_far { IsAdmitted (served_on gone.now held.now) (left_in gone.now front.now) fresh.old.items }
    ensures { IfOk result (λ done. IsAdmitted (served_on gone.now held.now) (left_in gone.now front.now ++ left_in gone.now slots.now) fresh.new.items) }
{
    for place in 0..slots.len() {
        admit_slot(fresh, held, gone, front, slots, place)?;
    }
    Ok(())
}

// Takes one slot more of a settled queue, in which each request stayed, after an active request ended. Only a request
// that needs a byte of the ended one can be admitted. Answers whether all behind the slot stay, because its request
// needs all that the ended one needed.
fn admit_next(
    fresh: &mut Vec<TokenRequest>,
    held: &[ActiveRequest],
    call: CallId,
    ended: &TokenRequest,
    slots: &[Option<TokenRequest>],
    place: usize,
) -> Result<bool, AllocError>
    requires place_in { place < length slots.now }
    requires ended { HasEnded (requests_of held.now) (requests_in slots.now) call ended.now }
    requires so_far { IsAdmitted (still_active (Some call) (requests_of held.now)) (requests_in (take place slots.now)) fresh.old.items }
    ensures more { IfOk result (λ all. IsAdmitted (still_active (Some call) (requests_of held.now)) (requests_in (take (place + 1) slots.now)) fresh.new.items) }
    ensures all { IfOk result (λ all. all ≡ true → NeedsAllOf ended.now (requests_in (take (place + 1) slots.now))) }
{
    let freed = ended.required();
    let Some(request) = &slots[place] else {
        return Ok(false);
    };
    if !request.meets(freed) {
        return Ok(false);
    }
    let gone = Gone {
        dropped: None,
        ended: Some(call),
    };
    admit_slot(fresh, held, &gone, &[], slots, place)?;
    Ok(needs_all_of(request, freed))
}

// Takes all slots of a settled queue, in which each request stayed, after an active request ended.
fn admit_freed(
    fresh: &mut Vec<TokenRequest>,
    held: &[ActiveRequest],
    call: CallId,
    ended: &TokenRequest,
    slots: &[Option<TokenRequest>],
) -> Result<(), AllocError>
    requires empty { fresh.old.items ≡ [] }
    requires ended { HasEnded (requests_of held.now) (requests_in slots.now) call ended.now }
    ensures { IfOk result (λ done. IsAdmitted (still_active (Some call) (requests_of held.now)) (requests_in slots.now) fresh.new.items) }
{
    for place in 0..slots.len() {
        if admit_next(fresh, held, call, ended, slots, place)? {
            return Ok(());
        }
    }
    Ok(())
}

// Takes all slots of the queue, settled or not, after requests were dropped and an active request ended.
fn admit_queued(
    fresh: &mut Vec<TokenRequest>,
    gone: &Gone,
    settled: bool,
    active: &Active,
    queue: &Line,
) -> Result<(), AllocError>
    requires empty { fresh.old.items ≡ [] }
    requires settled { settled ≡ true → all_stay (requests_of active.now.held) [] queue.now.requests ≡ true }
    requires served { AreDistinct (requests_of active.now.held) }
    requires queued { AreDistinct (without gone.now.dropped queue.now.requests) }
    ensures { IfOk result (λ done. IsAdmitted (served_on gone.now active.now.held) (without gone.now.dropped queue.now.requests) fresh.new.items) }
{
    if !settled || gone.dropped.is_some() {
        return admit_each(fresh, active.as_slice(), gone, &[], queue.slots());
    }
    let Some(call) = gone.ended else {
        return Ok(());
    };
    let Some(ended) = active.find(call) else {
        return Ok(());
    };
    admit_freed(fresh, active.as_slice(), call, &ended, queue.slots())
}

// Admits the request that moves to the end of the queue, unless it has to stay there.
fn admit_last(
    fresh: &mut Vec<TokenRequest>,
    gone: &Gone,
    active: &Active,
    queue: &Line,
    request: &TokenRequest,
) -> Result<(), AllocError>
    requires distinct { AreDistinct (without gone.now.dropped queue.now.requests ++ request.now ∷ []) }
    requires so_far { IsAdmitted (served_on gone.now active.now.held) (without gone.now.dropped queue.now.requests) fresh.old.items }
    ensures { IfOk result (λ done. IsAdmitted (served_on gone.now active.now.held) (without gone.now.dropped queue.now.requests ++ request.now ∷ []) fresh.new.items) }
{
    if must_stay(active.as_slice(), gone, queue.slots(), &[], request) {
        return Ok(());
    }
    fresh.push(*request)?;
    Ok(())
}

// Admits those of the requests that move to the end of the queue that need not stay there.
fn admit_moved(
    fresh: &mut Vec<TokenRequest>,
    gone: &Gone,
    active: &Active,
    queue: &Line,
    waiting: &Line,
    moved: &Moved,
) -> Result<(), AllocError>
    requires distinct { AreDistinct (queue_moved moved.now (without gone.now.dropped queue.now.requests) (without gone.now.dropped waiting.now.requests)) }
    requires so_far { IsAdmitted (served_on gone.now active.now.held) (without gone.now.dropped queue.now.requests) fresh.old.items }
    ensures { IfOk result (λ done. IsAdmitted (served_on gone.now active.now.held) (queue_moved moved.now (without gone.now.dropped queue.now.requests) (without gone.now.dropped waiting.now.requests)) fresh.new.items) }
{
    match moved {
        Moved::Nothing | Moved::PutOff(_) => Ok(()),
        Moved::New(request) | Moved::Again { request, .. } => {
            admit_last(fresh, gone, active, queue, request)
        }
        Moved::Waiting => admit_each(
            fresh,
            active.as_slice(),
            gone,
            queue.slots(),
            waiting.slots(),
        ),
    }
}
