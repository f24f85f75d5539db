//! Spans that are cut by the bytes that others need or are granted.
ghost use Rattle.std.specs.Prelude.{◌≡◌, ◌==◌, ◌+◌, ◌<◌, ◌≤◌, true, false, All, MatchOption, Some, None};
ghost use Rattle.token_server.specs.rule.Actives.{requests_of};
ghost use Rattle.token_server.specs.rule.Serve.{narrowed};
ghost use Rattle.token_server.specs.code.Rows.{bars};
ghost use Rattle.token_server.specs.code.Edits.{cut, cut_all, without, still_active, keeps};

use crate::change::ServerEdit;
use crate::sent_command::SentCommand;
use crate::token_queue::active_request::ActiveRequest;
use crate::token_queue::token_request::TokenRequest;
use intervals::span::Span;
use model::Mode;

// `required`, widened inside `within` until it meets `other`.
fn cut(required: Span, within: Span, other: Span) -> Span
    requires starts_within { within.lo ≤ required.lo }
    requires ends_within { required.hi ≤ within.hi }
    ensures { result ≡ cut required within other }
{
    let _ = &required.lo; // tells the proof that the span has a byte
    let mut span = within;
    if other.lo < required.lo {
        span.lo = within.lo.max((other.hi + 1).min(required.lo));
    }
    if required.hi < other.hi {
        span.hi = within.hi.min((other.lo.max(1) - 1).max(required.hi));
    }
    span
}

// The largest span within the desired one, around the required one, without bytes that active requests need which
// stay active. Once it is down to the required bytes, no request takes a byte away.
pub(super) fn cut_by(request: &TokenRequest, held: &[ActiveRequest], draft: &ServerEdit) -> Span
    ensures value { result ≡ narrowed (still_active draft.now.gone.ended (without draft.now.gone.dropped (requests_of held.now))) request.now }
    ensures starts_before { result.lo ≤ request.now.wanted.required.lo }
    ensures ends_after { request.now.wanted.required.hi ≤ result.hi }
{
    let required = request.required();
    let mut span = request.desired();
    for other in held {
        if span == required {
            return span;
        }
        span = cut_by_one(required, span, other, draft);
    }
    span
}

// `required`, widened inside `within` until it meets the bytes that the other active request needs, if that one stays
// active.
fn cut_by_one(required: Span, within: Span, other: &ActiveRequest, draft: &ServerEdit) -> Span
    requires starts_within { within.lo ≤ required.lo }
    requires ends_within { required.hi ≤ within.hi }
    ensures kept { keeps draft.now.gone.dropped draft.now.gone.ended other.now.request ≡ true → result ≡ cut required within other.now.request.wanted.required }
    ensures gone { keeps draft.now.gone.dropped draft.now.gone.ended other.now.request ≡ false → result ≡ within }
    ensures ordered { other.now.request.wanted.required.lo ≤ other.now.request.wanted.required.hi }
{
    let _ = &required.lo; // tells the proof that the span has a byte
    let needed = other.request.required();
    if !other.request.meets(within) {
        return within;
    }
    if !draft.gone.keeps(&other.request) {
        return within;
    }
    cut(required, within, needed)
}

// `required`, widened inside `within` until it meets bytes that one of the requests needs. All of them stay active.
pub(super) fn cut_by_all(required: Span, within: Span, held: &[ActiveRequest]) -> Span
    requires starts_within { within.lo ≤ required.lo }
    requires ends_within { required.hi ≤ within.hi }
    ensures value { result ≡ cut_all required within (requests_of held.now) }
    ensures starts_before { result.lo ≤ required.lo }
    ensures ends_after { required.hi ≤ result.hi }
    ensures ordered { All (λ r. r.wanted.required.lo ≤ r.wanted.required.hi) (requests_of held.now) }
{
    let mut span = within;
    for other in held {
        span = cut(required, span, other.request.required());
    }
    span
}

// `required`, widened inside `free` until it meets bytes that the command grants its node in a mode that conflicts
// with this one.
pub(super) fn cut_granted(told: &SentCommand, required: Span, free: Span, mode: Mode) -> Span
    requires starts_within { free.lo ≤ required.lo }
    requires ends_within { required.hi ≤ free.hi }
    ensures { MatchOption (bars told.now.command mode) (result ≡ free) (λ granted. (result ≡ cut required free granted) × (granted.lo ≤ granted.hi)) }
{
    let _ = &required.lo; // tells the proof that the span has a byte
    match told.command.granted(mode) {
        Some(granted) => cut(required, free, granted),
        None => free,
    }
}
