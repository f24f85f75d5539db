//! The requests that an event removes from a token server.
ghost use Rattle.std.specs.Prelude.{◌≡◌, ◌&&◌, ◌∷◌, []};
ghost use Rattle.std.specs.List.{list_any};
ghost use Rattle.token_server.specs.rule.Requests.{meets};
ghost use Rattle.token_server.specs.code.Edits.{is_up_to_any, is_of_any, keeps, left_in};

use crate::token_queue::token_request::TokenRequest;
use intervals::span::Span;
use model::CallId;

/// The requests that a step removes before it admits others from the queue: those of a node up to an incarnation, in
/// every list, and the active request of a call.
#[derive(Clone, Copy)]
pub struct Gone {
    pub dropped: Option<(u8, u16)>,
    pub ended: Option<CallId>,
}

impl Gone {
    /// Whether the request is of the dropped incarnations.
    pub fn drops(&self, request: &TokenRequest) -> bool
        ensures { result ≡ is_up_to_any self.now.dropped request.now }
    {
        self.dropped
            .is_some_and(|(node, incarnation)| request.is_up_to(node, incarnation))
    }

    /// Whether the request is of the call whose active request ends.
    pub fn ends(&self, request: &TokenRequest) -> bool
        ensures { result ≡ is_of_any self.now.ended request.now }
    {
        self.ended.is_some_and(|call| request.is_of_call(call))
    }

    /// Whether the active request stays active.
    pub fn keeps(&self, request: &TokenRequest) -> bool
        ensures { result ≡ keeps self.now.dropped self.now.ended request.now }
    {
        !self.drops(request) && !self.ends(request)
    }

    /// Whether the active request stays active and needs a byte of the span.
    pub fn keeps_meeting(&self, request: &TokenRequest, span: Span) -> bool
        ensures { result ≡ (meets span request.now.wanted.required && keeps self.now.dropped self.now.ended request.now) }
    {
        request.meets(span) && self.keeps(request)
    }

    /// Whether the slot holds a request that is not dropped and that needs a byte of the span.
    pub fn leaves_meeting(&self, slot: &Option<TokenRequest>, span: Span) -> bool
        ensures { result ≡ list_any (λ q. meets span q.wanted.required) (left_in self.now (slot.now ∷ [])) }
    {
        match slot {
            Some(request) => request.meets(span) && !self.drops(request),
            None => false,
        }
    }
}
