//! An active request, with the node whose row it waits for.
ghost use Rattle.std.specs.Prelude.{◌≡◌};
ghost use Rattle.token_server.specs.rule.Requests.{is_of_call, is_up_to};

use crate::token_queue::token_request::TokenRequest;
use model::CallId;

/// An active request of a token server, and the number of the node whose row it waits for.
#[derive(Clone, Copy)]
pub struct ActiveRequest {
    pub request: TokenRequest,
    pub at: u8,
}

impl ActiveRequest {
    /// Whether the request is of the call.
    pub fn is_of_call(&self, call: CallId) -> bool
        ensures { result ≡ is_of_call call self.now.request }
    {
        self.request.is_of_call(call)
    }

    /// Whether the request is of the node, in that incarnation or an older one.
    pub fn is_up_to(&self, node: u8, incarnation: u16) -> bool
        ensures { result ≡ is_up_to node incarnation self.now.request }
    {
        self.request.is_up_to(node, incarnation)
    }
}
