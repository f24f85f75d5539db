//! A request for a token that a server keeps.
ghost use Rattle.std.specs.Prelude.{◌≡◌, ◌≤◌, ◌==◌};
ghost use Rattle.token_server.specs.rule.Requests.{is_of_call, is_up_to, meets};

use intervals::span::Span;
use messages::{Blocking, Wanted};
use model::{CallId, Mode};

/// A request for a token: the call that asks, whether it waits, its mode, and the bytes.
#[derive(Clone, Copy, PartialEq, Eq)]
pub struct TokenRequest {
    pub call: CallId,
    pub blocking: Blocking,
    pub mode: Mode,
    pub wanted: Wanted,
}

impl TokenRequest {
    /// A request of the call.
    pub fn new(call: CallId, blocking: Blocking, mode: Mode, wanted: Wanted) -> TokenRequest
        ensures { result ≡ record { call = call; blocking = blocking; mode = mode; wanted = wanted } }
    {
        TokenRequest {
            call,
            blocking,
            mode,
            wanted,
        }
    }

    /// Whether the request is of the call.
    pub fn is_of_call(&self, call: CallId) -> bool
        ensures { result ≡ is_of_call call self.now }
    {
        self.call == call
    }

    /// Whether the request is of the node, in any incarnation.
    pub fn is_of_node(&self, node: u8) -> bool
        ensures { result ≡ (node == self.now.call.node) }
    {
        node == self.call.node
    }

    /// The bytes that the request needs.
    pub fn required(&self) -> Span
        ensures value { result ≡ self.now.wanted.required }
        ensures ordered { result.lo ≤ result.hi }
    {
        let required = self.wanted.required;
        let _ = &required.lo; // tells the proof that the span has a byte
        required
    }

    /// The bytes that the request would like to have, which contain the required ones.
    pub fn desired(&self) -> Span
        ensures value { result ≡ self.now.wanted.desired }
        ensures starts_before { result.lo ≤ self.now.wanted.required.lo }
        ensures ends_after { self.now.wanted.required.hi ≤ result.hi }
    {
        self.wanted.desired
    }

    /// Whether the request needs a byte of the span. Only its required bytes count.
    pub fn meets(&self, span: Span) -> bool
        ensures { result ≡ meets span self.now.wanted.required }
    {
        let required = self.required();
        span.lo <= required.hi && required.lo <= span.hi
    }

    /// Whether the request is of the node, in that incarnation or an older one.
    pub fn is_up_to(&self, node: u8, incarnation: u16) -> bool
        ensures { result ≡ is_up_to node incarnation self.now }
    {
        self.call.node == node && self.call.incarnation <= incarnation
    }
}
