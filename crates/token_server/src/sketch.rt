//! The sketch of an event: what it changes of a token server before it serves.
ghost use Rattle.std.specs.Prelude.{◌≡◌, Some, None};
ghost use Rattle.token_server.specs.code.Edits.{many_moved, many_put_off, dropped};

use crate::known_nodes::known_change::{Changed, KnownChange};
use crate::token_queue::line::Line;
use crate::token_queue::token_request::TokenRequest;
use model::CallId;

/// The move of requests between the lists of a server.
#[derive(Clone, Copy)]
pub enum Moved {
    /// No request moves.
    Nothing,
    /// The new request goes to the end of the queue.
    New(TokenRequest),
    /// The older request of the call goes to the end of the queue, and the call's requests wait no longer.
    Again { call: CallId, request: TokenRequest },
    /// All waiting requests go to the end of the queue, in their order.
    Waiting,
    /// The request goes to the end of those that wait.
    PutOff(TokenRequest),
}

/// The sketch of an event: the change of one node, if there is one (requests of its dead incarnations go), the move
/// of requests, and the call whose active request ends, if there is one. Only a report takes memory here.
#[derive(Drop)]
pub struct Sketch {
    pub changed: Option<Changed>,
    pub moved: Moved,
    pub ended: Option<CallId>,
}

impl Sketch {
    /// The sketch of a change of the node, a move, and the end of the call's active request, if one is named.
    pub fn of(node: u8, change: KnownChange, moved: Moved, ended: Option<CallId>) -> Sketch
        ensures { result ≡ record { changed = Some (record { node = node; change = change }); moved = moved; ended = ended } }
    {
        Sketch {
            changed: Some(Changed { node, change }),
            moved,
            ended,
        }
    }

    /// The sketch of a move alone.
    pub fn moving(moved: Moved) -> Sketch
        ensures { result ≡ record { changed = None; moved = moved; ended = None } }
    {
        Sketch {
            changed: None,
            moved,
            ended: None,
        }
    }

    /// The node and the incarnation up to which its requests are dropped, if any are.
    pub fn dropped(&self) -> Option<(u8, u16)>
        ensures { result ≡ dropped self.now.changed }
    {
        let changed = self.changed.as_ref()?;
        Some((changed.node, changed.change.dropped_to()?))
    }
}

impl Moved {
    /// The number of requests that go to the end of those that wait: 0 or 1.
    pub fn put_off(&self) -> usize
        ensures { result ≡ many_put_off self.now }
    {
        match self {
            Moved::PutOff(_) => 1,
            _ => 0,
        }
    }

    /// The number of requests that go to the end of the queue, where these wait.
    pub fn many(&self, waiting: &Line) -> usize
        ensures { result ≡ many_moved self.now waiting.now.requests }
    {
        match self {
            Moved::New(_) | Moved::Again { .. } => 1,
            Moved::Waiting => waiting.len(),
            Moved::Nothing | Moved::PutOff(_) => 0,
        }
    }
}
