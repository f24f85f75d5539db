//! A planned step of a token server: what it changes, and what it sends.
ghost use Rattle.std.specs.Prelude.{◌≡◌};

use crate::gone::Gone;
use crate::known_nodes::new_row::NewRow;
use crate::known_nodes::row_edit::RowEdit;
use crate::sketch::Moved;
use crate::token_queue::active_request::ActiveRequest;
use crate::token_queue::line::Line;
use messages::Outcome;

/// The whole change of a step. What the event changes before the server serves is its draft: the edit of a node's
/// row, if there is one; whether a node has not reported its token then; and the change of the requests, made in this
/// order: `ats`, new blockers of the active; `gone`, dropped; `moved`, re-queued; `fresh`, admitted. Serving gives
/// some nodes new rows, by commands. Last comes new memory for each list of requests that has too little room left.
#[derive(Drop)]
pub struct ServerEdit {
    pub rows: Option<RowEdit>,
    pub awaits: bool,
    pub gone: Gone,
    pub ats: Vec<u8>,
    pub moved: Moved,
    pub fresh: Vec<ActiveRequest>,
    pub given: Vec<NewRow>,
    pub active_spare: Option<Vec<ActiveRequest>>,
    pub queue_spare: Option<Box<Line>>,
    pub waiting_spare: Option<Box<Line>>,
}

impl ServerEdit {
    // Adds to a draft what serving gives: the new rows, and the new memory of the active, the queued and the waiting
    // requests.
    pub(crate) fn complete(
        &mut self,
        given: Vec<NewRow>,
        active_spare: Option<Vec<ActiveRequest>>,
        queue_spare: Option<Box<Line>>,
        waiting_spare: Option<Box<Line>>,
    )
        ensures { self.new ≡ record self.old { given = given; active_spare = active_spare; queue_spare = queue_spare; waiting_spare = waiting_spare } }
    {
        self.given = given;
        self.active_spare = active_spare;
        self.queue_spare = queue_spare;
        self.waiting_spare = waiting_spare;
    }
}

/// A planned step: its change, in a box, because many calls hand it up by value, and its outcome.
#[derive(Drop)]
pub struct ServerChange {
    pub edit: Box<ServerEdit>,
    pub outcome: Outcome,
}
