//! The items of a history: answered calls, and failed nodes.
use model::{CallId, Op, Reply};

/// An item of a history, at a position of the journal, from 1: a call with its reply, or a node that failed, whose
/// processes all exit there.
#[derive(Clone, Copy, Debug, PartialEq, Eq)]
pub enum Item {
    Answered {
        position: u32,
        id: CallId,
        pid: u16,
        op: Op,
        reply: Reply,
    },
    Gone {
        position: u32,
        node: u8,
        incarnation: u16,
    },
}
