//! The steps of calls: what each did to locks, where a lock manager may differ from one table.
ghost use Rattle.std.specs.Prelude.{◌≡◌, false};
ghost use Rattle.history_text.specs.code.Readings.{IsWhole};

use crate::{Allowed, Asked, Operation, Reply};
use client_history::Act;
use model::Mode;

/// The steps of a call on the locks of its file, as far as its reply says: none, one or two acts.
#[derive(Clone, Copy)]
pub(crate) enum Steps {
    None,
    One(Act),
    Two(Act, Act),
}

/// The steps of a call on the locks of its file, where these rules are allowed: as far as the reply says, if there is
/// one. A call without a reply has the steps of one that is done, if they may change a lock.
pub(crate) fn steps_of(asked: &Asked, allowed: Allowed) -> Steps
    ensures { allowed.wait_drops ≡ false → IsWhole result }
{
    if is_silenced(asked, allowed) {
        return Steps::None;
    }
    let (reply, told) = (asked.reply, asked.told);
    let is_done = reply.is_none_or(|reply| reply == Reply::Done);
    match asked.operation {
        Operation::Wait { mode, span } if allowed.wait_drops => match reply {
            None | Some(Reply::Done) => Steps::Two(Act::Frees { span }, Act::Locks { mode, span }),
            Some(Reply::Interrupted) => Steps::One(Act::Frees { span }),
            _ => Steps::None,
        },
        Operation::Set { mode, span } | Operation::Wait { mode, span } if is_done => {
            Steps::One(Act::Locks { mode, span })
        }
        Operation::Set { mode, span } if reply == Some(Reply::Again) => {
            Steps::One(Act::IsDenied { mode, span, told })
        }
        Operation::Query { mode, span } if reply == Some(Reply::Free) => {
            Steps::One(Act::IsFree { mode, span })
        }
        Operation::Query { mode, span } if reply == Some(Reply::Blocked) => {
            Steps::One(Act::IsDenied { mode, span, told })
        }
        Operation::Unlock { span } if is_done => Steps::One(Act::Frees { span }),
        Operation::Close { .. } if is_done => Steps::One(Act::Drops),
        _ => Steps::None,
    }
}

// Whether a rule lets the call say nothing.
fn is_silenced(asked: &Asked, allowed: Allowed) -> bool {
    let is_denied = asked.reply == Some(Reply::Again) || asked.reply == Some(Reply::Blocked);
    match asked.operation {
        Operation::Set { mode, .. } => {
            allowed.stale_read_denial && is_denied && mode == Mode::Read
        }
        Operation::Query { mode, .. } => {
            allowed.no_query || allowed.stale_read_denial && is_denied && mode == Mode::Read
        }
        Operation::Close { is_unused } => allowed.close_own_descriptor && is_unused,
        Operation::Wait { .. } | Operation::Unlock { .. } => false,
    }
}
