//! The test whether the calls with a reply stand in an order.
ghost use Rattle.std.specs.Prelude.{◌≡◌, IsTrue, ◌↔◌, length};
ghost use Rattle.client_history.specs.rule.Explained.{EndedBy};
ghost use Rattle.client_history.specs.code.Moves.{AreMarked};

use crate::client_call::ClientCall;

/// Whether the call had its reply at that time or earlier.
pub(crate) fn ended_by(call: &ClientCall, time: u64) -> bool
    ensures { IsTrue result ↔ EndedBy time call.now }
{
    match call.end {
        Some(end) => end <= time,
        None => false,
    }
}

/// Whether each call that had its reply at that time or earlier is marked.
pub(crate) fn are_answered(calls: &[ClientCall], marks: &[bool], time: u64) -> bool
    requires { length marks.now ≡ length calls.now }
    ensures { IsTrue result ↔ AreMarked time calls.now marks.now }
{
    for (i, call) in calls.iter().enumerate() {
        if ended_by(call, time) && !marks[i] {
            return false;
        }
    }
    true
}
