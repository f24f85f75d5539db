//! The test whether calls stand between their begins and their ends.
ghost use Rattle.std.specs.Prelude.{◌≡◌, ◌<◌, ℕ, IsTrue, ◌↔◌, length, Some};
ghost use Rattle.client_history.specs.rule.Explained.{AreWithin, AreInTime, EndsBefore, HaveBegun};

use crate::client_call::ClientCall;

// Whether the call ended before that time.
fn ends_before(call: &ClientCall, time: u64) -> bool
    ensures { IsTrue result ↔ EndsBefore call.now time }
{
    match call.end {
        Some(end) => end < time,
        None => false,
    }
}

/// Whether no call of the order stands behind one that began after its end.
pub(crate) fn are_in_time(calls: &[ClientCall], order: &[usize]) -> bool
    requires { AreWithin (length calls.now) order.now }
    ensures { IsTrue result ↔ AreInTime calls.now order.now }
{
    let mut latest = 0;
    for i in order {
        let call = &calls[*i];
        if ends_before(call, latest) {
            return false;
        }
        if latest < call.begin {
            latest = call.begin;
        }
    }
    true
}

/// Whether each call of the order began at that time or earlier.
pub(crate) fn have_begun(calls: &[ClientCall], order: &[usize], time: u64) -> bool
    requires { AreWithin (length calls.now) order.now }
    ensures { IsTrue result ↔ HaveBegun time calls.now order.now }
{
    for i in order {
        let call = &calls[*i];
        if time < call.begin {
            return false;
        }
    }
    true
}
