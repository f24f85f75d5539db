//! The test whether entries have a receipt's call and reply.
ghost use Rattle.std.specs.Prelude.{◌≡◌, ◌<◌, ◌≤◌, ◌-◌, ◌↔◌, IsTrue, IfSome, MatchOption, MatchBool, Some, None, slice_get};
ghost use Rattle.book.specs.rule.Commits.{Holds, call_in};

use crate::receipt::{Receipt, call_in, same_id};
use messages::Entry;
use model::{CallId, Op, Reply};

// The entry at a position, from 1, if there is one.
fn entry_at(entries: &[Entry], position: u32) -> Option<&Entry>
    requires { 0 < position }
    ensures { MatchOption result (slice_get entries.now (position - 1) ≡ None) (λ e. slice_get entries.now (position - 1) ≡ Some e.now) }
{
    entries.get(position as usize - 1)
}

// Whether both operations are equal.
fn same_op(one: &Op, other: &Op) -> bool
    ensures { IsTrue result ↔ (one.now ≡ other.now) }
{
    one == other
}

// Whether both are equal replies to one call, or both are none.
fn same_replies(one: &Option<(CallId, Reply)>, other: &Option<(CallId, Reply)>) -> bool
    ensures { IsTrue result ↔ (one.now ≡ other.now) }
{
    one == other
}

// Whether the entry makes the receipt's call.
fn is_its_call(entry: &Entry, receipt: &Receipt) -> bool
    ensures { IsTrue result ↔ (call_in entry.now.event entry.now.call ≡ Some (receipt.now.call, receipt.now.pid, receipt.now.op)) }
{
    let Some((id, pid, op)) = call_in(entry.event(), entry.call()) else {
        return false;
    };
    same_id(&id, &receipt.call()) && pid == receipt.pid() && same_op(&op, &receipt.op())
}

// Whether the entry has the receipt's reply.
fn is_its_reply(entry: &Entry, receipt: &Receipt) -> bool
    ensures { IsTrue result ↔ (entry.now.reply ≡ Some (receipt.now.call, receipt.now.reply)) }
{
    same_replies(&entry.reply(), &Some((receipt.call(), receipt.reply())))
}

/// Whether the entries have the receipt's call and reply at its positions.
pub(crate) fn holds(entries: &[Entry], receipt: &Receipt) -> bool
    ensures exact { MatchBool result (Holds entries.now receipt.now) (Holds entries.now receipt.now → ⊥) }
    ensures ordered { (receipt.now.seen < receipt.now.call_at) × (receipt.now.call_at ≤ receipt.now.reply_at) }
{
    let (call_at, reply_at) = (receipt.call_at(), receipt.reply_at());
    let Some(first) = entry_at(entries, call_at) else {
        return false;
    };
    let Some(last) = entry_at(entries, reply_at) else {
        return false;
    };
    is_its_call(first, receipt) && is_its_reply(last, receipt)
}
