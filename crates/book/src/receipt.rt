//! A receipt: the proof of a call and its reply in a journal.
ghost use Rattle.std.specs.Prelude.{◌≡◌, ◌<◌, ◌≤◌, ◌↔◌, IsTrue, MatchOption, Option, Some};
ghost use Rattle.book.specs.rule.States.{ReceiptFields};
ghost use Rattle.book.specs.rule.Commits.{call_in, IsReceiptOf};

use crate::{Mark, Stamp};
use messages::{Event, NodeInput};
use model::{CallId, Op, Reply};
use std::marker::Model;

/// A call with its process and its reply, and the positions of both in the journal. The call stands after all that
/// its client had seen, the reply not before the call.
#[derive(Clone, Copy, Debug)]
pub struct Receipt {
    call: CallId,
    pid: u16,
    op: Op,
    reply: Reply,
    seen: u32,
    call_at: u32,
    reply_at: u32,
}

impl Model for Receipt {
    ghost use Rattle.std.specs.Prelude.{◌<◌, ◌≤◌};
    ghost use Rattle.book.specs.rule.States.{ReceiptFields};

    ghost Value = { ReceiptFields };

    ghost view = { λ r. record { call = r.call; pid = r.pid; op = r.op; reply = r.reply; seen = r.seen; call_at = r.call_at; reply_at = r.reply_at } };

    ghost invariant = { λ r. (r.seen < r.call_at) × (r.call_at ≤ r.reply_at) };

    ghost inverse = { λ r. record { call = r.call; pid = r.pid; op = r.op; reply = r.reply; seen = r.seen; call_at = r.call_at; reply_at = r.reply_at } };
}

/// The name, the process and the operation of the call that the event makes, where `call` is its name. `None` where
/// the event is no call or `call` is none.
pub(crate) fn call_in(event: &Event, call: Option<CallId>) -> Option<(CallId, u16, Op)>
    ensures { result ≡ call_in event.now call }
{
    match event {
        Event::AtNode(_, NodeInput::Call { pid, op }) => {
            let id = call?;
            Some((id, *pid, *op))
        }
        _ => None,
    }
}

/// Whether both name the same call.
pub(crate) fn same_id(one: &CallId, other: &CallId) -> bool
    ensures { IsTrue result ↔ (one.now ≡ other.now) }
{
    one == other
}

impl Receipt {
    /// The receipt of a call and the reply to it. `None` exactly where the first stamp is of no call, or the second
    /// has no reply to it or stands before it.
    pub fn of(call: &Stamp, reply: &Stamp) -> Option<Receipt>
        ensures { MatchOption result ((r : ReceiptFields) → IsReceiptOf call.now reply.now r → ⊥) (λ r. IsReceiptOf call.now reply.now r) }
    {
        let (id, pid, op) = call_in(call.event(), call.outcome().call)?;
        let (answered, said) = reply.outcome().reply?;
        if !same_id(&answered, &id) || reply.position() < call.position() {
            return None;
        }
        Some(Receipt {
            call: id,
            pid,
            op,
            reply: said,
            seen: call.seen(),
            call_at: call.position(),
            reply_at: reply.position(),
        })
    }

    /// The name of the call.
    pub fn call(&self) -> CallId
        ensures { result ≡ self.now.call }
    {
        self.call
    }

    /// The process that made the call.
    pub fn pid(&self) -> u16
        ensures { result ≡ self.now.pid }
    {
        self.pid
    }

    /// The operation of the call.
    pub fn op(&self) -> Op
        ensures { result ≡ self.now.op }
    {
        self.op
    }

    pub fn reply(&self) -> Reply
        ensures { result ≡ self.now.reply }
    {
        self.reply
    }

    /// The position up to which the client had seen the journal, 0 for nothing.
    pub fn seen(&self) -> u32
        ensures { result ≡ self.now.seen }
    {
        self.seen
    }

    /// The position of the call, from 1.
    pub fn call_at(&self) -> u32
        ensures value { result ≡ self.now.call_at }
        ensures after { self.now.seen < result }
    {
        self.call_at
    }

    /// The position of the reply, from 1.
    pub fn reply_at(&self) -> u32
        ensures value { result ≡ self.now.reply_at }
        ensures order { self.now.call_at ≤ result }
    {
        self.reply_at
    }

    /// The mark at the position of the reply.
    pub fn mark(&self) -> Mark
        ensures { result ≡ self.now.reply_at }
    {
        Mark::new(self.reply_at)
    }
}
