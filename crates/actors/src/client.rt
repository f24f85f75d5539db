//! The client of a process: it makes the process's calls and gets receipts.
ghost use Rattle.std.specs.Prelude.{◌≡◌, ◌↔◌, IsTrue, IfOk, IfSome, OnErr, max, unwrap_or};
ghost use Rattle.actors.specs.rule.Clients.{ClientFields, IsMadeBy};

use crate::{
    CallError, CallResult, Cluster, Desk, Gate, Letter, Mailbox, Question, lock, may_release,
};
use book::{Mark, Name, Receipt, Seat, Stamp};
use crossbeam_channel::{Receiver, SendError, Sender, bounded};
use messages::{Event, NodeInput};
use model::{Op, Process};
use std::marker::Model;
use std::sync::Wait;

/// A process of a running cluster, which makes its calls one after the other. A call that needs no other actor the
/// client may make itself, where the cluster's gate is open. Other calls go to the worker, which keeps the client's
/// reply channel; after a failed call the client sends a new one.
#[derive(Drop)]
pub struct Client<'a, J: Name, G: Gate> {
    process: Process,
    last: Option<Mark>,
    cluster: Cluster<'a, J, G>,
    mailbox: &'a Mailbox,
    desk: Option<&'a Desk<J>>,
    answers: Option<Receiver<CallResult>>,
}

impl<'a, J: Name, G: Gate> Model for Client<'a, J, G> {
    ghost use Rattle.std.specs.Prelude.{unwrap_or};
    ghost use Rattle.actors.specs.rule.Clients.{ClientFields};

    ghost Value = { ClientFields };

    ghost view = { λ c. record { process = c.process; last = unwrap_or c.last 0 } };
}

impl<'a, J: Name, G: Gate> Client<'a, J, G> {
    /// A client of the process that has seen nothing of the journal. It makes calls itself at the desk, if there is
    /// one.
    pub(crate) fn new(
        cluster: Cluster<'a, J, G>,
        process: Process,
        mailbox: &'a Mailbox,
        desk: Option<&'a Desk<J>>,
    ) -> Client<'a, J, G>
        ensures { result ≡ record { process = process; last = 0 } }
    {
        Client {
            process,
            last: None,
            cluster,
            mailbox,
            desk,
            answers: None,
        }
    }

    /// The process that makes the calls.
    pub fn process(&self) -> Process
        ensures { result ≡ self.now.process }
    {
        self.process
    }

    /// The position of the last reply that the client has got or was told of, from 1; 0 where there is none.
    pub fn last(&self) -> u32
        ensures { result ≡ self.now.last }
    {
        match &self.last {
            Some(mark) => mark.position(),
            None => 0,
        }
    }

    /// Tells the client of a receipt of this cluster. Its later calls stand after that reply.
    pub fn told(&mut self, receipt: &Receipt)
        ensures { self.new ≡ record self.old { last = max self.old.last receipt.now.reply_at } }
    {
        if receipt.reply_at() > self.last() {
            self.last = Some(receipt.mark());
        }
    }

    // The question for the worker: the call, with what the client has seen.
    fn question(&self, op: Op, back: Option<Sender<CallResult>>) -> Question
        ensures process { result.process ≡ self.now.process }
        ensures operation { result.op ≡ op }
        ensures seen { unwrap_or result.seen 0 ≡ self.now.last }
    {
        Question {
            process: self.process,
            op,
            seen: self.last,
            back,
        }
    }

    /// Makes a call and waits for its reply. The receipt is of this process and this operation. Its call stands after
    /// all that the client has seen, and the client has then seen its reply.
    ///
    /// # Errors
    /// `NoMemory` where a request for memory was refused; `JournalFull` where the journal has 1,048,576 entries;
    /// `Stranger` where the operation names a file outside the shape or a process outside 1 to 256; `Fenced` where
    /// the incarnation of the process was declared failed before its node took the call; `Busy` where the process has
    /// an open call; `Spent` where the node has no number left; `Stale` where the client was told of another
    /// cluster's receipt; `Killed`, with the position of the call, where the node was declared failed or the process
    /// ended while the call was open; `Unanswered`, with the position of the call, where the worker ended while the
    /// call was open; `Closed` where the worker ended before. The client has then seen no more than before.
    pub fn call<R: Wait>(&mut self, rt: &R, op: Op) -> Result<Receipt, CallError>
        ensures made { IfOk result (IsMadeBy self.old op) }
        ensures seen { IfOk result (λ receipt. self.new ≡ record self.old { last = receipt.reply_at }) }
        ensures unchanged { OnErr result (self.new ≡ self.old) }
    {
        let receipt = match self.make(rt, op) {
            Some(answer) => answer?,
            None => self.ask(rt, op)?,
        };
        self.last = Some(receipt.mark());
        Ok(receipt)
    }

    // Makes the call at the node's desk. `None` where it isn't made there. (The stamp of a call that is made there
    // always gives its receipt.)
    fn make<R: Wait>(&self, rt: &R, op: Op) -> Option<CallResult>
        ensures { IfSome result (λ answer. IfOk answer (IsMadeBy self.now op)) }
    {
        let stamp = self.make_at(rt, self.desk?, op)?;
        match Receipt::of(&stamp, &stamp) {
            Some(receipt) if self.has_made(&receipt, op) => Some(Ok(receipt)),
            _ => Some(Err(CallError::Unanswered {
                call_at: stamp.position(),
            })),
        }
    }

    // Makes the call at the node's desk, if the step answers the call and sends no message, and the node has no open
    // call that the step may help. `None` where the call isn't made, for whatever reason: the worker then makes it, or
    // says why not.
    fn make_at<R: Wait>(&self, rt: &R, desk: &Desk<J>, op: Op) -> Option<Stamp> {
        if self.cluster.begun.halt.is_set() {
            return None;
        }
        let mut work = lock(rt, desk);
        if work.seat.incarnation() != self.process.incarnation {
            return None;
        }
        if work.has_open && may_release(&op) {
            return None;
        }
        let pid = self.process.pid;
        let event = Event::AtNode(self.process.node, NodeInput::Call { pid, op });
        let stamp = self.step(rt, &mut work.seat, event);
        let _ = work.seat.catch_up(self.cluster.alloc()); // where memory is refused, the next step does it
        stamp
    }

    // Prepares the step of the seat at the call without the book's lock, and commits it, if it answers the call and
    // sends no message.
    fn step<R: Wait>(&self, rt: &R, seat: &mut Seat<J>, call: Event) -> Option<Stamp> {
        let prepared = seat.prepare(self.cluster.alloc(), call).ok()?;
        let outcome = prepared.outcome();
        if outcome.reply.is_none() || !outcome.sends.is_empty() {
            return None;
        }
        let committed = self.cluster.commit(rt, seat, prepared, self.last.as_ref());
        committed.ok()
    }

    // Has the node's worker make the call, and waits for its reply.
    fn ask<R: Wait>(&mut self, rt: &R, op: Op) -> CallResult
        ensures made { IfOk result (IsMadeBy self.old op) }
        ensures unchanged { self.new ≡ self.old }
    {
        let (answers, back) = self.path()?;
        let letter = Letter::Ask(self.question(op, back));
        match self.mailbox.letters.send(rt, letter) {
            Ok(()) => {}
            Err(SendError::Disconnected(_)) => return Err(CallError::Closed),
            Err(SendError::OutOfMemory(_)) => return Err(CallError::NoMemory),
        }
        let receipt = self.wait_for_answer(rt, &answers, op)?;
        self.answers = Some(answers);
        Ok(receipt)
    }

    // The channel on which the answer comes, and its other end for the worker, if the worker has none of this client.
    fn path(&mut self) -> Result<(Receiver<CallResult>, Option<Sender<CallResult>>), CallError>
        ensures { self.new ≡ self.old }
    {
        if let Some(answers) = self.answers.take() {
            return Ok((answers, None));
        }
        match bounded(self.cluster.alloc(), 1) {
            Ok((back, answers)) => Ok((answers, Some(back))),
            Err(_) => Err(CallError::NoMemory),
        }
    }

    // The receipt of the call, or why there is none. (No worker answers with the receipt of another call.)
    fn wait_for_answer<R: Wait>(&self, rt: &R, answers: &Receiver<CallResult>, op: Op) -> CallResult
        ensures { IfOk result (IsMadeBy self.now op) }
    {
        match answers.recv(rt) {
            Ok(Ok(receipt)) if self.has_made(&receipt, op) => Ok(receipt),
            Ok(Err(why)) => Err(why),
            _ => Err(CallError::Closed),
        }
    }

    // Whether the receipt is of a call of this process with this operation, made with all that the client had seen.
    fn has_made(&self, receipt: &Receipt, op: Op) -> bool
        ensures { IsTrue result ↔ IsMadeBy self.now op receipt.now }
    {
        let call = receipt.call();
        if call.node != self.process.node || call.incarnation != self.process.incarnation {
            return false;
        }
        if receipt.pid() != self.process.pid || !same_op(&receipt.op(), &op) {
            return false;
        }
        receipt.seen() == self.last()
    }
}

// Whether both operations are equal.
fn same_op(one: &Op, other: &Op) -> bool
    ensures { IsTrue result ↔ (one.now ≡ other.now) }
{
    one == other
}
