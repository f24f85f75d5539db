//! The open calls of a node's clients.
ghost use Rattle.std.specs.Prelude.{◌≡◌, ◌<◌, ◌≤◌, vec_len, OnOk};
ghost use Rattle.std.specs.Vec.{vec_capacity};

use crate::call_error::CallError;
use book::{Receipt, Stamp};
use messages::{Event, Message, NodeInput, Patience};
use model::{LockCommand, Mode, Op, Process};
use std::alloc::{AllocError, Global};
use std::mem;

/// A call that its node took and has not answered: its process, its stamp, when it is tried again, and whether its
/// last try asked for no token. In that case a lock of its own node blocks it.
#[derive(Drop)]
pub(crate) struct UnansweredCall {
    process: Process,
    stamp: Stamp,
    patience: Patience,
    blocked_here: bool,
}

impl UnansweredCall {
    /// A call of the process that its node has just taken.
    pub(crate) fn new(process: Process, stamp: Stamp) -> UnansweredCall {
        let blocked_here = stamp.outcome().sends.is_empty();
        UnansweredCall {
            process,
            stamp,
            patience: Patience::new(),
            blocked_here,
        }
    }

    /// The process that made the call.
    pub(crate) fn process(&self) -> Process {
        self.process
    }

    /// The answer that the call ended without a reply.
    pub(crate) fn killed(&self) -> CallError {
        CallError::Killed {
            call_at: self.stamp.position(),
        }
    }

    /// The answer that the worker ended while the call was open.
    pub(crate) fn unanswered(&self) -> CallError {
        CallError::Unanswered {
            call_at: self.stamp.position(),
        }
    }

    // Whether the call has this number.
    fn has_number(&self, number: u32) -> bool {
        match self.stamp.outcome().call {
            Some(name) => name.number == number,
            None => false,
        }
    }

    // Notes a step of the node, which may have tried the call again, or brought a grant for it.
    fn note(&mut self, step: &Stamp) {
        match step.event() {
            Event::AtNode(_, NodeInput::Retry { pid }) if *pid == self.process.pid => {
                self.blocked_here = step.outcome().sends.is_empty();
            }
            Event::Deliver(message) => {
                if let Message::Grant { call, .. } = message.get() {
                    self.blocked_here = self.blocked_here || self.has_number(call.number);
                }
            }
            _ => {}
        }
    }
}

/// Whether a call with this operation may give up a lock.
pub(crate) fn may_release(op: &Op) -> bool {
    match op {
        Op::Unlock { .. } | Op::Close { .. } | Op::Exit => true,
        Op::Lock(call) => call.command != LockCommand::Query && call.mode == Mode::Read,
        Op::Process(_) => false,
    }
}

/// The open calls of the clients of a node, in the order in which the node took them.
#[derive(Drop)]
pub(crate) struct UnansweredCalls {
    calls: Vec<UnansweredCall>,
}

impl UnansweredCalls {
    /// No open calls.
    pub(crate) fn new(alloc: Global) -> UnansweredCalls {
        UnansweredCalls {
            calls: Vec::new(alloc),
        }
    }

    /// Makes room for one more call.
    pub(crate) fn reserve(&mut self) -> Result<(), AllocError>
        ensures { OnOk result (vec_len self.new.calls < vec_capacity self.new.calls) }
    {
        self.calls.reserve(1)
    }

    /// Adds the call, for which there is room.
    pub(crate) fn add(&mut self, call: UnansweredCall)
        requires { vec_len self.old.calls < vec_capacity self.old.calls }
    {
        self.calls.push_reserved(call);
    }

    /// Takes out the call that the step answers, if there is one, and makes its receipt.
    pub(crate) fn take_answered(&mut self, reply: &Stamp) -> Option<(UnansweredCall, Receipt)> {
        for index in 0..self.calls.len() {
            if let Some(receipt) = Receipt::of(&self.calls[index].stamp, reply) {
                return Some((self.calls.remove(index), receipt));
            }
        }
        None
    }

    /// Takes out the call of the process, if there is one. There is then as much room as before.
    pub(crate) fn take_of(&mut self, pid: u16) -> Option<UnansweredCall>
        ensures fewer { vec_len self.new.calls ≤ vec_len self.old.calls }
        ensures room { vec_capacity self.new.calls ≡ vec_capacity self.old.calls }
    {
        let index = self.calls.iter().position(|call| call.process.pid == pid)?;
        Some(self.calls.remove(index))
    }

    /// Takes out all calls.
    pub(crate) fn take_all(&mut self, alloc: Global) -> Vec<UnansweredCall> {
        mem::replace(&mut self.calls, Vec::new(alloc))
    }

    pub(crate) fn len(&self) -> usize {
        self.calls.len()
    }

    pub(crate) fn is_empty(&self) -> bool {
        self.calls.is_empty()
    }

    /// Notes a step of the node, which may have tried calls again.
    pub(crate) fn note(&mut self, step: &Stamp) {
        for call in self.calls.iter_mut() {
            call.note(step);
        }
    }

    /// Counts a tick for the call at the index. Answers whether it is time to try the call again.
    pub(crate) fn pass_tick(&mut self, index: usize) -> bool {
        let Some(call) = self.calls.get_mut(index) else {
            return false;
        };
        let is_due = call.patience.is_due();
        call.patience = call.patience.after_tick();
        is_due
    }

    /// Lets the open call of the process wait as if for the first time: memory for a try was refused.
    pub(crate) fn wait_anew(&mut self, pid: u16) {
        if let Some(call) = self.calls.iter_mut().find(|call| call.process.pid == pid) {
            call.patience = Patience::new();
        }
    }

    /// Whether a lock of its own node blocks the call at the index.
    pub(crate) fn is_blocked_here(&self, index: usize) -> bool {
        match self.calls.get(index) {
            Some(call) => call.blocked_here,
            None => false,
        }
    }

    /// The process of the call at the index.
    pub(crate) fn pid_at(&self, index: usize) -> Option<u16> {
        let call = self.calls.get(index)?;
        Some(call.process.pid)
    }
}
