//! The open calls of a node.
//!
//! Each function here that can fail errs with `AllocError`, where a request for memory was refused.
ghost use Rattle.std.specs.Prelude.{◌≡◌, ◌==◌, ◌↔◌, ◌++◌, ◌∷◌, ◌<◌, ◌≤◌, [], not, IfOk, IsTrue, is_some, find, filter, length};
ghost use Rattle.std.specs.Vec.{vec_capacity};
ghost use Rattle.node_core.specs.code.Plans.{pending_after, HasRoom};

use crate::hints::Hints;
use crate::open_call::OpenCall;
use std::alloc::{AllocError, Global};
use std::marker::Model;

/// A change of the open calls by a step.
#[derive(Drop)]
pub enum CallsEdit {
    /// The open calls stay as they are.
    Same,
    /// One more call is open, the last in order; the list is empty and has room for all open calls.
    Put(OpenCall, Vec<OpenCall>),
    /// The call with this number is open no longer.
    Gone(u32),
    /// The open call of the process, and the call with this number, are open no longer.
    Left { pid: u16, number: u32 },
}

/// The open calls of a node, in order of arrival. Each process has one at most.
#[derive(Drop)]
pub struct OpenCalls {
    calls: Vec<OpenCall>,
    // Most searches for a call that isn't open end at these hints.
    hints: Hints,
}

impl Model for OpenCalls {
    ghost use Rattle.std.specs.Prelude.{List};
    ghost use Rattle.node_core.specs.declared.open_call.OpenCall.{OpenCall as Call};

    ghost Value = { List Call };

    ghost view = { λ c. c.calls.items };

    ghost use Rattle.std.specs.Prelude.{All};
    ghost use Rattle.node_core.specs.code.Plans.{IsHinted};

    ghost invariant = { λ c. All (IsHinted c.hints) c.calls.items };
}

// Adds a call behind the others, which all move to the list `room`.
fn put_last(calls: &mut Vec<OpenCall>, call: OpenCall, room: Vec<OpenCall>)
    requires empty { room.items ≡ [] }
    requires room { length calls.old.items < vec_capacity room }
    ensures { calls.new.items ≡ calls.old.items ++ call ∷ [] }
{
    let mut moved = std::mem::replace(calls, room);
    let Ok(()) = calls.append(&mut moved) else {
        unreachable!()
    };
    let Ok(()) = calls.push(call) else {
        unreachable!()
    };
}

impl OpenCalls {
    /// The list without open calls.
    pub fn new(alloc: Global) -> OpenCalls
        ensures { result ≡ [] }
    {
        OpenCalls {
            calls: Vec::new(alloc),
            hints: Hints::none(),
        }
    }

    /// Equal open calls, in the same order.
    pub fn copy(&self) -> Result<OpenCalls, AllocError>
        ensures { IfOk result (λ copy. copy ≡ self.now) }
    {
        Ok(OpenCalls {
            calls: Vec::from_slice(*self.calls.allocator(), &self.calls)?,
            hints: self.hints,
        })
    }

    /// The open calls, in order of arrival.
    pub fn as_slice(&self) -> &[OpenCall]
        ensures { result.now ≡ self.now }
    {
        self.calls.as_slice()
    }

    /// The open call with this number, if there is one.
    pub fn get(&self, number: u32) -> Option<OpenCall>
        ensures { result ≡ find (λ c. c.number == number) self.now }
    {
        if !self.hints.has_number(number) {
            return None;
        }
        self.calls
            .iter()
            .find(|call| call.number == number)
            .copied()
    }

    /// The open call of the process, if it has one.
    pub fn call_of(&self, pid: u16) -> Option<OpenCall>
        ensures { result ≡ find (λ c. c.pid == pid) self.now }
    {
        if !self.hints.has_caller(pid) {
            return None;
        }
        self.calls.iter().find(|call| call.pid == pid).copied()
    }

    /// Whether the process has an open call.
    pub fn has_call_of(&self, pid: u16) -> bool
        ensures { result ≡ is_some (find (λ c. c.pid == pid) self.now) }
    {
        self.call_of(pid).is_some()
    }

    /// An empty list with room for all open calls and one more.
    pub fn room(&self) -> Result<Vec<OpenCall>, AllocError>
        ensures empty { IfOk result (λ room. room.items ≡ []) }
        ensures room { IfOk result (λ room. length self.now < vec_capacity room) }
    {
        Vec::with_capacity(*self.calls.allocator(), self.calls.len() + 1)
    }

    // Adds a call behind the others, which all move to the list `room`.
    fn put(&mut self, call: OpenCall, room: Vec<OpenCall>)
        requires empty { room.items ≡ [] }
        requires room { length self.old < vec_capacity room }
        ensures { self.new ≡ self.old ++ call ∷ [] }
    {
        self.hints.add(&call);
        put_last(&mut self.calls, call, room);
    }

    // Removes the call with this number.
    fn drop_call(&mut self, number: u32)
        ensures { self.new ≡ filter (λ c. not (c.number == number)) self.old }
    {
        if self.hints.has_number(number) {
            self.calls.retain(|call| call.number != number);
            self.hints = Hints::of(&self.calls);
        }
    }

    // Removes the call of the process.
    fn drop_calls_of(&mut self, pid: u16)
        ensures { self.new ≡ filter (λ c. not (c.pid == pid)) self.old }
    {
        if self.hints.has_caller(pid) {
            self.calls.retain(|call| call.pid != pid);
            self.hints = Hints::of(&self.calls);
        }
    }

    /// Makes a planned change. Takes no memory.
    pub fn apply(&mut self, edit: CallsEdit)
        requires { HasRoom (length self.old) edit }
        ensures { self.new ≡ pending_after self.old edit }
    {
        match edit {
            CallsEdit::Same => {}
            CallsEdit::Put(call, room) => self.put(call, room),
            CallsEdit::Gone(number) => self.drop_call(number),
            CallsEdit::Left { pid, number } => {
                self.drop_calls_of(pid);
                self.drop_call(number);
            }
        }
    }

    /// Whether both have equal calls in the same order.
    pub fn same(&self, other: &OpenCalls) -> bool
        ensures { IsTrue result ↔ (self.now ≡ other.now) }
    {
        if self.calls.len() != other.calls.len() {
            return false;
        }
        for i in 0..self.calls.len() {
            if !self.calls[i].same(&other.calls[i]) {
                return false;
            }
        }
        true
    }
}
