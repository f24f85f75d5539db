//! The tries of a worker: open calls of a node are made again, and a token server sends again.
use super::Worker;
use crate::{CallError, Gate, Weather};
use book::{Name, Seat, Stamp};
use messages::{Actor, Event, NodeInput, Pace, ServerInput};
use std::sync::Wait;
use std::time::Clock;

/// The cause for which open calls are tried again.
#[derive(Clone, Copy)]
pub(super) enum Cause {
    /// A tick: the calls for which it is time are tried.
    Tick,
    /// The node may have given up a lock: the calls that a lock of it blocks are tried.
    Release,
}

impl<'s, 'b, J: Name, G: Gate, R: Wait + Clock, W: Weather> Worker<'s, 'b, J, G, R, W> {
    // Does what is due at a tick: messages that were held back go, a node tries open calls again, and a token server
    // sends again what has no answer.
    pub(super) fn take_tick(&mut self, seat: &mut Seat<J>) {
        self.has_tick = true;
        self.outgoing.pass_tick();
        match self.actor {
            Actor::Node(node) => self.retry_all(seat, node, Cause::Tick),
            Actor::Server(file) => self.resend(seat, file),
        }
    }

    // Tries open calls again, in the order in which the node took them.
    pub(super) fn retry_all(&mut self, seat: &mut Seat<J>, node: u8, cause: Cause) {
        let mut index = 0;
        for _ in 0..self.waiting.len() {
            let Some(pid) = self.waiting.pid_at(index) else {
                break;
            };
            let due = match cause {
                Cause::Tick => self.waiting.pass_tick(index),
                Cause::Release => self.waiting.is_blocked_here(index),
            };
            if due {
                self.retry(seat, node, pid);
            }
            if self.waiting.pid_at(index) == Some(pid) {
                index = index.saturating_add(1);
            }
        }
    }

    // Tries an open call again. Where no step of this incarnation is taken any more, all open calls end.
    fn retry(&mut self, seat: &mut Seat<J>, node: u8, pid: u16) {
        match self.step(seat, Event::AtNode(node, NodeInput::Retry { pid })) {
            Ok(()) => {}
            Err(CallError::NoMemory) => self.waiting.wait_anew(pid),
            Err(why) => self.end_at(why),
        }
    }

    // Sends again what has no answer, if there is any and it is time. (A token server's.)
    fn resend(&mut self, seat: &mut Seat<J>, file: u16) {
        let is_due = self.pace.is_due();
        self.pace = self.pace.passed();
        if !is_due {
            return;
        }
        match self.send_again(seat, file) {
            Ok(Some(stamp)) => self.outgoing.send_all(&stamp),
            Ok(None) | Err(CallError::Fenced) => self.pace = Pace::at_rest(),
            Err(CallError::NoMemory) => {
                self.cluster.begun.halt.note_refused();
                self.pace = Pace::begun();
            }
            Err(_) => {}
        }
    }

    // Makes the step of a token server that sends again, if it sends anything.
    fn send_again(&self, seat: &mut Seat<J>, file: u16) -> Result<Option<Stamp>, CallError> {
        let event = Event::AtServer(file, ServerInput::Resend);
        let prepared = seat.prepare(self.cluster.alloc(), event)?;
        if prepared.outcome().sends.is_empty() {
            return Ok(None);
        }
        let stamp = self.cluster.commit(self.rt, seat, prepared, None)?;
        Ok(Some(stamp))
    }
}
