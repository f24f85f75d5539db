//! The questions of clients, as a worker takes them.
ghost use Rattle.std.specs.Prelude.{◌<◌, vec_len, OnOk};
ghost use Rattle.std.specs.Vec.{vec_capacity};

use super::Worker;
use super::tries::Cause;
use crate::{CallError, CallResult, Gate, Question, UnansweredCall, Weather, may_release};
use book::{Mark, Name, Receipt, Seat, Stamp};
use crossbeam_channel::Sender;
use messages::{Event, NodeInput};
use model::{Op, Process};
use std::sync::Wait;
use std::time::Clock;

impl<'s, 'b, J: Name, G: Gate, R: Wait + Clock, W: Weather> Worker<'s, 'b, J, G, R, W> {
    // Takes the question of a client: makes its call.
    pub(super) fn take_question(&mut self, seat: &mut Seat<J>, question: Question) {
        let Question {
            process,
            op,
            seen,
            back,
        } = question;
        if !self.learn_path(process, back) {
            return;
        }
        match self.begin(seat, process, op, seen.as_ref()) {
            Ok(stamp) => {
                self.open(process, stamp);
                if may_release(&op) {
                    self.retry_all(seat, process.node, Cause::Release);
                }
            }
            Err(why) => self.answer(process, Err(why)),
        }
    }

    // Keeps the channel for answers to the process, if a new one came. `false` where memory for it was refused; the
    // process is answered that.
    fn learn_path(&mut self, process: Process, back: Option<Sender<CallResult>>) -> bool {
        let Some(back) = back else {
            return true;
        };
        match self.paths.insert((process.incarnation, process.pid), back) {
            Ok(_) => true,
            Err(failed) => {
                let _ = failed.value.1.send(self.rt, Err(CallError::NoMemory));
                false
            }
        }
    }

    // Makes the call of the process, if the node, in that incarnation, may take one, and sends the messages of the
    // step. There is then room for the call.
    fn begin(
        &mut self,
        seat: &mut Seat<J>,
        process: Process,
        op: Op,
        seen: Option<&Mark>,
    ) -> Result<Stamp, CallError>
        ensures { OnOk result (vec_len self.new.waiting.calls < vec_capacity self.new.waiting.calls) }
    {
        if process.incarnation != seat.incarnation() {
            return Err(CallError::Fenced);
        }
        if let Some(why) = self.over {
            return Err(why);
        }
        if self.waiting.reserve().is_err() {
            return Err(CallError::NoMemory);
        }
        let pid = process.pid;
        let event = Event::AtNode(process.node, NodeInput::Call { pid, op });
        let stamp = self.commit_step(seat, event, seen)?;
        self.outgoing.send_all(&stamp);
        Ok(stamp)
    }

    // Notes the call of this step of the process: it was answered, or is open from here on.
    fn open(&mut self, process: Process, stamp: Stamp)
        requires { vec_len self.old.waiting.calls < vec_capacity self.old.waiting.calls }
    {
        // A process that has an open call can only exit, which ends that call without a reply.
        if let Some(ended) = self.waiting.take_of(process.pid) {
            self.answer(ended.process(), Err(ended.killed()));
        }
        match Receipt::of(&stamp, &stamp) {
            Some(receipt) => self.answer(process, Ok(receipt)),
            None => self.waiting.add(UnansweredCall::new(process, stamp)),
        }
    }
}
