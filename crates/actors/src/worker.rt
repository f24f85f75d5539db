//! The worker of an actor: the thread that takes its letters and makes its steps.
ghost use Rattle.std.specs.Prelude.{◌<◌};

use crate::{
    CallError, CallResult, Cluster, Desk, Gate, Letter, Outgoing, UnansweredCalls, Weather, lock,
};
use book::{Mark, Name, Seat, Stamp};
use crossbeam_channel::{Receiver, RecvTimeoutError, Sender};
use messages::{Actor, Event, Pace, ServerInput};
use model::Process;
use std::collections::BTreeMap;
use std::sync::Wait;
use std::sync::atomic::Ordering;
use std::time::{Clock, Duration};

mod questions;
mod tries;

// The longest sleep of a worker, in milliseconds. A letter wakes it; but where memory is refused, the letter that
// tells it to end may not come.
const LONGEST_SLEEP: u64 = 250;

/// The worker of an actor. It has the reason why no step is taken any more, if there is one; the messages on their
/// way; the mailbox, and whether the last tick has not been given back. For a node it has the channels for answers to
/// its clients, each by the incarnation and the number of its process, and their open calls; for a token server the
/// time at which it sends again. The seat is at the actor's desk.
///
/// A client hands the sending end of its channel over with a question and keeps none: so it sees that no answer comes
/// any more where the worker ends.
#[derive(Drop)]
pub(crate) struct Worker<'s, 'b, J: Name, G: Gate, R: Wait, W: Weather> {
    rt: &'s R,
    cluster: &'s Cluster<'b, J, G>,
    desk: &'s Desk<J>,
    actor: Actor,
    over: Option<CallError>,
    outgoing: Outgoing<'s, 'b, J, G, R, W>,
    inbox: Receiver<Letter>,
    has_tick: bool,
    paths: BTreeMap<(u16, u16), Sender<CallResult>>,
    waiting: UnansweredCalls,
    pace: Pace,
}

impl<'s, 'b, J: Name, G: Gate, R: Wait + Clock, W: Weather> Worker<'s, 'b, J, G, R, W> {
    /// A worker at the actor's desk that has done nothing.
    pub(crate) fn new(
        rt: &'s R,
        cluster: &'s Cluster<'b, J, G>,
        desk: &'s Desk<J>,
        inbox: Receiver<Letter>,
        weather: W,
    ) -> Self {
        let actor = desk.lock(rt).seat.actor();
        Worker {
            rt,
            cluster,
            desk,
            actor,
            over: None,
            outgoing: Outgoing::new(rt, cluster, weather),
            inbox,
            has_tick: true,
            paths: BTreeMap::new(cluster.alloc()),
            waiting: UnansweredCalls::new(cluster.alloc()),
            pace: Pace::at_rest(),
        }
    }

    /// Takes letters until the workers are to end. Holds the work at the desk while it takes one.
    pub(crate) fn work(self) {
        let mut worker = self;
        let (rt, desk) = (worker.rt, worker.desk);
        for _ in rt.forever() {
            let Some(letter) = worker.next_letter() else {
                break;
            };
            let mut work = lock(rt, desk);
            worker.change_seats(&mut work.seat);
            worker.take(&mut work.seat, letter);
            let _ = work.seat.catch_up(worker.cluster.alloc()); // where memory is refused, the next step does it
            worker.ask_for_tick();
            work.has_open = !worker.waiting.is_empty();
        }
        worker.leave_all();
        worker.cluster.begun.working.fetch_sub(1, Ordering::SeqCst);
    }

    // The next letter; `None` where no more will come, or the workers are to end.
    fn next_letter(&self) -> Option<Letter> {
        let longest = Duration::from_millis(LONGEST_SLEEP);
        for _ in self.rt.forever() {
            let next = self.inbox.recv_timeout(self.rt, longest);
            if self.cluster.begun.halt.is_set() {
                break;
            }
            match next {
                Ok(letter) => return Some(letter),
                Err(RecvTimeoutError::Timeout) => {}
                Err(RecvTimeoutError::Disconnected) => break,
            }
        }
        None
    }

    // Takes the seat of a new incarnation or epoch, if there is one. A token server then asks the nodes for their
    // tokens.
    fn change_seats(&mut self, seat: &mut Seat<J>) {
        match self.actor {
            Actor::Node(node) => {
                if let Some(new) = self.new_seat(node) {
                    self.kill_all();
                    *seat = new;
                    self.over = None;
                }
            }
            Actor::Server(file) => {
                if let Some((new, asks)) = self.new_server(file) {
                    self.pace = Pace::begun();
                    self.outgoing.send_all(&asks);
                    *seat = new;
                }
            }
        }
    }

    // Takes the seat of a new incarnation of the node, if one waits.
    fn new_seat(&self, node: u8) -> Option<Seat<J>> {
        self.cluster.place(node)?.lock(self.rt).take_seat()
    }

    // Takes the seat of the file's token server that begins again, with the stamp of its beginning, if one waits.
    fn new_server(&self, file: u16) -> Option<(Seat<J>, Stamp)> {
        self.cluster.server_place(file)?.lock(self.rt).take()
    }

    // Does what the letter asks for.
    fn take(&mut self, seat: &mut Seat<J>, letter: Letter) {
        match letter {
            Letter::Ask(question) => self.take_question(seat, question),
            Letter::Deliver(message) => {
                let _ = self.step(seat, Event::Deliver(message));
            }
            Letter::Learn { node, incarnation } => self.learn(seat, node, incarnation),
            Letter::Tick => self.take_tick(seat),
            Letter::Begin => {}
        }
    }

    // Gives the last tick back to the mailbox, if there is something to do at the next.
    fn ask_for_tick(&mut self) {
        let waits = !self.waiting.is_empty() || !self.pace.rests;
        if !self.has_tick || (!waits && self.outgoing.is_empty()) {
            return;
        }
        if let Some(mailbox) = self.cluster.mailbox(self.actor) {
            mailbox.ticks.store(0, Ordering::SeqCst);
            self.has_tick = false;
        }
    }

    // Makes the token server learn of a declaration. If memory for it is refused, the letter comes again.
    fn learn(&mut self, seat: &mut Seat<J>, node: u8, incarnation: u16) {
        let Actor::Server(file) = self.actor else {
            return;
        };
        let news = ServerInput::Learn { node, incarnation };
        let learned = self.step(seat, Event::AtServer(file, news));
        if learned == Err(CallError::NoMemory) {
            if let Some(mailbox) = self.cluster.mailbox(self.actor) {
                let letter = Letter::Learn { node, incarnation };
                mailbox.send_surely(self.rt, letter, &self.cluster.begun.halt);
            }
        }
    }

    // Makes a step of the actor: sends its messages, and answers the call that it answers.
    fn step(&mut self, seat: &mut Seat<J>, event: Event) -> Result<(), CallError> {
        let stamp = self.commit_step(seat, event, None)?;
        self.outgoing.send_all(&stamp);
        if let Some((call, receipt)) = self.waiting.take_answered(&stamp) {
            self.answer(call.process(), Ok(receipt));
        }
        match self.actor {
            Actor::Node(_) => self.waiting.note(&stamp),
            Actor::Server(_) => self.pace = self.pace.noted(stamp.event()),
        }
        Ok(())
    }

    // Prepares a step of the seat without the book's lock, and commits it. Notes it where memory is refused for that.
    fn commit_step(
        &self,
        seat: &mut Seat<J>,
        event: Event,
        seen: Option<&Mark>,
    ) -> Result<Stamp, CallError> {
        let made = match seat.prepare(self.cluster.alloc(), event) {
            Ok(prepared) => self.cluster.commit(self.rt, seat, prepared, seen),
            Err(why) => Err(CallError::from(why)),
        };
        if let Err(CallError::NoMemory) = made {
            self.cluster.begun.halt.note_refused();
        }
        made
    }

    // Answers the process. A client that is gone needs no answer.
    fn answer(&self, process: Process, answer: CallResult) {
        if let Some(back) = self.paths.get(&(process.incarnation, process.pid)) {
            let _ = back.send(self.rt, answer);
        }
    }

    // Ends each open call, where the refusal says that no step of the seat is taken any more.
    fn end_at(&mut self, refusal: CallError) {
        match refusal {
            CallError::Fenced => self.kill_all(),
            CallError::JournalFull => {
                for call in self.waiting.take_all(self.cluster.alloc()) {
                    self.answer(call.process(), Err(refusal));
                }
            }
            _ => return,
        }
        self.over = Some(refusal);
    }

    // Ends each open call without a reply: its node was declared failed.
    fn kill_all(&mut self) {
        for call in self.waiting.take_all(self.cluster.alloc()) {
            self.answer(call.process(), Err(call.killed()));
        }
    }

    // Leaves each open call without an answer: the worker ends.
    fn leave_all(&mut self) {
        for call in self.waiting.take_all(self.cluster.alloc()) {
            self.answer(call.process(), Err(call.unanswered()));
        }
    }
}
