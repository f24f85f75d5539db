//! Letters, the mailboxes of actors, which take them, and the answers that come back.
use crate::{CallError, Halt};
use book::{Mark, Receipt};
use crossbeam_channel::{SendError, Sender};
use messages::SharedMessage;
use model::{Op, Process};
use std::sync::Wait;
use std::sync::atomic::{AtomicU64, Ordering};
use std::thread;

/// A letter in the mailbox of an actor.
#[derive(Drop)]
pub enum Letter {
    /// A process of the node makes a call.
    Ask(Question),
    /// A message for the actor is delivered.
    Deliver(SharedMessage),
    /// An incarnation of a node was declared failed.
    Learn { node: u8, incarnation: u16 },
    /// A tick of the pacer.
    Tick,
    /// The token server begins again, on the seat that waits for its worker.
    Begin,
}

/// A call, with what its client has seen of the journal, and a new channel for answers to the client, if it isn't the
/// one used before.
#[derive(Drop)]
pub struct Question {
    pub(crate) process: Process,
    pub(crate) op: Op,
    pub(crate) seen: Option<Mark>,
    pub(crate) back: Option<Sender<CallResult>>,
}

/// The answer to a call: its receipt, or why there is none.
pub(crate) type CallResult = Result<Receipt, CallError>;

/// The mailbox of an actor, and whether it takes a tick: 0 where its worker waits for one, 1 where one is on its way
/// or the worker needs none.
#[derive(Drop)]
pub(crate) struct Mailbox {
    pub(crate) letters: Sender<Letter>,
    pub(crate) ticks: AtomicU64,
}

impl Mailbox {
    /// Sends a tick if the worker waits for one, or if all workers are to end. If the sending is refused, the tick is
    /// sent at the next call.
    pub(crate) fn tick<R: Wait>(&self, rt: &R, halt: &Halt) {
        if self.ticks.swap(1, Ordering::SeqCst) == 1 && !halt.is_set() {
            return;
        }
        if let Err(SendError::OutOfMemory(_)) = self.letters.send(rt, Letter::Tick) {
            halt.note_refused();
            self.ticks.store(0, Ordering::SeqCst);
        }
    }

    /// Sends a letter. Tries again for as long as memory for it is refused, up to the end of the workers.
    pub(crate) fn send_surely<R: Wait>(&self, rt: &R, letter: Letter, halt: &Halt) {
        let mut letter = letter;
        for _ in rt.forever() {
            match self.letters.send(rt, letter) {
                Err(SendError::OutOfMemory(back)) => letter = back,
                _ => return,
            }
            halt.note_refused();
            if halt.is_set() {
                return;
            }
            thread::yield_now();
        }
    }
}
