//! A cluster that runs on threads.
ghost use Rattle.std.specs.Prelude.{◌≡◌, ◌+◌, ◌↔◌, IfOk, IsErrOf, length};
ghost use Rattle.actors.specs.declared.call_error.CallError.TheVariants.{Stranger};
ghost use Rattle.model.specs.rule.Limits.{IsNumber, most_processes};
ghost use Rattle.cluster_core.specs.rule.Histories.{HasOneHistory};

use crate::{
    Begun, CallError, Client, Gate, Letter, Mailbox, NodePlace, OpenGate, ServerPlace, Weather,
    begin, is_stuck, start_all,
};
use book::{Book, Name};
use cluster_core::Journal;
use crossbeam_channel::SendError;
use messages::{Actor, Shape, SharedMessage};
use model::{MOST_PROCESSES, Process};
use std::alloc::{AllocError, Global};
use std::marker::Brand;
use std::sync::{Mutex, Wait};
use std::thread;
use std::thread::Threads;
use std::time::Clock;

mod failures;

/// A cluster that runs on threads: its parts, the book under its lock, and the gate that is told of the steps that its
/// threads make. Clients make steps themselves where the gate is open to them.
#[derive(Drop)]
pub struct Cluster<'a, J: Name, G> {
    pub(crate) begun: &'a Begun<J>,
    pub(crate) book: &'a Mutex<Book<J>>,
    pub(crate) gate: &'a G,
    is_open: bool,
}

impl<'a, J: Name, G> Cluster<'a, J, G> {
    /// The cluster of these parts, which is lent to its workers and to callers of the nodes. Its gate is told of the
    /// steps that clients make themselves, which they may if it is open to them.
    pub fn of(
        begun: &'a Begun<J>,
        book: &'a Mutex<Book<J>>,
        gate: &'a G,
        is_open: bool,
    ) -> Cluster<'a, J, G> {
        Cluster {
            begun,
            book,
            gate,
            is_open,
        }
    }

    /// The place of the node, if the cluster has it.
    pub(crate) fn place(&self, node: u8) -> Option<&'a Mutex<NodePlace<J>>> {
        self.begun.places.get(usize::from(node).checked_sub(1)?)
    }

    /// The place for the file's token server as it begins again, if the cluster has it.
    pub(crate) fn server_place(&self, file: u16) -> Option<&'a ServerPlace<J>> {
        let index = usize::from(file).checked_sub(1)?;
        self.begun.server_places.get(index)
    }

    /// The mailbox of the actor, if the cluster has it.
    pub(crate) fn mailbox(&self, actor: Actor) -> Option<&'a Mailbox> {
        let before = match actor {
            Actor::Node(node) => usize::from(node),
            Actor::Server(file) => usize::from(self.begun.nodes) + usize::from(file),
        };
        self.begun.mailboxes.get(before.checked_sub(1)?)
    }

    /// Puts the message, shared, into the mailbox of its addressee, as `deliver` does.
    pub(crate) fn send<R: Wait>(&self, rt: &R, message: &SharedMessage) {
        match message.share() {
            Ok(shared) => self.deliver(rt, shared),
            Err(_) => self.begun.halt.note_refused(),
        }
    }

    /// Puts the message into the mailbox of its addressee. A message for which there is no memory is lost.
    pub(crate) fn deliver<R: Wait>(&self, rt: &R, message: SharedMessage) {
        let Some(mailbox) = self.mailbox(message.get().addressee()) else {
            return;
        };
        if let Err(SendError::OutOfMemory(_)) = mailbox.letters.send(rt, Letter::Deliver(message)) {
            self.begun.halt.note_refused();
        }
    }

    /// The allocator from which memory is taken.
    pub fn alloc(&self) -> Global {
        self.begun.alloc
    }

    /// Ends the workers before they take another letter. Calls that are open then are answered `Unanswered`, and
    /// later ones `Closed`. (A call that a client is just making itself may still be answered.)
    pub fn stop(&self) {
        self.begun.halt.set();
    }

    /// Whether the workers end, or have ended, because too many requests for memory were refused.
    pub fn is_short(&self) -> bool {
        self.begun.halt.is_short()
    }

    /// Whether the open calls of that many processes can't be answered any more, where the token servers of these
    /// files are declared failed.
    pub fn is_stuck<R: Wait>(&self, rt: &R, processes: usize, failed: &[u16]) -> bool {
        is_stuck(
            self.alloc(),
            self.book.lock(rt).entries(),
            processes,
            failed,
        )
    }

    /// The number of entries of the journal.
    pub fn len<R: Wait>(&self, rt: &R) -> u32 {
        self.book.lock(rt).len()
    }
}

impl<'a, J: Name, G: Gate> Cluster<'a, J, G> {
    /// A client of a process of the node's live incarnation, which has seen nothing of the journal.
    ///
    /// # Errors
    /// In this order: `Stranger` where the node is outside the shape or the process outside 1 to 256; `Fenced` while
    /// the node is declared failed; `Busy` where a client of that process of this incarnation was handed out before;
    /// `NoMemory` where a request for memory was refused.
    pub fn client<R: Wait>(&self, rt: &R, node: u8, pid: u16) -> Result<Client<'a, J, G>, CallError>
        ensures process { IfOk result (λ client. (client.process.node ≡ node) × (client.process.pid ≡ pid)) }
        ensures fresh { IfOk result (λ client. client.last ≡ 0) }
        ensures stranger { IsErrOf result Stranger ↔ (IsNumber self.now.begun.now.nodes node × IsNumber most_processes pid → ⊥) }
    {
        let begun = self.begun;
        if node < 1 || node > begun.nodes || pid < 1 || pid > MOST_PROCESSES {
            return Err(CallError::Stranger);
        }
        let index = usize::from(node) - 1;
        let mailbox = &begun.mailboxes[index];
        let incarnation = begun.places[index].lock(rt).hand_out(pid)?;
        let process = Process {
            node,
            incarnation,
            pid,
        };
        let desk = if self.is_open {
            begun.desks.get(index)
        } else {
            None
        };
        let cluster = Cluster::of(begun, self.book, self.gate, self.is_open);
        Ok(Client::new(cluster, process, mailbox, desk))
    }
}

/// Runs a cluster of the shape on threads for as long as the body runs, which gets the cluster. Each actor has a
/// thread, a mailbox and a weather, nodes first. The gate is asked once whether it is open. If it is, a call that
/// needs no other actor may be made on the caller's thread, and the gate isn't told of it. The body's result comes
/// with the journal. The book has no trail, so each commit compares the seat's state with the book's copy (the book
/// of `run_threads` has one).
///
/// Where a hundred requests for memory are refused one after the other, with no step between them, the threads of the
/// actors end: calls that are open then are answered `Unanswered`, and later ones `Closed`.
///
/// # Errors
/// `AllocError` where a request for memory or for a thread was refused.
pub fn with_cluster<
    G: Gate + Sync,
    W: Weather + Send,
    R: Threads + Wait + Clock + Sync,
    T,
    F: FnOnce(&Cluster<'_, Brand, OpenGate>) -> T,
>(
    rt: &R,
    alloc: Global,
    shape: Shape,
    gate: &G,
    weathers: Vec<W>,
    body: F,
) -> Result<(T, Journal), AllocError>
    requires each { length weathers.items ≡ shape.nodes + shape.files }
    requires body { F.IsAlwaysCallable body }

    // One table explains every reply, and ends with what the nodes hold.
    ensures one_table { IfOk result (λ made. HasOneHistory made.1.shape made.1.entries) }
{
    let (book, seats) = Book::new(alloc, shape, None)?;
    let book = Mutex::new(book);
    let (begun, inboxes) = begin(alloc, shape, seats)?;
    let of_workers = Cluster::of(&begun, &book, gate, false);
    let cluster = Cluster::of(&begun, &book, &OpenGate, gate.is_open());
    let made = thread::scope(thread::scope_env(), rt, |scope| {
        let all = start_all(scope, rt, &of_workers, inboxes, weathers);
        let made = if all {
            Ok(body(&cluster))
        } else {
            Err(AllocError)
        };
        cluster.stop();
        made
    })?;
    let (journal, _) = book.into_inner().into_journal();
    Ok((made, journal))
}
