//! The parts of a cluster that begins, and its threads.
ghost use Rattle.std.specs.Prelude.{◌≡◌, ◌+◌, ◌≤◌, IfOk, length};
ghost use Rattle.model.specs.rule.Limits.{IsNumber, most_nodes};

use crate::{Cluster, Desk, Gate, Halt, Letter, Mailbox, NodePlace, Weather, Work, Worker};
use book::{Name, Seat, Stamp};
use crossbeam_channel::{Receiver, unbounded};
use messages::Shape;
use std::alloc::{AllocError, Global};
use std::sync::atomic::{AtomicU64, Ordering};
use std::sync::{Mutex, Wait};
use std::thread;
use std::thread::{Scope, Threads};
use std::time::{Clock, Duration};

/// The place for a token server that begins again, until its worker takes it: its seat, and the stamp with the
/// messages in which it asks the nodes for their tokens.
pub(crate) type ServerPlace<J> = Mutex<Option<(Seat<J>, Stamp)>>;

/// The parts of a cluster beside its book and its workers: a mailbox and a desk for each actor, nodes first, a place
/// for each node, and a place for each token server as it begins again; whether the workers are to end; and how many
/// work.
#[derive(Drop)]
pub struct Begun<J: Name> {
    pub(crate) alloc: Global,
    pub(crate) nodes: u8,
    pub(crate) mailboxes: Vec<Mailbox>,
    pub(crate) desks: Vec<Desk<J>>,
    pub(crate) places: Vec<Mutex<NodePlace<J>>>,
    pub(crate) server_places: Vec<ServerPlace<J>>,
    pub(crate) halt: Halt,
    pub(crate) working: AtomicU64,
    ghost within: { IsNumber most_nodes nodes },
    ghost has_mailboxes: { nodes ≤ length mailboxes.items },
    ghost has_places: { length places.items ≡ nodes },
}

/// The parts of a cluster of the shape on these seats, and the receiving end of each mailbox.
///
/// # Errors
/// `AllocError` where a request for memory was refused.
pub fn begin<J: Name>(
    alloc: Global,
    shape: Shape,
    seats: Vec<Seat<J>>,
) -> Result<(Begun<J>, Vec<Receiver<Letter>>), AllocError>
    requires { length seats.items ≡ shape.nodes + shape.files }
{
    let (mailboxes, inboxes) = mailboxes_of(alloc, seats.len())?;
    let begun = Begun {
        alloc,
        nodes: shape.nodes(),
        mailboxes,
        desks: seats.into_iter().map(|seat| desk_of(seat)).collect(alloc)?,
        places: places_of(alloc, shape.nodes())?,
        server_places: (0..shape.files()).map(|_| Mutex::new(None)).collect(alloc)?,
        halt: Halt::new(),
        working: AtomicU64::new(0),
    };
    Ok((begun, inboxes))
}

// The desk of the seat's actor, without open calls.
fn desk_of<J: Name>(seat: Seat<J>) -> Desk<J> {
    Mutex::new(Work {
        seat,
        has_open: false,
    })
}

/// Starts the pacer, and a worker for each actor, with its weather and its inbox. `false` where a thread can't be
/// made.
pub fn start_all<
    's,
    'b: 's,
    E,
    J: Name + Send + Sync,
    G: Gate + Sync,
    W: Weather + Send + 's,
    R: Threads + Wait + Clock + Sync,
>(
    scope: &Scope<'s, E>,
    rt: &'s R,
    cluster: &'s Cluster<'b, J, G>,
    inboxes: Vec<Receiver<Letter>>,
    weathers: Vec<W>,
) -> bool {
    if scope.spawn(move || pace(rt, cluster)).is_err() {
        return false;
    }
    let mut all = true;
    let working = &cluster.begun.working;
    for ((desk, inbox), weather) in cluster.begun.desks.iter().zip(inboxes).zip(weathers) {
        working.fetch_add(1, Ordering::SeqCst);
        let worker = Worker::new(rt, cluster, desk, inbox, weather);
        if scope.spawn(move || worker.work()).is_err() {
            working.fetch_sub(1, Ordering::SeqCst);
            all = false;
        }
    }
    all
}

// Sends each mailbox whose worker waits for one a tick, at most one each millisecond, and the next only when the
// worker has given the last one back. Once the workers are to end, sends each a tick that wakes it, until no worker
// works.
fn pace<J: Name, G, R: Wait + Clock>(rt: &R, cluster: &Cluster<'_, J, G>) {
    let halt = &cluster.begun.halt;
    for _ in rt.forever() {
        thread::sleep(rt, Duration::from_millis(1));
        if halt.is_set() && cluster.begun.working.load(Ordering::SeqCst) == 0 {
            break;
        }
        for mailbox in cluster.begun.mailboxes.iter() {
            mailbox.tick(rt, halt);
        }
    }
}

// That many mailboxes, whose workers need no tick, and the receiving end of each.
fn mailboxes_of(
    alloc: Global,
    count: usize,
) -> Result<(Vec<Mailbox>, Vec<Receiver<Letter>>), AllocError>
    ensures { IfOk result (λ made. length made.0.items ≡ count) }
{
    let mut mailboxes = Vec::new(alloc);
    let mut inboxes = Vec::new(alloc);
    for _ in 0..count {
        let (letters, inbox) = unbounded(alloc)?;
        let ticks = AtomicU64::new(1);
        mailboxes.push(Mailbox { letters, ticks })?;
        inboxes.push(inbox)?;
    }
    Ok((mailboxes, inboxes))
}

// The places of that many nodes, as they begin.
fn places_of<J: Name>(alloc: Global, nodes: u8) -> Result<Vec<Mutex<NodePlace<J>>>, AllocError>
    ensures { IfOk result (λ places. length places.items ≡ nodes) }
{
    let mut places = Vec::new(alloc);
    for _ in 0..nodes {
        places.push(Mutex::new(NodePlace::new(alloc)))?;
    }
    Ok(places)
}
