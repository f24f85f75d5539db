//! The run of a script on threads.
ghost use Rattle.std.specs.Prelude.{◌≡◌, ◌+◌, ◌↔◌, Some, IsErrOf, IsTrue, IfOk, length};
ghost use Rattle.thread_runs.specs.rule.Runs.{IsFullJournal, IsOfScript};
ghost use Rattle.thread_runs.specs.declared.run_error.RunError.{RunError};
ghost use Rattle.cluster_core.specs.rule.Histories.{HasOneHistory};
ghost use Rattle.cluster_core.specs.rule.Journals.{JournalFields};
ghost use Rattle.cluster_core.specs.rule.Parts.{world_state};
ghost use Rattle.cluster_core.specs.rule.Runs.{Leads};
ghost use Rattle.cluster_core.specs.rule.Safe.{IsSafe};
ghost use Rattle.cluster_core.specs.rule.World.{first_world};
ghost use Rattle.lockscript.specs.rule.ThreadLines.{bad_line};

use crate::{Manner, Phases, PlayedLine, RunError, RunWatcher, ThreadRun, is_full};
use actors::{Cluster, Gate, Seeded, begin, start_all};
use book::{Book, Name, NewTrail, Seat};
use cluster_core::{Journal, World};
use lockscript::{PlayError, Script, ScriptLine};
use messages::Shape;
use std::alloc::{AllocError, Global};
use std::marker::Brand;
use std::sync::{Mutex, Wait};
use std::thread;
use std::thread::Threads;
use std::time::Clock;

/// Runs a script on threads. Its lines are `call`, `settle`, `declare`, `restart`, `fail-server` and `start-server`;
/// the calls between two of the other lines form a phase. In a phase each process has a client of its own, which
/// makes its calls in order and waits for each reply. `settle` joins the clients; the lines of failures and starts
/// join them first, and so does the end. A line that is refused, but for want of memory or of room in the journal, is
/// listed and the run goes on. Messages meet the weather of the seed.
///
/// In a run with `no_join` the lines between two of `settle` form a phase. There a line of failures or starts waits
/// only until no call before it can be answered without it, as below; the later calls of a process whose call is open
/// wait behind that call. A call that is open where its node is declared failed is `Killed`.
///
/// A run that may stop where it is stuck is ended where the open calls can't be answered any more: each waits for a
/// lock that somebody holds, or for a token server that is declared failed, and no process is left to make a call.
/// Those calls stay open. The lines behind them, of their processes and of later phases, are left.
///
/// The watcher is told now and then how many calls are open, and how many entries the journal has.
///
/// The result comes with the world at the end of the journal, in which tokens of two nodes don't conflict, and tokens
/// cover all locks.
///
/// # Errors
/// `BadLine` with the number of the first line of another kind, before anything runs; `NoMemory` where a request for
/// memory or for a thread was refused; `JournalFull` with the journal where the run needs more entries than the
/// 1,048,576 that a journal may have.
pub fn run_threads<G: Gate + Sync, R: Threads + Wait + Clock + Sync, V: RunWatcher>(
    rt: &R,
    alloc: Global,
    script: &Script,
    gate: &G,
    seed: u32,
    manner: Manner,
    watcher: &mut V,
) -> Result<(ThreadRun, World), RunError>
    // The run is of the script: each line has one outcome, which is one of its command, and the calls, failures and
    // starts in the journal are those of its lines.
    ensures of_script { IfOk result (λ made. IsOfScript script.now manner.no_join manner.may_stop made.0) }

    // One table explains every reply, and ends with what the nodes hold.
    ensures one_table { IfOk result (λ made. HasOneHistory made.0.journal.shape made.0.journal.entries) }
    ensures leads { IfOk result (λ made. Leads (first_world made.0.journal.shape) made.0.journal.entries (world_state made.1)) }
    ensures safe { IfOk result (λ made. IsSafe (world_state made.1)) }

    // A full journal is that of a run of the script's cluster, has no room for another entry, and its calls, failures
    // and starts are of lines of the script.
    ensures full { (journal : JournalFields) → IsErrOf result (RunError.JournalFull journal) → IsFullJournal script.now journal }
    ensures bad_line { (number : _) → IsErrOf result (RunError.BadLine number) ↔ (bad_line script.now.lines ≡ Some number) }
{
    if let Some(number) = script.bad_line_on_threads() {
        return Err(RunError::BadLine(number));
    }
    let trail = NewTrail::new();
    let run = run_script::<Brand, _, _, _>(rt, alloc, trail, script, gate, seed, manner, watcher);
    let Ok(ended) = run else {
        return Err(RunError::NoMemory);
    };
    let Ended {
        lines,
        journal,
        world,
    } = ended;
    match lines {
        Ok(lines) => {
            let run = ThreadRun::new(alloc, script, manner, lines, journal)?;
            Ok((run, world))
        }
        Err(PlayError::JournalFull) if is_full(alloc, script, &journal) => {
            Err(RunError::JournalFull(journal))
        }
        Err(_) => Err(RunError::NoMemory),
    }
}

// The lines of a script with their outcomes, the journal, and the world at its end.
#[derive(Drop)]
struct Ended {
    lines: Result<Vec<PlayedLine>, PlayError>,
    journal: Journal,
    world: World,
}

impl Ended {
    // The end of a run on this book. Contracts know nothing of the book that a lock gives back, so its shape is
    // tested: an error where it is another.
    fn of<J: Name>(
        book: Book<J>,
        shape: Shape,
        lines: Result<Vec<PlayedLine>, PlayError>,
    ) -> Result<Ended, AllocError>
        ensures shape { IfOk result (λ run. run.journal.shape ≡ shape) }
        ensures one_table { IfOk result (λ run. HasOneHistory run.journal.shape run.journal.entries) }
        ensures leads { IfOk result (λ run. Leads (first_world run.journal.shape) run.journal.entries (world_state run.world)) }
        ensures safe { IfOk result (λ run. IsSafe (world_state run.world)) }
    {
        let (journal, world) = book.into_journal();
        if !same_shape(&journal.shape(), &shape) {
            return Err(AllocError);
        }
        Ok(Ended {
            lines,
            journal,
            world,
        })
    }
}

// The result of a script all of whose lines can be run on threads.
fn run_script<
    J: Name + Send + Sync,
    G: Gate + Sync,
    R: Threads + Wait + Clock + Sync,
    V: RunWatcher,
>(
    rt: &R,
    alloc: Global,
    trail: NewTrail,
    script: &Script,
    gate: &G,
    seed: u32,
    manner: Manner,
    watcher: &mut V,
) -> Result<Ended, AllocError>
    requires { trail ≡ J.trail }
    ensures shape { IfOk result (λ run. run.journal.shape ≡ script.now.shape) }
    ensures one_table { IfOk result (λ run. HasOneHistory run.journal.shape run.journal.entries) }
    ensures leads { IfOk result (λ run. Leads (first_world run.journal.shape) run.journal.entries (world_state run.world)) }
    ensures safe { IfOk result (λ run. IsSafe (world_state run.world)) }
{
    let shape = script.shape();
    let (book, seats) = Book::new(alloc, shape, Some(trail))?;
    let book = Mutex::new(book);
    let lines = script.lines();
    let lines = run_on::<J, _, _, _>(
        rt, alloc, shape, gate, &book, seats, seed, lines, manner, watcher,
    );
    Ended::of(book.into_inner(), shape, lines)
}

// Starts the threads on these seats, with the weathers of the seed, runs the lines and stops the threads.
fn run_on<J: Name + Send + Sync, G: Gate + Sync, R: Threads + Wait + Clock + Sync, V: RunWatcher>(
    rt: &R,
    alloc: Global,
    shape: Shape,
    gate: &G,
    book: &Mutex<Book<J>>,
    seats: Vec<Seat<J>>,
    seed: u32,
    lines: &[ScriptLine],
    manner: Manner,
    watcher: &mut V,
) -> Result<Vec<PlayedLine>, PlayError>
    requires { length seats.items ≡ shape.nodes + shape.files }
{
    let actors = u32::from(shape.nodes()) + u32::from(shape.files());
    let weathers = weathers_of(alloc, seed, actors)?;
    let (begun, inboxes) = begin(alloc, shape, seats)?;
    let cluster = Cluster::of(&begun, book, gate, gate.is_open());
    thread::scope(thread::scope_env(), rt, |scope| {
        let all = start_all(scope, rt, &cluster, inboxes, weathers);
        let played = if all {
            run_lines(rt, &cluster, lines, manner, watcher)
        } else {
            Err(PlayError::NoMemory)
        };
        cluster.stop();
        played
    })
}

// Whether both shapes are equal.
fn same_shape(one: &Shape, other: &Shape) -> bool
    ensures { IsTrue result ↔ (one.now ≡ other.now) }
{
    one == other
}

// The weathers of the seed for that many actors.
fn weathers_of(alloc: Global, seed: u32, count: u32) -> Result<Vec<Seeded>, AllocError>
    ensures { IfOk result (λ weathers. length weathers.items ≡ count) }
{
    let mut weathers = Vec::new(alloc);
    for index in 0..count {
        weathers.push(Seeded::new(seed, index + 1))?;
    }
    Ok(weathers)
}

// Runs the lines in order on a running cluster.
fn run_lines<
    J: Name + Send + Sync,
    G: Gate + Sync,
    R: Threads + Wait + Clock + Sync,
    V: RunWatcher,
>(
    rt: &R,
    cluster: &Cluster<'_, J, G>,
    lines: &[ScriptLine],
    manner: Manner,
    watcher: &mut V,
) -> Result<Vec<PlayedLine>, PlayError> {
    let mut phases = Phases::new(cluster, manner);
    for line in lines {
        phases.take(rt, line, watcher)?;
    }
    phases.join(rt, watcher)?;
    Ok(phases.into_lines())
}
