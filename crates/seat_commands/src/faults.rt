//! Why commands were not done.
ghost use Rattle.std.specs.Prelude.{◌≡◌, ◌≢◌, ◌≤◌, ◌↔◌};
ghost use Rattle.merges.specs.declared.merge_error.MergeError.TheVariants as merge;
ghost use Rattle.replay.specs.declared.fault.Fault.TheVariants.{NoMemory};
ghost use Rattle.replay.specs.rule.Commands.{status_of};
ghost use Rattle.seat_commands.specs.declared.faults.MergeFault.TheVariants.{NoLog, NoOrder, Whole};
ghost use Rattle.seat_commands.specs.rule.Doings.{IsFaultStatus};

use merges::{Hindrance, MergeError, Stuck};
use messages::Actor;
use replay::{Fault, Output};
use seat_text::{LogError, LogFault};
use std::alloc::{AllocError, AllocFailed, Global};

/// Writes why a command was not done, and answers its exit status. What can't be written is lost.
#[tactic(auto, using(crate::proofs::Having::is_fault_status))]
pub(crate) fn told<E: Output>(fault: &Fault<'_>, err: &mut E) -> u8
    ensures status { result ≡ status_of fault.now }
    ensures fault { IsFaultStatus result }
{
    let _ = fault.write_reasoned(err);
    fault.status()
}

/// The fault that this text tells, where there was memory for it.
pub(crate) fn faulty<'a>(text: Result<String, AllocError>) -> Fault<'a> {
    match text {
        Ok(text) => Fault::Faulty(text),
        Err(_) => Fault::NoMemory,
    }
}

/// Why logs were not merged.
#[derive(Drop)]
pub(crate) enum MergeFault<'a> {
    /// A file was not read or not written, or is not one of the cluster; or memory or a journal is too small.
    Whole(Fault<'a>),
    /// The file of this path is no log, or no list of declarations and starts.
    BadLog(&'a str, LogError),
    /// No log is named.
    NoLog,
    /// The logs have no order.
    NoOrder,
}

impl<'a> From<Fault<'a>> for MergeFault<'a> {
    ghost from_gives = { λ error made. made ≡ Whole error };

    fn from(error: Fault<'a>) -> MergeFault<'a> {
        MergeFault::Whole(error)
    }
}

impl From<AllocError> for MergeFault<'_> {
    ghost from_gives = { λ error made. made ≡ Whole NoMemory };

    fn from(_error: AllocError) -> Self {
        MergeFault::Whole(Fault::NoMemory)
    }
}

impl<T: Drop> From<AllocFailed<T>> for MergeFault<'_> {
    ghost from_gives = { λ error made. made ≡ Whole NoMemory };

    fn from(_error: AllocFailed<T>) -> Self {
        MergeFault::Whole(Fault::NoMemory)
    }
}

impl<'a> MergeFault<'a> {
    /// Why the logs make no journal.
    pub(crate) fn of(alloc: Global, error: MergeError) -> MergeFault<'a>
        ensures order { result ≡ NoOrder → error ≡ merge.NoOrder }
        ensures log { result ≢ NoLog }
    {
        match error {
            MergeError::NoOrder => MergeFault::NoOrder,
            MergeError::NoMemory => MergeFault::Whole(Fault::NoMemory),
            MergeError::JournalFull => MergeFault::Whole(Fault::JournalFull),
            MergeError::TwoLogs(actor, incarnation) => {
                MergeFault::Whole(faulty(two_logs(alloc, actor, incarnation)))
            }
        }
    }

    /// The exit status that tells of it: 1 where there is no order, 2 where no log is named, 3 where the input or the output is
    /// at fault, 4 where the merge needs more than there is.
    pub(crate) fn status(&self) -> u8
        ensures one { result ≡ 1 → self.now ≡ NoOrder }
        ensures failed { result ≢ 0 }
        ensures no_log { (result ≡ 2) ↔ (self.now ≡ NoLog) }
        ensures within { result ≤ 4 }
    {
        match self {
            MergeFault::Whole(fault) => fault.status(),
            MergeFault::BadLog(_, error) if error.fault == LogFault::NoMemory => 4,
            MergeFault::BadLog(..) => 3,
            MergeFault::NoLog => 2,
            MergeFault::NoOrder => 1,
        }
    }

    /// Writes the line that tells of it. What can't be written is lost.
    pub(crate) fn tell<E: Output>(&self, alloc: Global, err: &mut E) {
        let _ = match self {
            MergeFault::Whole(fault) => fault.write_reasoned(err),
            MergeFault::BadLog(path, error) => match format!(in alloc;
                "bad log {path}: {error}\n"
            ) {
                Ok(line) => err.put(line.as_bytes()),
                Err(_) => err.put(b"no memory\n"),
            },
            MergeFault::NoLog => err.put(b"no log\n"),
            MergeFault::NoOrder => err.put(b"no order\n"),
        };
    }
}

// The words that two logs are of one incarnation of the actor.
fn two_logs(alloc: Global, actor: Actor, incarnation: u16) -> Result<String, AllocError> {
    let name = actor_name(alloc, actor, incarnation)?;
    format!(in alloc; "two logs of {name}\n")
}

// The name of an actor in an incarnation or an epoch.
fn actor_name(alloc: Global, actor: Actor, incarnation: u16) -> Result<String, AllocError> {
    match actor {
        Actor::Node(node) => format!(in alloc; "node {node}.{incarnation}"),
        Actor::Server(file) => format!(in alloc; "server {file}.{incarnation}"),
    }
}

/// Writes a line for each log that can't go on. What can't be written is lost.
pub(crate) fn tell_stuck<E: Output>(alloc: Global, stuck: &[Stuck], err: &mut E) {
    for one in stuck.iter() {
        if let Ok(line) = stuck_line(alloc, *one) {
            let _ = err.put(line.as_bytes());
        }
    }
}

fn stuck_line(alloc: Global, stuck: Stuck) -> Result<String, AllocError> {
    let name = match stuck.log {
        Some((actor, incarnation)) => actor_name(alloc, actor, incarnation)?,
        None => format!(in alloc; "members")?,
    };
    let number = stuck.put.saturating_add(1);
    let why = match stuck.hindrance {
        Hindrance::Clock => "something that is left had ended before it began",
        Hindrance::OtherActor => "it is an entry of another actor",
        Hindrance::Incarnation => "the actor is not in that incarnation",
        Hindrance::Cause => "it may not happen: what it names was not sent, or not declared",
        Hindrance::Otherwise => "it comes out otherwise",
        Hindrance::EntriesLeft => "the log of what it ends has entries left",
    };
    format!(in alloc; "{name} stops before its {number}: {why}\n")
}
