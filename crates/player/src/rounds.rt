//! Rounds of a run: all that is due happens, and all that is sent arrives.
ghost use Rattle.std.specs.Prelude.{◌≡◌, ◌<◌, ◌≤◌, All, false, true, drop, length, IfErr, IfOk, OnOk};
ghost use Rattle.cluster_core.specs.rule.Parts.{world_state};
ghost use Rattle.cluster_core.specs.rule.World.{journal_limit, has_node};
ghost use Rattle.cluster_core.specs.rule.Rounds.{AnswersNone, IsQuiet};
ghost use Rattle.player.specs.code.Rounds.{Arrives, GoesByRound, GoesCalm, GoesQuietly, PassesAt, Stops, StopsAmong, StopsAtSent, TakesAll, Adds, AreDue, IsLearn, IsLearnAt, IsLearnOf, IsResend, IsResendAt, IsRetry, IsRetryOf};
ghost use Rattle.player.specs.rule.Rounds.{NoneOpen, works};

use cluster_core::{Run, World};
use messages::{Event, NodeInput, Refused, ServerInput, Shape};
use node_core::OpenCall;
use std::alloc::{AllocError, Global};

/// A round of the run, of this shape. On an error it may end in the middle.
///
/// # Errors
/// What an event of the round is refused for: `JournalFull`, `Spent`, or `NoMemory`.
pub(crate) fn round(run: &mut Run, alloc: Global, shape: Shape) -> Result<(), Refused>
    requires { run.old.world.shape ≡ shape }
    ensures goes { GoesQuietly run.old run.new }
    ensures round { OnOk result (GoesByRound run.old run.new) }
    ensures stops { IfErr result (Stops run.old run.new) }
{
    let first = run.world().sent().len();
    let events = due(alloc, run.world(), shape)?;
    take_all(run, alloc, events.as_slice())?;
    deliver_from(run, alloc, first)
}

// The events happen, in order.
fn take_all(run: &mut Run, alloc: Global, events: &[Event]) -> Result<(), Refused>
    requires { All IsQuiet events.now }
    ensures goes { GoesQuietly run.old run.new }
    ensures took { OnOk result (TakesAll run.old events.now run.new) }
    ensures stops { IfErr result (StopsAmong events.now run.new) }
{
    for event in events {
        run.take(alloc, event.copy()?)?;
    }
    Ok(())
}

// The messages from that place on in the order of sending are delivered, also ones that are sent meanwhile.
fn deliver_from(run: &mut Run, alloc: Global, first: usize) -> Result<(), Refused>
    ensures goes { GoesQuietly run.old run.new }
    ensures arrives { OnOk result (Arrives run.old first run.new) }
    ensures stops { IfErr result (StopsAtSent run.new) }
{
    let mut place = first;
    while place < run.world().sent().len() {
        deliver(run, alloc, place)?;
        place += 1;
    }
    Ok(())
}

/// The message at that place in the order of sending is delivered, or passed over where its addressee was declared failed.
///
/// # Errors
/// What its delivery is refused for: `JournalFull`, `Spent`, or `NoMemory`; and `Stranger` where there is none.
pub(crate) fn deliver(run: &mut Run, alloc: Global, place: usize) -> Result<(), Refused>
    requires { place < length run.old.world.sent }
    ensures goes { GoesQuietly run.old run.new }
    ensures passes { OnOk result (PassesAt run.old place run.new) }
    ensures stops { IfErr result (StopsAtSent run.new) }
{
    match run.deliver(alloc, place) {
        Ok(()) => Ok(()),
        Err(Refused::Fenced) => Ok(()),
        Err(refusal) => Err(refusal),
    }
}

/// Whether a call of a live node is open.
pub(crate) fn has_open(world: &World, shape: Shape) -> bool
    requires { world.now.shape ≡ shape }
    ensures { result ≡ false → NoneOpen (world_state world.now) }
{
    for index in 0..shape.nodes() {
        if let Some(live) = world.live_node(index + 1) {
            if !live.open_calls().is_empty() {
                return true;
            }
        }
    }
    false
}

/// Whether an entry of the run behind so many answers a call.
pub(crate) fn answers_behind(run: &Run, before: u32) -> bool
    ensures none { result ≡ false → AnswersNone (drop before run.now.entries) }
    ensures some { result ≡ true → before < length run.now.entries }
    ensures within { length run.now.entries ≤ journal_limit }
{
    for index in before..run.len() {
        if run.entries()[index as usize].reply().is_some() {
            return true;
        }
    }
    false
}

/// Rounds of the run, of this shape, until no call is open, or of the last two rounds the second answers none. On an error
/// the last round may end in the middle.
///
/// # Errors
/// The errors of `round`, in the same cases.
pub(crate) fn rounds(run: &mut Run, alloc: Global, shape: Shape) -> Result<Calm, Refused>
    requires { run.old.world.shape ≡ shape }
    ensures goes { GoesQuietly run.old run.new }
    ensures ends { IfOk result (GoesCalm run.old run.new) }
    ensures stops { IfErr result (Stops run.old run.new) }
{
    if !has_open(run.world(), shape) {
        return Ok(Calm::NoneOpen);
    }
    round(run, alloc, shape)?;
    while has_open(run.world(), shape) {
        let before = run.len();
        round(run, alloc, shape)?;
        if !answers_behind(run, before) {
            return Ok(Calm::Silent);
        }
    }
    Ok(Calm::NoneOpen)
}

/// How the rounds behind the lines of a script ended. In a round each working server learns of the last incarnation of each
/// node that was declared failed, each open call is tried again, each working server sends again what has no answer, and all
/// that is sent in the round is delivered, except to nodes and servers that were declared failed.
#[derive(Clone, Copy, Debug, PartialEq, Eq)]
pub enum Calm {
    /// No call is open.
    NoneOpen,
    /// Of the last two rounds the second answered no call: each open call of a live node about a file whose server works is
    /// a wait, and a lock of another owner blocks it.
    Silent,
    /// An event of the last round was refused so: `JournalFull`, or `Spent` where a token server has no number left for a
    /// command.
    Refused(Refused),
}

/// What a round owes in that world, of this shape: the servers learn, the open calls are tried again, and the servers send
/// again.
///
/// # Errors
/// Each function here answers `AllocError` where a request for memory was refused.
pub(crate) fn due(alloc: Global, world: &World, shape: Shape) -> Result<Vec<Event>, AllocError>
    requires { world.now.shape ≡ shape }
    ensures { IfOk result (λ events. AreDue (world_state world.now) events.items) }
{
    let mut events = Vec::new(alloc);
    push_learns(&mut events, world, shape)?;
    push_retries(&mut events, world, shape)?;
    push_resends(&mut events, world, shape)?;
    Ok(events)
}

// Adds what each working server is to learn.
fn push_learns(events: &mut Vec<Event>, world: &World, shape: Shape) -> Result<(), AllocError>
    requires { world.now.shape ≡ shape }
    ensures { OnOk result (Adds (IsLearn (world_state world.now)) events.old.items events.new.items) }
{
    for index in 0..shape.files() {
        push_learns_of(events, world, shape, index + 1)?;
    }
    Ok(())
}

// Adds what the server of the file is to learn, where it works.
fn push_learns_of(
    events: &mut Vec<Event>,
    world: &World,
    shape: Shape,
    file: u16,
) -> Result<(), AllocError>
    requires { world.now.shape ≡ shape }
    ensures { OnOk result (Adds (IsLearnOf (world_state world.now) file) events.old.items events.new.items) }
{
    if !world.is_working(file) {
        return Ok(());
    }
    for index in 0..shape.nodes() {
        push_learn(events, world, file, index + 1)?;
    }
    Ok(())
}

// Adds that the server of the file, which works, is to learn which incarnation of the node was declared failed last.
fn push_learn(events: &mut Vec<Event>, world: &World, file: u16, node: u8) -> Result<(), AllocError>
    requires works { works (world_state world.now) file ≡ true }
    requires node { has_node (world_state world.now) node ≡ true }
    ensures { OnOk result (Adds (IsLearnAt (world_state world.now) file node) events.old.items events.new.items) }
{
    let incarnation = world.dead(node);
    if incarnation == 0 {
        return Ok(());
    }
    events.push(Event::AtServer(file, ServerInput::Learn { node, incarnation }))?;
    Ok(())
}

// Adds that each open call is tried again.
fn push_retries(events: &mut Vec<Event>, world: &World, shape: Shape) -> Result<(), AllocError>
    requires { world.now.shape ≡ shape }
    ensures { OnOk result (Adds (IsRetry (world_state world.now)) events.old.items events.new.items) }
{
    for index in 0..shape.nodes() {
        let node = index + 1;
        let Some(live) = world.live_node(node) else {
            continue;
        };
        push_retries_of(events, node, live.open_calls())?;
    }
    Ok(())
}

// Adds that each of these calls of the node is tried again.
fn push_retries_of(events: &mut Vec<Event>, node: u8, calls: &[OpenCall]) -> Result<(), AllocError>
    ensures { OnOk result (Adds (IsRetryOf node calls.now) events.old.items events.new.items) }
{
    for call in calls {
        let pid = call.pid;
        events.push(Event::AtNode(node, NodeInput::Retry { pid }))?;
    }
    Ok(())
}

// Adds that each working server sends again what has no answer.
fn push_resends(events: &mut Vec<Event>, world: &World, shape: Shape) -> Result<(), AllocError>
    requires { world.now.shape ≡ shape }
    ensures { OnOk result (Adds (IsResend (world_state world.now)) events.old.items events.new.items) }
{
    for index in 0..shape.files() {
        push_resend(events, world, index + 1)?;
    }
    Ok(())
}

// Adds that the server of the file sends again what has no answer, where it works.
fn push_resend(events: &mut Vec<Event>, world: &World, file: u16) -> Result<(), AllocError>
    ensures { OnOk result (Adds (IsResendAt (world_state world.now) file) events.old.items events.new.items) }
{
    if !world.is_working(file) {
        return Ok(());
    }
    events.push(Event::AtServer(file, ServerInput::Resend))?;
    Ok(())
}
