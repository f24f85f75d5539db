//! The open calls of a cluster, and which locks block them.
ghost use Rattle.std.specs.Prelude.{◌≡◌, ◌++◌, All, map, IfOk, OnOk};
ghost use Rattle.cluster_core.specs.rule.Parts.{world_state};
ghost use Rattle.states.specs.code.Blockers.{blocking_of, is_blocker};
ghost use Rattle.states.specs.rule.States.{is_wait, open_in, open_on, open_up_to, IsOpenState};

use cluster_core::{HeldLock, World};
use model::{LockCommand, LockInfo, MOST_NODES};
use node_core::OpenCall;
use std::alloc::{AllocError, Global};

/// An open call of a live node: what it asks for, and each lock that blocks it, on any live node, by first byte and
/// then by owner.
#[derive(Drop)]
pub struct OpenState {
    pub asked: OpenCall,
    pub locks: Vec<LockInfo>,
}

/// Whether it is a wait.
pub fn is_wait(command: LockCommand) -> bool
    ensures { result ≡ is_wait command }
{
    match command {
        LockCommand::Wait => true,
        LockCommand::Set | LockCommand::Query => false,
    }
}

/// The open calls of the world, by node, and then in the order in which the node took them.
pub fn open_states(alloc: Global, world: &World) -> Result<Vec<OpenState>, AllocError>
    ensures calls { IfOk result (λ states. map (λ o. o.asked) states.items ≡ open_in (world_state world.now)) }
    ensures states { IfOk result (λ states. All (IsOpenState (world_state world.now)) states.items) }
{
    let locks = world.locks(alloc)?;
    let calls = open_up_to(alloc, world, MOST_NODES)?;
    let mut states = Vec::new(alloc);
    for asked in &calls {
        let state = state_of(alloc, locks.as_slice(), asked)?;
        states.push(state)?;
    }
    Ok(states)
}

// The call, with those of the locks that block it.
fn state_of(alloc: Global, locks: &[HeldLock], asked: &OpenCall) -> Result<OpenState, AllocError>
    ensures asked { IfOk result (λ state. state.asked ≡ asked.now) }
    ensures locks { IfOk result (λ state. state.locks.items ≡ blocking_of asked.now locks.now) }
{
    let locks = blocking_of(alloc, locks, asked)?;
    Ok(OpenState {
        asked: *asked,
        locks,
    })
}

// The open calls of the live nodes up to this one, by node, and then in the order in which the node took them.
#[tactic(auto, unfolding(crate::specs::rule::States::open_up_to))]
fn open_up_to(alloc: Global, world: &World, count: u8) -> Result<Vec<OpenCall>, AllocError>
    ensures { IfOk result (λ calls. calls.items ≡ open_up_to (world_state world.now) count) }
{
    let mut calls = Vec::new(alloc);
    for index in 0..count {
        add_node(&mut calls, world, index + 1)?;
    }
    Ok(calls)
}

// Those of one more node come last.
fn add_node(calls: &mut Vec<OpenCall>, world: &World, number: u8) -> Result<(), AllocError>
    ensures { OnOk result (calls.new.items ≡ calls.old.items ++ open_on (world_state world.now) number) }
{
    let Some(node) = world.live_node(number) else {
        return Ok(());
    };
    calls.extend_from_slice(node.open_calls())?;
    Ok(())
}

// The locks that block the call, of all of a cluster.
fn blocking_of(
    alloc: Global,
    locks: &[HeldLock],
    asked: &OpenCall,
) -> Result<Vec<LockInfo>, AllocError>
    ensures { IfOk result (λ blocking. blocking.items ≡ blocking_of asked.now locks.now) }
{
    let mut blocking = Vec::new(alloc);
    for held in locks {
        if is_blocker(held, asked) {
            blocking.push(held.lock)?;
        }
    }
    Ok(blocking)
}

// Whether the lock blocks the call.
fn is_blocker(held: &HeldLock, asked: &OpenCall) -> bool
    ensures { result ≡ is_blocker asked.now held.now }
{
    let lock = &held.lock;
    held.file == asked.file
        && (lock.owner != asked.owner
            && (lock.mode.excludes(asked.mode)
                && (lock.span.lo <= asked.span.hi && asked.span.lo <= lock.span.hi)))
}
