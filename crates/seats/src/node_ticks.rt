//! What a node does as a tick goes by.
ghost use Rattle.std.specs.Prelude.{◌≡◌, ◌++◌, ◌∷◌, [], Ok, Err, IfOk, OnOk, MatchOption, fold};
ghost use Rattle.messages.specs.declared.refusal.StepError.{StepError};
ghost use Rattle.messages.specs.declared.event.Event.TheVariants.{AtNode};
ghost use Rattle.messages.specs.declared.event.NodeInput.TheVariants as input;
ghost use Rattle.node_core.specs.declared.event.NodeEvent.TheVariants as own;
ghost use Rattle.node_core.specs.code.Plans.{Fits, planned};
ghost use Rattle.node_core.specs.rule.Node.{node_rule};
ghost use Rattle.node_core.specs.rule.Parts.{node_state};
ghost use Rattle.seats.specs.rule.NodeSeats.{node_ticked, retried, retried_by};
ghost use Rattle.seats.specs.rule.Steps.{step_of};

use crate::seat_step::SeatStep;
use crate::wait::{Wait, wait_of};
use messages::{Event, Items, NodeInput, StepError};
use node_core::{Node, NodeChange, NodeEvent, OpenCall};
use std::alloc::{AllocError, Global};

// What a retry of the call of the process does; `None` where it is refused.
fn plan_retry(alloc: Global, state: &Node, pid: u16) -> Result<Option<NodeChange>, AllocError>
    ensures { IfOk result (λ found. MatchOption found ((e : StepError) × (node_rule (node_state state.now) (own.Input (input.Retry pid)) ≡ Err e))
        (λ change. Fits state.now change.edit × (node_rule (node_state state.now) (own.Input (input.Retry pid)) ≡ Ok (planned state.now change.edit, change.outcome)))) }
{
    match state.plan(alloc, &NodeEvent::Input(NodeInput::Retry { pid })) {
        Ok(change) => Ok(Some(change)),
        Err(StepError::NoMemory) => Err(AllocError),
        Err(_) => Ok(None),
    }
}

// What the tick has come to.
type Ticked = (Items<Wait>, Items<SeatStep>);

// Makes the step, and puts it behind the others.
fn make(
    state: &mut Node,
    node: u8,
    pid: u16,
    change: NodeChange,
    steps: &mut Items<SeatStep>,
) -> Result<(), AllocError>
    requires { Fits state.old change.edit }
    ensures state { node_state state.new ≡ planned state.old change.edit }
    ensures steps { OnOk result (steps.new ≡ steps.old ++ step_of (AtNode node (input.Retry pid)) (node_state state.old).incarnation change.outcome ∷ []) }
{
    let incarnation = state.incarnation();
    let outcome = state.apply(change);
    steps.push(SeatStep {
        event: Event::AtNode(node, NodeInput::Retry { pid }),
        incarnation,
        outcome,
    })
}

// Makes the planned retry, if it is made.
fn retry(
    state: &mut Node,
    node: u8,
    pid: u16,
    wait: Wait,
    change: NodeChange,
    ticked: &mut Ticked,
) -> Result<(), AllocError>
    requires { Fits state.old change.edit }
    ensures { OnOk result ((node_state state.new, ticked.new) ≡ retried_by node pid wait (node_state state.old, ticked.old) (Ok (planned state.old change.edit, change.outcome))) }
{
    ticked.0.push(wait.after_tick(&change.outcome))?;
    if wait.is_made(&change.outcome) {
        make(state, node, pid, change, &mut ticked.1)?;
    }
    Ok(())
}

// Goes over an open call.
fn go_over(
    alloc: Global,
    state: &mut Node,
    node: u8,
    call: &OpenCall,
    waits: &[Wait],
    ticked: &mut Ticked,
) -> Result<(), AllocError>
    ensures { OnOk result ((node_state state.new, ticked.new) ≡ retried node waits.now (node_state state.old, ticked.old) call.now) }
{
    match plan_retry(alloc, state, call.pid)? {
        Some(change) => retry(
            state,
            node,
            call.pid,
            wait_of(waits, call.number),
            change,
            ticked,
        ),
        None => Ok(()),
    }
}

// Goes over the open calls.
fn go_over_all(
    alloc: Global,
    state: &mut Node,
    node: u8,
    calls: &[OpenCall],
    waits: &[Wait],
    ticked: &mut Ticked,
) -> Result<(), AllocError>
    ensures { OnOk result ((node_state state.new, ticked.new) ≡ fold (retried node waits.now) (node_state state.old, ticked.old) calls.now) }
{
    for call in calls {
        go_over(alloc, state, node, call, waits, ticked)?;
    }
    Ok(())
}

/// What the node does as a tick goes by: how long its open calls wait then, and the steps.
pub(crate) fn tick(
    alloc: Global,
    state: &mut Node,
    node: u8,
    waits: &[Wait],
) -> Result<Ticked, AllocError>
    ensures { IfOk result (λ ticked. node_ticked node waits.now (node_state state.old) ≡ (node_state state.new, ticked)) }
{
    let calls = Vec::from_slice(alloc, state.open_calls())?;
    let mut ticked = (Items::new(alloc), Items::new(alloc));
    go_over_all(alloc, state, node, calls.as_slice(), waits, &mut ticked)?;
    Ok(ticked)
}
