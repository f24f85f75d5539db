//! The seat of a node.
ghost use Rattle.std.specs.Prelude.{◌≡◌, ◌≢◌, Ok, Err, IfOk, IfErr};
ghost use Rattle.model.specs.rule.Limits.{IsNumber};
ghost use Rattle.messages.specs.declared.refusal.Refused.{Refused};
ghost use Rattle.messages.specs.declared.refusal.Refused.TheVariants.{NoMemory};
ghost use Rattle.messages.specs.declared.event.Event.TheVariants as event;
ghost use Rattle.messages.specs.declared.event.MemberEvent.TheVariants as change;
ghost use Rattle.messages.specs.rule.Members.{members_state};
ghost use Rattle.node_core.specs.declared.event.NodeEvent.TheVariants as own;
ghost use Rattle.node_core.specs.rule.Node.{node_rule};
ghost use Rattle.node_core.specs.rule.Parts.{node_state};
ghost use Rattle.seats.specs.declared.order.Order.TheVariants.{Happens, Tick};
ghost use Rattle.seats.specs.rule.NodeSeats.{first_node_seat, later_node_seat, named_incarnation, node_member_rule, node_seat_rule, node_takes, node_told};
ghost use Rattle.seats.specs.rule.Parts.{node_seat};
ghost use Rattle.seats.specs.rule.Steps.{stepped};

use crate::begun::has_begun;
use crate::node_ticks::tick;
use crate::order::Order;
use crate::seat_step::{SeatStep, one, silent};
use crate::wait::Wait;
use messages::{Event, Items, MemberEvent, Members, NodeInput, Refused, Shape, SharedMessage};
use node_core::{Node, NodeEvent};
use std::alloc::{AllocError, Global};
use std::marker::Model;

/// A node, while it works, and which nodes and servers are alive, as it was told.
#[derive(Drop)]
pub struct NodeSeat {
    shape: Shape,
    members: Members,
    node: u8,
    left: u16,
    state: Option<Node>,
    waits: Items<Wait>,
}

impl Model for NodeSeat {
    ghost use Rattle.model.specs.rule.Limits.{IsNumber};
    ghost use Rattle.seats.specs.rule.Parts.{NodeSeatParts};

    ghost Value = { NodeSeatParts };

    ghost view = { λ s. record { shape = s.shape; members = s.members; node = s.node; left = s.left; state = s.state; waits = s.waits } };

    ghost invariant = { λ s. IsNumber s.shape.nodes s.node };
}

impl NodeSeat {
    /// The seat of a node that works from the beginning on.
    ///
    /// # Errors
    /// `AllocError` where a request for memory was refused.
    pub fn new(alloc: Global, shape: Shape, node: u8) -> Result<NodeSeat, AllocError>
        requires { IsNumber shape.nodes node }
        ensures { IfOk result (λ seat. node_seat seat ≡ first_node_seat shape node) }
    {
        Ok(NodeSeat {
            shape,
            members: Members::new(alloc, shape)?,
            node,
            left: 0,
            state: Some(Node::new(alloc, shape, node, 1)?),
            waits: Items::new(alloc),
        })
    }

    /// The seat of a node that begins again later, behind `left` beginnings that other seats of it had: it is to be told of
    /// all that happened to members.
    ///
    /// # Errors
    /// `AllocError` where a request for memory was refused.
    pub fn again(alloc: Global, shape: Shape, node: u8, left: u16) -> Result<NodeSeat, AllocError>
        requires { IsNumber shape.nodes node }
        ensures { IfOk result (λ seat. node_seat seat ≡ later_node_seat shape node left) }
    {
        Ok(NodeSeat {
            shape,
            members: Members::new(alloc, shape)?,
            node,
            left,
            state: None,
            waits: Items::new(alloc),
        })
    }

    /// Does what it is told. What comes of it is just what the rule says.
    ///
    /// # Errors
    /// `Fenced` where the node does not work, but for a change of a member; `Stranger` where the event is not the node's, or
    /// a message names an incarnation to come; those of its step, or of the change; `NoMemory` where a request for memory was
    /// refused: what the seat is then is not said. It is as it was after any other.
    pub fn obey(&mut self, alloc: Global, order: Order) -> Result<Items<SeatStep>, Refused>
        ensures ok { IfOk result (λ steps. node_seat_rule (node_seat self.old) order ≡ Ok (node_seat self.new, steps)) }
        ensures err { IfErr result (λ e. e ≢ NoMemory → node_seat_rule (node_seat self.old) order ≡ Err e) }

        // Every refusal always comes: it is decided before memory is taken.
        ensures refused { (e : Refused) → node_seat_rule (node_seat self.old) order ≡ Err e → result ≡ Err e }
        ensures unchanged { IfErr result (λ e. e ≢ NoMemory → self.new ≡ self.old) }
    {
        match order {
            Order::Happens(Event::Member(change)) => self.change(alloc, change),
            Order::Happens(event) => self.happen(alloc, event),
            Order::Tick => self.tick(alloc),
        }
    }

    // The event happens at the node.
    fn happen(&mut self, alloc: Global, event: Event) -> Result<Items<SeatStep>, Refused>
        ensures ok { IfOk result (λ steps. node_told (node_seat self.old) (node_seat self.old).state (Happens event) ≡ Ok (node_seat self.new, steps)) }
        ensures err { IfErr result (λ e. e ≢ NoMemory → node_told (node_seat self.old) (node_seat self.old).state (Happens event) ≡ Err e) }
        ensures refused { (e : Refused) → node_told (node_seat self.old) (node_seat self.old).state (Happens event) ≡ Err e → result ≡ Err e }
        ensures unchanged { IfErr result (λ e. e ≢ NoMemory → self.new ≡ self.old) }
    {
        match &mut self.state {
            Some(state) => happen_at(alloc, self.node, &self.members, state, event),
            None => Err(Refused::Fenced),
        }
    }

    // A tick goes by.
    fn tick(&mut self, alloc: Global) -> Result<Items<SeatStep>, Refused>
        ensures ok { IfOk result (λ steps. node_told (node_seat self.old) (node_seat self.old).state Tick ≡ Ok (node_seat self.new, steps)) }
        ensures err { IfErr result (λ e. e ≢ NoMemory → node_told (node_seat self.old) (node_seat self.old).state Tick ≡ Err e) }
        ensures refused { (e : Refused) → node_told (node_seat self.old) (node_seat self.old).state Tick ≡ Err e → result ≡ Err e }
        ensures unchanged { IfErr result (λ e. e ≢ NoMemory → self.new ≡ self.old) }
    {
        match &mut self.state {
            Some(state) => {
                let (waits, steps) = tick(alloc, state, self.node, self.waits.as_slice())?;
                self.waits = waits;
                Ok(steps)
            }
            None => Err(Refused::Fenced),
        }
    }

    // A member changes.
    fn change(&mut self, alloc: Global, change: MemberEvent) -> Result<Items<SeatStep>, Refused>
        ensures ok { IfOk result (λ steps. node_member_rule (node_seat self.old) change ≡ Ok (node_seat self.new, steps)) }
        ensures err { IfErr result (λ e. e ≢ NoMemory → node_member_rule (node_seat self.old) change ≡ Err e) }
        ensures refused { (e : Refused) → node_member_rule (node_seat self.old) change ≡ Err e → result ≡ Err e }
        ensures unchanged { IfErr result (λ e. e ≢ NoMemory → self.new ≡ self.old) }
    {
        match change {
            MemberEvent::Declare { node } => self.declare(alloc, node),
            MemberEvent::Restart { node } => self.restart(alloc, node),
            MemberEvent::FailServer { file } => {
                let epoch = self.members.fail_server(file)?;
                Ok(silent(alloc, change, epoch)?)
            }
            MemberEvent::StartServer { file } => {
                let epoch = self.members.start_server(file)?;
                Ok(silent(alloc, change, epoch)?)
            }
        }
    }

    // A node is declared failed: the seat's own stops.
    fn declare(&mut self, alloc: Global, node: u8) -> Result<Items<SeatStep>, Refused>
        ensures ok { IfOk result (λ steps. node_member_rule (node_seat self.old) (change.Declare node) ≡ Ok (node_seat self.new, steps)) }
        ensures err { IfErr result (λ e. e ≢ NoMemory → node_member_rule (node_seat self.old) (change.Declare node) ≡ Err e) }
        ensures refused { (e : Refused) → node_member_rule (node_seat self.old) (change.Declare node) ≡ Err e → result ≡ Err e }
        ensures unchanged { IfErr result (λ e. e ≢ NoMemory → self.new ≡ self.old) }
    {
        let incarnation = self.members.declare(node)?;
        if node == self.node {
            self.state = None;
            self.waits = Items::new(alloc);
        }
        Ok(silent(alloc, MemberEvent::Declare { node }, incarnation)?)
    }

    // A node begins again: the seat's own is empty.
    fn restart(&mut self, alloc: Global, node: u8) -> Result<Items<SeatStep>, Refused>
        ensures ok { IfOk result (λ steps. node_member_rule (node_seat self.old) (change.Restart node) ≡ Ok (node_seat self.new, steps)) }
        ensures err { IfErr result (λ e. e ≢ NoMemory → node_member_rule (node_seat self.old) (change.Restart node) ≡ Err e) }
        ensures refused { (e : Refused) → node_member_rule (node_seat self.old) (change.Restart node) ≡ Err e → result ≡ Err e }
        ensures unchanged { IfErr result (λ e. e ≢ NoMemory → self.new ≡ self.old) }
    {
        let incarnation = self.members.restart(node)?;
        if node == self.node {
            if self.left == 0 {
                self.state = Some(Node::new(alloc, self.shape, node, incarnation)?);
            } else {
                self.left -= 1;
            }
        }
        Ok(silent(alloc, MemberEvent::Restart { node }, incarnation)?)
    }
}

// A step of the node at the event, if that is its own.
fn happen_at(
    alloc: Global,
    node: u8,
    members: &Members,
    state: &mut Node,
    event: Event,
) -> Result<Items<SeatStep>, Refused>
    ensures ok { IfOk result (λ steps. node_takes node (members_state members.now.nodes) (node_state state.old) event ≡ Ok (node_state state.new, steps)) }
    ensures err { IfErr result (λ e. e ≢ NoMemory → node_takes node (members_state members.now.nodes) (node_state state.old) event ≡ Err e) }
    ensures refused { (e : Refused) → node_takes node (members_state members.now.nodes) (node_state state.old) event ≡ Err e → result ≡ Err e }
    ensures unchanged { IfErr result (λ e. e ≢ NoMemory → state.new ≡ state.old) }
{
    match event {
        Event::AtNode(other, input) if other == node => take_input(alloc, node, state, input),
        Event::Deliver(message) if has_begun(members, message.get().host()) => {
            deliver(alloc, state, message)
        }
        _ => Err(Refused::Stranger),
    }
}

// The incarnation that the entry of what comes to the node names, 0 for none.
fn named_incarnation(state: &Node, input: &NodeInput) -> u16
    ensures { result ≡ named_incarnation (node_state state.now) input.now }
{
    match input {
        NodeInput::Call { .. } => 0,
        NodeInput::Interrupt { .. } | NodeInput::Retry { .. } => state.incarnation(),
    }
}

// The node takes what comes to it.
#[tactic(auto, using(crate::proofs::StepLaws::stepped_on, crate::proofs::StepLaws::stepped_not))]
fn take_input(
    alloc: Global,
    node: u8,
    state: &mut Node,
    input: NodeInput,
) -> Result<Items<SeatStep>, Refused>
    ensures ok { IfOk result (λ steps. stepped (event.AtNode node input) (named_incarnation (node_state state.old) input) (node_rule (node_state state.old) (own.Input input)) ≡ Ok (node_state state.new, steps)) }
    ensures err { IfErr result (λ e. e ≢ NoMemory → stepped (event.AtNode node input) (named_incarnation (node_state state.old) input) (node_rule (node_state state.old) (own.Input input)) ≡ Err e) }
    ensures refused { (e : Refused) → stepped (event.AtNode node input) (named_incarnation (node_state state.old) input) (node_rule (node_state state.old) (own.Input input)) ≡ Err e → result ≡ Err e }
    ensures unchanged { IfErr result (λ e. e ≢ NoMemory → state.new ≡ state.old) }
{
    let incarnation = named_incarnation(state, &input);
    let change = state.plan(alloc, &NodeEvent::Input(input))?;
    let outcome = state.apply(change);
    Ok(one(alloc, Event::AtNode(node, input), incarnation, outcome)?)
}

// The message comes to the node.
#[tactic(auto, using(crate::proofs::StepLaws::stepped_on, crate::proofs::StepLaws::stepped_not))]
fn deliver(
    alloc: Global,
    state: &mut Node,
    message: SharedMessage,
) -> Result<Items<SeatStep>, Refused>
    ensures ok { IfOk result (λ steps. stepped (event.Deliver message) 0 (node_rule (node_state state.old) (own.Deliver message)) ≡ Ok (node_state state.new, steps)) }
    ensures err { IfErr result (λ e. e ≢ NoMemory → stepped (event.Deliver message) 0 (node_rule (node_state state.old) (own.Deliver message)) ≡ Err e) }
    ensures refused { (e : Refused) → stepped (event.Deliver message) 0 (node_rule (node_state state.old) (own.Deliver message)) ≡ Err e → result ≡ Err e }
    ensures unchanged { IfErr result (λ e. e ≢ NoMemory → state.new ≡ state.old) }
{
    let change = state.plan_delivery(alloc, message.get())?;
    let outcome = state.apply(change);
    Ok(one(alloc, Event::Deliver(message), 0, outcome)?)
}
