//! The seat of a node.
use crate::letter::{Letter, message_in};
use messages::{NodeInput, Outcome, Patience, Sends};
use node_core::{Node, NodeEvent};
use std::alloc::{AllocError, Global};
use std::collections::VecDeque;

/// A node with its inbox, or an empty seat where it was declared failed.
#[derive(Drop)]
pub struct NodeSeat {
    node: Option<Box<Node>>,
    inbox: VecDeque<Letter<NodeInput>>,
    // Of all open calls of the node together.
    patience: Patience,
}

impl NodeSeat {
    /// The node sits down, with nothing to read.
    pub fn of(alloc: Global, node: Box<Node>) -> NodeSeat {
        NodeSeat {
            node: Some(node),
            inbox: VecDeque::new(alloc),
            patience: Patience::new(),
        }
    }

    /// Another node sits down at the empty seat.
    pub fn sit(&mut self, node: Box<Node>) {
        self.node = Some(node);
        self.patience = Patience::new();
    }

    /// The node takes no more steps, and what it has not read is lost.
    pub fn fence(&mut self) {
        self.node = None;
        self.inbox.clear();
    }

    /// The letter comes last in the inbox. At an empty seat it is lost.
    pub fn put(&mut self, letter: Letter<NodeInput>) -> Result<(), AllocError> {
        if self.node.is_some() {
            self.inbox.push_back(letter)?;
        }
        Ok(())
    }

    /// The node reads its first letter, if it has one. What it sends.
    pub fn read(&mut self, rt: &HostRuntime) -> anyhow::Result<Option<Sends>> {
        let Some(node) = &mut self.node else {
            return Ok(None);
        };
        match self.inbox.pop_front() {
            Some(letter) => Ok(Some(take(rt, node, &mut self.patience, letter)?)),
            None => Ok(None),
        }
    }
}

// The node takes a letter. What is sent.
fn take(
    rt: &HostRuntime,
    node: &mut Node,
    patience: &mut Patience,
    letter: Letter<NodeInput>,
) -> anyhow::Result<Sends> {
    match letter {
        Letter::Input(input) => step(rt, node, input),
        Letter::Line(line) => deliver(rt, node, &line),
        Letter::Tick => tick(rt, node, patience),
    }
}

// Lets the input happen. What is sent.
fn step(rt: &HostRuntime, node: &mut Node, input: NodeInput) -> anyhow::Result<Sends> {
    let change = node.plan(rt.alloc(), &NodeEvent::Input(input))?;
    told(rt, node.apply(change))
}

// The message of the line comes. What is sent. A line of no message is lost.
fn deliver(rt: &HostRuntime, node: &mut Node, line: &str) -> anyhow::Result<Sends> {
    let Some(message) = message_in(rt.alloc(), line)? else {
        return Ok(Sends::nothing());
    };
    let change = node.plan_delivery(rt.alloc(), &message)?;
    told(rt, node.apply(change))
}

// Prints the reply if a call is answered. What is sent.
fn told(rt: &HostRuntime, outcome: Outcome) -> anyhow::Result<Sends> {
    let Outcome { reply, sends, .. } = outcome;
    if let Some((call, reply)) = reply {
        println!(rt;
            "node {} answers call {}: {reply:?}",
            call.node, call.number
        )?;
    }
    Ok(sends)
}

// A tick goes by: when it is time each open call is tried again. What is sent.
fn tick(rt: &HostRuntime, node: &mut Node, patience: &mut Patience) -> anyhow::Result<Sends> {
    let mut sends = Sends::nothing();
    if node.open_calls().is_empty() {
        *patience = Patience::new();
        return Ok(sends);
    }
    if patience.is_due() {
        retry(rt, node, &mut sends)?;
    }
    *patience = patience.after_tick();
    Ok(sends)
}

// Tries the open calls again. What is sent is put behind what is.
fn retry(rt: &HostRuntime, node: &mut Node, sends: &mut Sends) -> anyhow::Result<()> {
    let calls = Vec::from_slice(rt.alloc(), node.open_calls())?;
    let by = node.host().node;
    for call in &calls {
        println!(rt; "node {by} tries call {} again", call.number)?;
        let sent = step(rt, node, NodeInput::Retry { pid: call.pid })?;
        sends.append(rt.alloc(), sent)?;
    }
    Ok(())
}
