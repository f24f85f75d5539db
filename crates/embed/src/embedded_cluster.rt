//! Nodes and the token server of one file, and the messages between them.
use crate::letter::Letter;
use crate::node_seat::NodeSeat;
use crate::office::{FILE, Office};
use anyhow::bail;
use message_text::push_message;
use messages::{Actor, Members, Message, NodeInput, Sends, ServerInput, Shape, Version};
use model::{Op, Policy};
use node_core::Node;
use std::alloc::Global;
use token_server::Server;

// The one process of each node.
const PROCESS: u16 = 1;

// More letters than are ever read between two ticks.
const MANY_LETTERS: u32 = 1000;

/// Nodes and the token server of one file, each with an inbox. One letter is read at a time.
#[derive(Drop)]
pub struct EmbeddedCluster {
    shape: Shape,
    members: Members,
    seats: Vec<NodeSeat>,
    office: Office,
    // How many messages were sent.
    sent: u32,
}

impl EmbeddedCluster {
    /// So many nodes, and the server of file 1.
    pub fn new(alloc: Global, nodes: u8) -> anyhow::Result<EmbeddedCluster> {
        let shape = Shape::new(nodes, FILE, Policy::Wide)?;
        let server = Box::new(alloc, Server::new(alloc, shape, FILE)?)?;
        let mut seats = Vec::new(alloc);
        for place in 0..shape.nodes() {
            let node = Box::new(alloc, Node::new(alloc, shape, place + 1, 1)?)?;
            seats.push(NodeSeat::of(alloc, node))?;
        }
        let members = Members::new(alloc, shape)?;
        Ok(EmbeddedCluster {
            shape,
            members,
            seats,
            office: Office::of(alloc, server),
            sent: 0,
        })
    }

    /// The process of the node calls, and letters are read until none is left.
    pub fn call(&mut self, rt: &HostRuntime, node: u8, op: Op) -> anyhow::Result<()> {
        println!(rt; "node {node} calls {op:?}")?;
        let call = NodeInput::Call { pid: PROCESS, op };
        self.seat(node)?.put(Letter::Input(call))?;
        self.settle(rt)
    }

    /// So many ticks go by: letters are read after each until none is left.
    pub fn pass(&mut self, rt: &HostRuntime, ticks: u32) -> anyhow::Result<()> {
        println!(rt; "{ticks} ticks go by")?;
        for _ in 0..ticks {
            for seat in self.seats.iter_mut() {
                seat.put(Letter::Tick)?;
            }
            self.office.put(Letter::Tick)?;
            self.settle(rt)?;
        }
        Ok(())
    }

    /// The node is dead: it is declared failed, it is fenced, and then the server learns of it.
    pub fn fail(&mut self, rt: &HostRuntime, node: u8) -> anyhow::Result<()> {
        let incarnation = self.members.declare(node)?;
        println!(rt; "node {node} is declared failed in incarnation {incarnation}")?;
        self.seat(node)?.fence();
        let news = ServerInput::Learn { node, incarnation };
        self.office.put(Letter::Input(news))?;
        self.settle(rt)
    }

    /// The node restarts: empty, in its next incarnation.
    pub fn restart(&mut self, rt: &HostRuntime, node: u8) -> anyhow::Result<()> {
        if node == 0 || node > self.shape.nodes() {
            bail!("no node {node}");
        }
        let incarnation = self.members.restart(node)?;
        let empty = Node::new(rt.alloc(), self.shape, node, incarnation)?;
        self.seat(node)?.sit(Box::new(rt.alloc(), empty)?);
        println!(rt; "node {node} restarts in incarnation {incarnation}")?;
        Ok(())
    }

    // Letters are read, one after the other, until none is left, and what is sent is posted.
    fn settle(&mut self, rt: &HostRuntime) -> anyhow::Result<()> {
        for _ in 0..MANY_LETTERS {
            let Some(sends) = self.read(rt)? else {
                return Ok(());
            };
            for message in sends.as_slice() {
                self.post(rt, message.get())?;
            }
        }
        bail!("the letters have no end")
    }

    // The first that has a letter reads it: the nodes by their numbers, and then the server. What it sends.
    fn read(&mut self, rt: &HostRuntime) -> anyhow::Result<Option<Sends>> {
        for seat in self.seats.iter_mut() {
            if let Some(sends) = seat.read(rt)? {
                return Ok(Some(sends));
            }
        }
        self.office.read(rt)
    }

    // The message goes as a line into the inbox of its addressee. Each fifth is lost, from the fourth on.
    fn post(&mut self, rt: &HostRuntime, message: &Message) -> anyhow::Result<()> {
        self.sent = self.sent.wrapping_add(1);
        let mut line = String::new(rt.alloc());
        push_message(&mut line, Version::Second, message)?;
        let to = message.addressee();
        println!(rt; "message {} to {to:?}: {line}", self.sent)?;
        if self.sent % 5 == 4 {
            println!(rt; "message {} is lost", self.sent)?;
            return Ok(());
        }
        match to {
            Actor::Node(node) => self.seat(node)?.put(Letter::Line(line))?,
            Actor::Server(_) => self.office.put(Letter::Line(line))?,
        }
        Ok(())
    }

    // The node's seat: nodes are numbered from 1.
    fn seat(&mut self, node: u8) -> anyhow::Result<&mut NodeSeat> {
        match self.seats.get_mut(usize::from(node).wrapping_sub(1)) {
            Some(seat) => Ok(seat),
            None => bail!("no seat of node {node}"),
        }
    }
}
