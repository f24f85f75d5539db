//! The world: the state of every actor of a cluster, and its step at an event.
ghost use Rattle.std.specs.Prelude.{◌≡◌, ◌≢◌, ◌<◌, true, Ok, Err, ◌++◌, ◌∷◌, [], IfOk, IfErr, OnOk, OnErr, length, ◌-◌};
ghost use Rattle.messages.specs.declared.refusal.Refused.TheVariants.{NoMemory};
ghost use Rattle.messages.specs.rule.Messages.{addressee, is_among};
ghost use Rattle.messages.specs.rule.Shapes.{IsShape, most_files};
ghost use Rattle.model.specs.rule.Limits.{IsNumber, most_nodes};
ghost use Rattle.node_core.specs.rule.Parts.{node_state};
ghost use Rattle.token_server.specs.rule.Parts.{server_state};
ghost use Rattle.cluster_core.specs.rule.World.{WorldState, journal_limit, first_world};
ghost use Rattle.cluster_core.specs.rule.Next.{is_known, is_fenced, is_stopped, has_actor, next, kept_next};
ghost use Rattle.cluster_core.specs.rule.Parts.{world_state, IsRest};
ghost use Rattle.cluster_core.specs.code.Changes.{Plans};
ghost use Rattle.messages.specs.declared.event.Event.TheVariants.{Deliver};
ghost use Rattle.messages.specs.declared.refusal.Refused.{Refused};
ghost use Rattle.cluster_core.specs.rule.Runs.{Leads};
ghost use Rattle.cluster_core.specs.rule.Safe.{IsSafe};
ghost use Rattle.node_core.specs.rule.State.{first_node};
ghost use Rattle.token_server.specs.rule.State.{first_server};

use crate::journal::Journal;
use crate::sent::Sent;
use crate::world::world_change::WorldChange;
use messages::{Entry, Event, Members, Message, Refused, Shape, SharedMessage};
use node_core::Node;
use std::alloc::{AllocError, Global};
use std::marker::Model;
use token_server::Server;

mod changes;
mod copies;
mod events;
mod listings;
mod plans;
mod servers;
mod states;
pub(crate) mod world_change;

/// The greatest number of entries of a journal.
pub const JOURNAL_LIMIT: u32 = 1_048_576;

/// The world: the state of every node and token server of a cluster, its members, and the messages that were sent.
#[derive(Drop)]
pub struct World {
    shape: Shape,
    nodes: Vec<Node>,
    members: Members,
    servers: Vec<Server>,
    sent: Sent,
    length: u32,
}

impl Model for World {
    ghost use Rattle.cluster_core.specs.rule.Parts.{WorldParts, IsWorld};

    ghost Value = { WorldParts };

    ghost view = { λ w. record { shape = w.shape; nodes = w.nodes.items; members = w.members; servers = w.servers.items; sent = w.sent; length = w.length } };

    ghost invariant = { λ w. IsWorld (record { shape = w.shape; nodes = w.nodes.items; members = w.members; servers = w.servers.items; sent = w.sent; length = w.length }) };
}

// The nodes of a cluster that begins.
fn first_nodes(alloc: Global, shape: Shape) -> Result<Vec<Node>, AllocError>
    ensures there { IfOk result (λ nodes. length nodes.items ≡ shape.nodes) }
    ensures within { OnOk result (IsNumber most_nodes shape.nodes) }
    ensures first { IfOk result (λ nodes. IsRest node_state (λ n. first_node shape n 1) nodes.items) }
{
    let mut nodes = Vec::new(alloc);
    for index in 0..shape.nodes() {
        let node = Node::new(alloc, shape, index + 1, 1)?;
        add(&mut nodes, node)?;
    }
    Ok(nodes)
}

// The token servers of a cluster that begins.
fn first_servers(alloc: Global, shape: Shape) -> Result<Vec<Server>, AllocError>
    ensures there { IfOk result (λ servers. length servers.items ≡ shape.files) }
    ensures within { OnOk result (IsNumber most_files shape.files) }
    ensures first { IfOk result (λ servers. IsRest server_state (first_server shape) servers.items) }
{
    let mut servers = Vec::new(alloc);
    for index in 0..shape.files() {
        let server = Server::new(alloc, shape, index + 1)?;
        add(&mut servers, server)?;
    }
    Ok(servers)
}

// Appends the item.
fn add<T: Drop>(items: &mut Vec<T>, item: T) -> Result<(), AllocError>
    ensures { OnOk result (items.new.items ≡ items.old.items ++ item ∷ []) }
{
    items.push(item)?;
    Ok(())
}

impl World {
    /// The world of a cluster that begins: every node is in its first incarnation, without a process.
    ///
    /// # Errors
    /// `AllocError` where a request for memory was refused.
    pub fn new(alloc: Global, shape: Shape) -> Result<World, AllocError>
        ensures first { IfOk result (λ world. world_state world ≡ first_world shape) }
        ensures within { OnOk result (IsShape shape) }
    {
        let nodes = first_nodes(alloc, shape)?;
        let members = Members::new(alloc, shape)?;
        let servers = first_servers(alloc, shape)?;
        let sent = Sent::new(alloc);
        Ok(World {
            shape,
            nodes,
            members,
            servers,
            sent,
            length: 0,
        })
    }

    /// The shape of the cluster.
    pub(crate) fn shape(&self) -> Shape
        ensures { result ≡ self.now.shape }
    {
        self.shape
    }

    /// The change that the event makes: the step of the one actor that takes it.
    ///
    /// # Errors
    /// As `step`.
    pub(crate) fn plan(&self, alloc: Global, event: &Event) -> Result<WorldChange, Refused>
        ensures ok { IfOk result (λ change. Plans self.now event.now change) }
        ensures err { IfErr result (λ e. e ≢ NoMemory → kept_next (world_state self.now) event.now ≡ Err e) }
        ensures refused { (e : Refused) → e ≢ Refused.Spent → kept_next (world_state self.now) event.now ≡ Err e → result ≡ Err e }
    {
        if self.length >= JOURNAL_LIMIT {
            return Err(Refused::JournalFull);
        }
        if !self.is_known(event) {
            return Err(Refused::Stranger);
        }
        if self.is_fenced(event) {
            return Err(Refused::Fenced);
        }
        self.plan_taken(alloc, event)
    }

    /// The change that the delivery of the message makes, which was sent: as `plan` gives it, without looking the
    /// message up.
    ///
    /// # Errors
    /// As `step`.
    pub(crate) fn plan_sent(&self, alloc: Global, message: &Message) -> Result<WorldChange, Refused>
        requires { is_among self.now.sent message.now ≡ true }
        ensures ok { IfOk result (λ change. Plans self.now (Deliver message.now) change) }
        ensures err { IfErr result (λ e. e ≢ NoMemory → kept_next (world_state self.now) (Deliver message.now) ≡ Err e) }
        ensures refused { (e : Refused) → e ≢ Refused.Spent → kept_next (world_state self.now) (Deliver message.now) ≡ Err e → result ≡ Err e }
    {
        if self.length >= JOURNAL_LIMIT {
            return Err(Refused::JournalFull);
        }
        if !self.has_actor(&message.addressee()) {
            return Err(Refused::Stranger);
        }
        if self.is_stopped(&message.addressee()) {
            return Err(Refused::Fenced);
        }
        self.plan_delivery(alloc, message)
    }

    /// The first Deliver by content builds an index of sent messages; it is kept from then on.
    ///
    /// # Errors
    /// `AllocError` where a request for memory was refused.
    pub(crate) fn keep_index(&mut self, alloc: Global, event: &Event) -> Result<(), AllocError>
        ensures { self.new ≡ self.old }
    {
        match event {
            Event::Deliver(_) => self.sent.keep_index(alloc),
            _ => Ok(()),
        }
    }

    /// The world takes the event: the one actor that takes it makes its step, and its messages are sent. Gives the
    /// entry.
    ///
    /// # Errors
    /// In this order: `JournalFull` where the world has 1,048,576 entries; `Stranger` where the event names a number
    /// outside the shape, a message that was never sent, or a failure or start of a server in a cluster of version 1;
    /// `Fenced` where it would be a step of a node or a server that was declared failed; what the actor's step
    /// refuses, `Busy`, `Stranger` or `Spent`, and of a failure or a start `NotAlive`, `NotDead` or
    /// `TooManyRestarts`; `NoMemory` where a request for memory was refused, which may come before `Spent`. The world
    /// is then as it was.
    pub fn step(&mut self, alloc: Global, event: Event) -> Result<Entry, Refused>
        ensures ok { IfOk result (λ entry. next (world_state self.old) event ≡ Ok (world_state self.new, entry)) }
        ensures room { OnOk result (self.old.length < journal_limit) }
        ensures err { IfErr result (λ e. e ≢ NoMemory → kept_next (world_state self.old) event ≡ Err e) }

        // A refusal for want of memory takes the place of no other refusal but `Spent`.
        ensures refused { (e : Refused) → e ≢ Refused.Spent → kept_next (world_state self.old) event ≡ Err e → result ≡ Err e }
        ensures unchanged { OnErr result (self.new ≡ self.old) }
    {
        let change = self.plan(alloc, &event)?;
        self.keep_index(alloc, &event)?;
        Ok(self.apply(alloc, event, change)?)
    }

    /// Every message that was sent, in order of sending; each of several equal ones is listed.
    pub fn sent(&self) -> &[SharedMessage]
        ensures { result.now ≡ (world_state self.now).sent }
    {
        self.sent.as_slice()
    }

    /// The event, equal to this one. A message that it delivers is shared with the list of those sent, so that one
    /// copy is kept.
    ///
    /// # Errors
    /// `AllocError` where the message is shared as often as can be counted.
    pub(crate) fn as_sent(&self, event: &Event) -> Result<Event, AllocError>
        ensures { IfOk result (λ same. same ≡ event.now) }
    {
        match event {
            Event::Deliver(message) => Ok(Event::Deliver(self.sent.as_sent(message)?)),
            _ => event.copy(),
        }
    }

    // Takes the event of an entry of a run again: it is refused only for want of memory.
    fn repeat(&mut self, alloc: Global, entry: &Entry) -> Result<(), AllocError>
        requires room { self.old.length < journal_limit }
        requires made { (v : WorldState) × (next (world_state self.old) entry.now.event ≡ Ok (v, entry.now)) }
        ensures { OnOk result (next (world_state self.old) entry.now.event ≡ Ok (world_state self.new, entry.now)) }
    {
        let event = entry.event().copy()?;
        let Err(refusal) = self.step(alloc, event) else {
            return Ok(());
        };
        match refusal {
            Refused::NoMemory => Err(AllocError),
            _ => unreachable!(),
        }
    }

    /// The world to which the entries of the journal lead. In it tokens of two nodes don't conflict, and locks are
    /// covered by tokens.
    ///
    /// # Errors
    /// `AllocError` where a request for memory was refused.
    pub fn after(alloc: Global, journal: &Journal) -> Result<World, AllocError>
        ensures leads { IfOk result (λ world. Leads (first_world journal.now.shape) journal.now.entries (world_state world)) }
        ensures safe { IfOk result (λ world. IsSafe (world_state world)) }
    {
        let mut world = World::new(alloc, journal.shape())?;
        for entry in journal.entries() {
            world.repeat(alloc, entry)?;
        }
        Ok(world)
    }
}
