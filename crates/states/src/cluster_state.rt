//! What is told of a world: of its nodes, and of its token servers.
ghost use Rattle.std.specs.Prelude.{◌≡◌, true, false, All, IfOk, MatchOption, map};
ghost use Rattle.model.specs.rule.Limits.{most_nodes};
ghost use Rattle.token_server.specs.rule.Parts.{server_state};
ghost use Rattle.cluster_core.specs.rule.Parts.{world_state};
ghost use Rattle.cluster_core.specs.rule.World.{has_file, has_node};
ghost use Rattle.states.specs.rule.Texts.{failed_epoch};
ghost use Rattle.states.specs.rule.States.{AreRows, IsStateOf, IsToldNode, IsToldServer, known_dead, knows_dead, numbers_where, told_epoch, told_files, told_nodes, told_servers, works};

use cluster_core::{HeldLock, NodeTokenRun, World};
use messages::{Event, FileNumber, MOST_FILES, MemberEvent, ServerInput};
use model::MOST_NODES;
use node_core::OpenCall;
use std::alloc::{AllocError, Global};
use token_server::{ActiveRequest, Server, ShownRow, TokenRequest};

/// What is told of a cluster at a moment.
#[derive(Drop)]
pub struct ClusterState {
    /// The nodes, by rising node, each with its open calls.
    pub nodes: Vec<ToldNode>,
    /// The epochs of the token servers, by rising file.
    pub epochs: Vec<ToldEpoch>,
    /// The tokens of the live nodes, as a listing has them: by node, file and first byte.
    pub tokens: Vec<NodeTokenRun>,
    /// The locks of the live nodes, as a listing has them: by file, first byte and owner.
    pub locks: Vec<HeldLock>,
    /// The token servers that work, by rising file.
    pub servers: Vec<ToldServer>,
}

impl ClusterState {
    /// What is told of the world.
    pub fn of(alloc: Global, world: &World) -> Result<ClusterState, AllocError>
        ensures { IfOk result (IsStateOf (world_state world.now)) }
    {
        Ok(ClusterState {
            nodes: nodes(alloc, world)?,
            epochs: epochs(alloc, world)?,
            tokens: world.tokens(alloc)?,
            locks: world.locks(alloc)?,
            servers: servers(alloc, world)?,
        })
    }
}

/// What is told of a node, counted from 1.
#[derive(Drop)]
pub struct ToldNode {
    pub node: u8,
    /// The incarnation, from 1, in which the node is alive; `None` where it was declared failed and not restarted.
    pub live: Option<u16>,
    /// The greatest incarnation that was declared failed, as all before it were; 0 where none was.
    pub dead: u16,
    /// The calls of that live incarnation without a reply yet, in order of arrival.
    pub calls: Vec<OpenCall>,
}

impl ToldNode {
    /// What is told of this node of the world.
    pub(crate) fn of(alloc: Global, world: &World, node: u8) -> Result<ToldNode, AllocError>
        ensures told { IfOk result (IsToldNode (world_state world.now)) }
        ensures node { IfOk result (λ told. told.node ≡ node) }
    {
        let dead = world.dead(node);
        let Some(alive) = world.live_node(node) else {
            return Ok(ToldNode {
                node,
                live: None,
                dead,
                calls: Vec::new(alloc),
            });
        };
        let calls = Vec::from_slice(alloc, alive.open_calls())?;
        Ok(ToldNode {
            node,
            live: Some(alive.incarnation()),
            dead,
            calls,
        })
    }
}

/// The epoch of the token server of a file, both from 1, and whether the server works. One that doesn't was declared
/// failed in that epoch; all epochs before it failed.
#[derive(Clone, Copy, Debug, PartialEq, Eq)]
pub struct ToldEpoch {
    pub file: u16,
    pub epoch: u16,
    pub works: bool,
}

impl ToldEpoch {
    /// The greatest epoch that failed, as all before it did; 0 where none did.
    pub(crate) fn failed(self) -> u16
        ensures { result ≡ failed_epoch self }
    {
        if self.works {
            self.epoch.saturating_sub(1)
        } else {
            self.epoch
        }
    }
}

/// A node, and the greatest of its incarnations that a server knows to be dead, both from 1.
#[derive(Clone, Copy, Debug, PartialEq, Eq)]
pub struct KnownDead {
    pub node: u8,
    pub incarnation: u16,
}

/// What is told of a token server that works.
#[derive(Drop)]
pub struct ToldServer {
    /// The file that it is the server of.
    pub file: FileNumber,
    /// The requests that it serves, in their order, each with the node whose answer it waits for: the least other
    /// one whose token is in the way, or else its own, which is to take the grant.
    pub served: Vec<ActiveRequest>,
    /// The queued requests, in the order in which they are to be served.
    pub queued: Vec<TokenRequest>,
    /// The requests that wait for a lock of another node to go, in the order in which they are to be queued again.
    pub waiting: Vec<TokenRequest>,
    /// The rows of the nodes that asked, by rising node.
    pub rows: Vec<ShownRow>,
    /// The nodes whose reports a rebuilt server awaits, by rising node.
    pub awaited: Vec<u8>,
    /// The nodes of which it knows an incarnation to be dead, by rising node.
    pub dead: Vec<KnownDead>,
}

impl ToldServer {
    /// What is told of the server of this file.
    pub(crate) fn of(
        alloc: Global,
        server: &Server,
        file: FileNumber,
    ) -> Result<ToldServer, AllocError>
        ensures told { IfOk result (IsToldServer (server_state server.now)) }
        ensures file { IfOk result (λ told. told.file ≡ file) }
    {
        Ok(ToldServer {
            file,
            served: Vec::from_slice(alloc, server.served())?,
            queued: server.queued(alloc)?,
            waiting: server.waiting(alloc)?,
            rows: rows(alloc, server)?,
            awaited: server.awaited_nodes(alloc)?,
            dead: dead(alloc, server)?,
        })
    }
}

// Whether the node is one of the cluster.
fn has_node(world: &World, node: u8) -> bool
    ensures { result ≡ has_node (world_state world.now) node }
{
    world.knows(&Event::Member(MemberEvent::Declare { node }))
}

// The nodes of the world.
fn nodes(alloc: Global, world: &World) -> Result<Vec<ToldNode>, AllocError>
    ensures numbers { IfOk result (λ nodes. map (λ n. n.node) nodes.items ≡ told_nodes (world_state world.now)) }
    ensures each { IfOk result (λ nodes. All (IsToldNode (world_state world.now)) nodes.items) }
{
    let mut nodes = Vec::new(alloc);
    for place in 0..MOST_NODES {
        let node = place + 1;
        if has_node(world, node) {
            nodes.push(ToldNode::of(alloc, world, node)?)?;
        }
    }
    Ok(nodes)
}

// Whether the file is one of the cluster.
fn has_file(world: &World, file: u16) -> bool
    ensures { result ≡ has_file (world_state world.now) file }
{
    world.knows(&Event::AtServer(file, ServerInput::Resend))
}

// The epoch of the server of the file, if the file is one of the cluster.
fn epoch_of(world: &World, file: u16) -> Option<ToldEpoch>
    ensures { let w = world_state world.now in MatchOption result (has_file w file ≡ false) (λ e. (has_file w file ≡ true) × (e ≡ told_epoch w file)) }
{
    if !has_file(world, file) {
        return None;
    }
    let server = world.server_of(file)?;
    Some(ToldEpoch {
        file,
        epoch: server.epoch(),
        works: world.is_working(file),
    })
}

// The epochs of the servers of the world.
fn epochs(alloc: Global, world: &World) -> Result<Vec<ToldEpoch>, AllocError>
    ensures { IfOk result (λ epochs. epochs.items ≡ map (told_epoch (world_state world.now)) (told_files (world_state world.now))) }
{
    let mut epochs = Vec::new(alloc);
    for place in 0..MOST_FILES {
        if let Some(epoch) = epoch_of(world, place + 1) {
            epochs.push(epoch)?;
        }
    }
    Ok(epochs)
}

// The token servers of the world that work.
fn servers(alloc: Global, world: &World) -> Result<Vec<ToldServer>, AllocError>
    ensures files { IfOk result (λ servers. map (λ s. s.file) servers.items ≡ told_servers (world_state world.now)) }
    ensures each { IfOk result (λ servers. All (λ s. IsToldServer ((world_state world.now).servers s.file) s) servers.items) }
{
    let mut servers = Vec::new(alloc);
    for place in 0..MOST_FILES {
        let file = place + 1;
        if let Some(server) = server_of(world, file) {
            servers.push(ToldServer::of(alloc, server, FileNumber::of(file))?)?;
        }
    }
    Ok(servers)
}

// The server of the file, if it works.
fn server_of(world: &World, file: u16) -> Option<&Server>
    ensures { let w = world_state world.now in MatchOption result (works w file ≡ false) (λ s. (works w file ≡ true) × (server_state s.now ≡ w.servers file)) }
{
    if !world.is_working(file) {
        return None;
    }
    world.server_of(file)
}

// The rows of the server, as they are shown.
fn rows(alloc: Global, server: &Server) -> Result<Vec<ShownRow>, AllocError>
    ensures { IfOk result (λ rows. AreRows (server_state server.now) rows.items) }
{
    let rows = server.rows(alloc)?;
    Ok(rows)
}

// Whether the server knows an incarnation of the node to be dead.
fn knows_dead(server: &Server, node: u8) -> bool
    ensures { result ≡ knows_dead (server_state server.now) node }
{
    server.dead(node) > 0
}

// The nodes of which the server knows an incarnation to be dead.
fn dead(alloc: Global, server: &Server) -> Result<Vec<KnownDead>, AllocError>
    ensures { let s = server_state server.now in IfOk result (λ dead. dead.items ≡ map (known_dead s) (numbers_where (knows_dead s) most_nodes)) }
{
    let mut dead = Vec::new(alloc);
    for place in 0..MOST_NODES {
        let node = place + 1;
        if knows_dead(server, node) {
            let incarnation = server.dead(node);
            dead.push(KnownDead { node, incarnation })?;
        }
    }
    Ok(dead)
}
