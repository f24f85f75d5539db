//! The states of a world's actors: for reading, compared with others, and begun again.
ghost use Rattle.std.specs.Prelude.{◌≡◌, ◌≢◌, ◌↔◌, ◌-◌, true, false, Ok, Err, ◌&&◌, IsTrue, IfOk, IfErr, OnOk, MatchOption};
ghost use Rattle.messages.specs.declared.event.Event.TheVariants.{Member};
ghost use Rattle.messages.specs.declared.event.MemberEvent.TheVariants.{Restart, StartServer};
ghost use Rattle.messages.specs.declared.entry.Entry.{Entry};
ghost use Rattle.messages.specs.declared.refusal.Refused.{Refused};
ghost use Rattle.messages.specs.declared.refusal.Refused.TheVariants.{NoMemory};
ghost use Rattle.messages.specs.rule.Messages.{is_within};
ghost use Rattle.node_core.specs.rule.Parts.{node_state};
ghost use Rattle.token_server.specs.rule.Parts.{server_state};
ghost use Rattle.token_server.specs.rule.Resends.{outstanding};
ghost use Rattle.cluster_core.specs.rule.World.{WorldState, has_node, has_file, is_alive, was_declared, has_failed};
ghost use Rattle.cluster_core.specs.rule.Next.{is_known, next_server, restart_rule, kept_next};
ghost use Rattle.cluster_core.specs.rule.Parts.{world_state};
ghost use Rattle.cluster_core.specs.rule.Actors.{HasNode, HasServer};

use super::events::is_number;
use super::{JOURNAL_LIMIT, World};
use messages::{Entry, Event, MemberEvent, Refused, Sends};
use node_core::Node;
use std::alloc::{AllocError, Global};
use token_server::Server;

impl World {
    /// Whether the event names nodes, processes and files of the shape, a message that was sent to one of its actors,
    /// or an incarnation that was declared failed. A message is looked for by a walk, until `World::step` or
    /// `Run::take` took a first Deliver, which builds an index.
    pub fn knows(&self, event: &Event) -> bool
        ensures { result ≡ is_known (world_state self.now) event.now }
    {
        self.is_known(event)
    }

    /// Whether the shape has the node, and that incarnation of it was declared failed.
    pub fn has_declared(&self, node: u8, incarnation: u16) -> bool
        ensures { result ≡ (has_node (world_state self.now) node && was_declared (world_state self.now) node incarnation) }
    {
        is_number(u16::from(self.shape.nodes()), u16::from(node))
            && self.was_declared(node, incarnation)
    }

    /// Whether the shape has the file, and that epoch of its token server was declared failed.
    pub fn has_failed(&self, file: u16, epoch: u16) -> bool
        ensures { result ≡ (has_file (world_state self.now) file && has_failed (world_state self.now) file epoch) }
    {
        is_number(self.shape.files(), file) && self.failed_in(file, epoch)
    }

    // Whether that epoch of the file's token server was declared failed.
    fn failed_in(&self, file: u16, epoch: u16) -> bool
        requires { is_within self.now.shape.files file ≡ true }
        ensures { result ≡ has_failed (world_state self.now) file epoch }
    {
        self.members.failed(file, epoch)
    }

    /// The greatest incarnation of the node that was declared failed; 0 where none was, or the shape has no such node.
    pub fn dead(&self, node: u8) -> u16
        ensures { result ≡ ((world_state self.now).nodes node).incarnation - 1 }
    {
        self.members.dead(node)
    }

    /// The node with that number, where the shape has it and it is alive.
    pub fn live_node(&self, number: u8) -> Option<&Node>
        ensures { MatchOption result (is_alive (world_state self.now) number ≡ false) (λ n. HasNode (world_state self.now) number (node_state n.now)) }
    {
        if !is_number(u16::from(self.shape.nodes()), u16::from(number)) || !self.is_alive(number) {
            return None;
        }
        Some(self.node(number))
    }

    /// The token server of the file, where the shape has the file: as it works, or as it was when it failed.
    pub fn server_of(&self, file: u16) -> Option<&Server>
        ensures { MatchOption result (has_file (world_state self.now) file ≡ false) (λ s. server_state s.now ≡ (world_state self.now).servers file) }
    {
        if !is_number(self.shape.files(), file) {
            return None;
        }
        Some(self.server(file))
    }

    /// Whether the shape has the file, and its token server works: it was not declared failed, or started again since.
    pub fn is_working(&self, file: u16) -> bool
        ensures { result ≡ (has_file (world_state self.now) file && (world_state self.now).working file) }
    {
        is_number(self.shape.files(), file) && self.works(file)
    }

    /// Whether the node with that number is alive, and its state equals this one.
    pub fn has_node(&self, number: u8, node: &Node) -> bool
        ensures { IsTrue result ↔ HasNode (world_state self.now) number (node_state node.now) }
    {
        if !is_number(u16::from(self.shape.nodes()), u16::from(number)) {
            return false;
        }
        if !self.is_alive(number) {
            return false;
        }
        self.node(number).same(node)
    }

    // The token server of the file.
    fn server(&self, file: u16) -> &Server
        requires { is_within self.now.shape.files file ≡ true }
        ensures { server_state result.now ≡ (world_state self.now).servers file }
    {
        &self.servers[file as usize - 1]
    }

    /// Whether the token server of the file works, and its state equals this one.
    pub fn has_server(&self, file: u16, server: &Server) -> bool
        ensures { IsTrue result ↔ HasServer (world_state self.now) file (server_state server.now) }
    {
        if !is_number(self.shape.files(), file) {
            return false;
        }
        self.works(file) && self.server(file).same(server)
    }

    /// Whether the node may restart now.
    ///
    /// # Errors
    /// In this order: `JournalFull`, `Stranger`, `NotDead`, `TooManyRestarts`, as `step` says.
    pub(crate) fn may_restart(&self, node: u8) -> Result<(), Refused>
        ensures ok { OnOk result ((is_within self.now.shape.nodes node ≡ true) × (made : WorldState × Entry) × (restart_rule (world_state self.now) node ≡ Ok made)) }
        ensures goes { OnOk result ((e : Refused) → kept_next (world_state self.now) (Member (Restart node)) ≢ Err e) }
        ensures err { IfErr result (λ e. kept_next (world_state self.now) (Member (Restart node)) ≡ Err e) }
    {
        if self.length >= JOURNAL_LIMIT {
            return Err(Refused::JournalFull);
        }
        if !is_number(u16::from(self.shape.nodes()), u16::from(node)) {
            return Err(Refused::Stranger);
        }
        self.members.next(node)?;
        Ok(())
    }

    /// The state in which the node begins again. It was declared failed, and may restart.
    ///
    /// # Errors
    /// `AllocError` where a request for memory was refused.
    pub(crate) fn begun(&self, alloc: Global, node: u8) -> Result<Box<Node>, AllocError>
        requires node { is_within self.now.shape.nodes node ≡ true }
        requires may { (made : WorldState × Entry) × (restart_rule (world_state self.now) node ≡ Ok made) }
        ensures { IfOk result (λ begun. node_state begun.value ≡ (world_state self.now).nodes node) }
    {
        let Ok(incarnation) = self.members.next(node) else {
            unreachable!()
        };
        let first = Node::new(alloc, self.shape, node, incarnation)?;
        Ok(Box::new(alloc, first)?)
    }

    /// The state in which the token server of the file would begin again now, and the messages in which it asks the
    /// nodes for their tokens.
    ///
    /// # Errors
    /// Those of `step` at a start of the server.
    pub(crate) fn begun_server(
        &self,
        alloc: Global,
        file: u16,
    ) -> Result<(Box<Server>, Sends), Refused>
        ensures begins { IfOk result (λ r. server_state r.0.value ≡ next_server (world_state self.now) file) }
        ensures asks { IfOk result (λ r. r.1 ≡ outstanding (next_server (world_state self.now) file)) }
        ensures err { IfErr result (λ e. e ≢ NoMemory → kept_next (world_state self.now) (Member (StartServer file)) ≡ Err e) }
        ensures refused { (e : Refused) → kept_next (world_state self.now) (Member (StartServer file)) ≡ Err e → result ≡ Err e }
    {
        if self.length >= JOURNAL_LIMIT {
            return Err(Refused::JournalFull);
        }
        if !self.has_member(&MemberEvent::StartServer { file }) {
            return Err(Refused::Stranger);
        }
        self.next_server(alloc, file)
    }
}
