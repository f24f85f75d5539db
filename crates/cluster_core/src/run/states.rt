//! The length of a run, and its restarts of nodes and starts of servers, which hand out the new state.
ghost use Rattle.std.specs.Prelude.{◌≡◌, ◌≢◌, ◌≤◌, Ok, Err, IfOk, IfErr, OnOk, OnErr, length};
ghost use Rattle.messages.specs.declared.event.Event.TheVariants.{Member};
ghost use Rattle.messages.specs.declared.event.MemberEvent.TheVariants.{Restart, StartServer};
ghost use Rattle.messages.specs.rule.Messages.{sending};
ghost use Rattle.messages.specs.declared.refusal.Refused.{Refused};
ghost use Rattle.messages.specs.declared.refusal.Refused.TheVariants.{NoMemory};
ghost use Rattle.node_core.specs.rule.Parts.{node_state};
ghost use Rattle.token_server.specs.rule.Parts.{server_state};
ghost use Rattle.token_server.specs.rule.Resends.{outstanding};
ghost use Rattle.cluster_core.specs.rule.World.{journal_limit};
ghost use Rattle.cluster_core.specs.rule.Next.{kept_next, next_server};
ghost use Rattle.cluster_core.specs.rule.Parts.{world_state};
ghost use Rattle.cluster_core.specs.rule.Journals.{GoesOn};

use super::Run;
use messages::{Event, MemberEvent, Outcome, Refused};
use node_core::Node;
use std::alloc::Global;
use token_server::Server;

impl Run {
    /// The number of entries: at most 1,048,576.
    pub fn len(&self) -> u32
        ensures value { result ≡ length self.now.entries }
        ensures of_world { result ≡ self.now.world.length }
        ensures within { result ≤ journal_limit }
    {
        self.entries.len() as u32
    }

    /// The node begins again, as `take` does it. Gives the state in which it begins.
    ///
    /// # Errors
    /// Those of `World::step` at a restart, in this order: `JournalFull`, `Stranger`, `NotDead`, `TooManyRestarts`,
    /// `NoMemory`. The run is then as it was.
    pub fn restart(&mut self, alloc: Global, node: u8) -> Result<Box<Node>, Refused>
        ensures ok { OnOk result (GoesOn self.old (Member (Restart node)) self.new) }
        ensures begun { IfOk result (λ begun. node_state begun.value ≡ (world_state self.new.world).nodes node) }
        ensures err { IfErr result (λ e. e ≢ NoMemory → kept_next (world_state self.old.world) (Member (Restart node)) ≡ Err e) }
        ensures refused { (e : Refused) → kept_next (world_state self.old.world) (Member (Restart node)) ≡ Err e → result ≡ Err e }
        ensures unchanged { OnErr result (self.new ≡ self.old) }
    {
        self.world.may_restart(node)?;
        let begun = self.world.begun(alloc, node)?;
        self.take(alloc, Event::Member(MemberEvent::Restart { node }))?;
        Ok(begun)
    }

    /// The token server of the file, which was declared failed, begins again, as `take` does it. Gives the state in
    /// which it begins, and the messages in which it asks the nodes for their tokens.
    ///
    /// # Errors
    /// Those of `World::step` at a start of a server, in this order: `JournalFull`, `Stranger`, `NotDead`,
    /// `TooManyRestarts`, `NoMemory`. The run is then as it was.
    pub fn start(&mut self, alloc: Global, file: u16) -> Result<(Box<Server>, Outcome), Refused>
        ensures ok { OnOk result (GoesOn self.old (Member (StartServer file)) self.new) }
        ensures begun { IfOk result (λ r. server_state r.0.value ≡ (world_state self.new.world).servers file) }
        ensures asks { IfOk result (λ r. r.1 ≡ sending (outstanding (next_server (world_state self.old.world) file))) }
        ensures err { IfErr result (λ e. e ≢ NoMemory → kept_next (world_state self.old.world) (Member (StartServer file)) ≡ Err e) }
        ensures refused { (e : Refused) → kept_next (world_state self.old.world) (Member (StartServer file)) ≡ Err e → result ≡ Err e }
        ensures unchanged { OnErr result (self.new ≡ self.old) }
    {
        let (begun, sends) = self.world.begun_server(alloc, file)?;
        self.take(alloc, Event::Member(MemberEvent::StartServer { file }))?;
        Ok((begun, Outcome::sending(sends)))
    }
}
