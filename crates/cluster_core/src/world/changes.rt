//! The changes that a world makes as they were planned.
ghost use Rattle.std.specs.Prelude.{◌≡◌, ◌≢◌, ◌<◌, true, Ok, Err, IfOk, OnErr, length, ◌-◌};
ghost use Rattle.messages.specs.rule.Messages.{is_within};
ghost use Rattle.cluster_core.specs.rule.World.{journal_limit};
ghost use Rattle.cluster_core.specs.rule.Next.{declare_rule, restart_rule, next};
ghost use Rattle.cluster_core.specs.rule.Parts.{world_state};
ghost use Rattle.cluster_core.specs.code.Changes.{IsNodeChange, IsServerChange, IsRestart, Plans};
ghost use Rattle.messages.specs.declared.event.Event.TheVariants.{Member};
ghost use Rattle.messages.specs.declared.event.MemberEvent.TheVariants.{Declare, Restart};
ghost use Rattle.messages.specs.declared.refusal.Refused.{Refused};

use super::World;
use crate::world::world_change::WorldChange;
use messages::{Entry, Event, KeptReply, MemberEvent, Outcome, Refused, Sends};
use node_core::{Node, NodeChange};
use std::alloc::{AllocError, Global};
use token_server::ServerChange;

impl World {
    // Makes the planned step of the node. Gives the entry.
    fn change_node(
        &mut self,
        alloc: Global,
        event: Event,
        node: u8,
        incarnation: u16,
        change: NodeChange,
    ) -> Result<Entry, AllocError>
        requires room { self.old.length < journal_limit }
        requires made { IsNodeChange self.old event node incarnation change (next (world_state self.old) event) }
        ensures ok { IfOk result (λ entry. next (world_state self.old) event ≡ Ok (world_state self.new, entry)) }
        ensures err { OnErr result ((e : Refused) → next (world_state self.old) event ≢ Err e) }
        ensures unchanged { OnErr result (self.new ≡ self.old) }
    {
        let reply = kept_reply(alloc, &change.outcome)?;
        self.sent.extend(change.outcome.sends.as_slice())?;
        let stepping = &mut self.nodes[node as usize - 1];
        let outcome = stepping.apply(change);
        self.length += 1;
        Ok(Entry::at_node(event, incarnation, outcome, reply))
    }

    // Makes the planned step of the token server. Gives the entry.
    fn change_server(
        &mut self,
        alloc: Global,
        event: Event,
        file: u16,
        change: ServerChange,
    ) -> Result<Entry, AllocError>
        requires room { self.old.length < journal_limit }
        requires made { IsServerChange self.old event file change (next (world_state self.old) event) }
        ensures ok { IfOk result (λ entry. next (world_state self.old) event ≡ Ok (world_state self.new, entry)) }
        ensures err { OnErr result ((e : Refused) → next (world_state self.old) event ≢ Err e) }
        ensures unchanged { OnErr result (self.new ≡ self.old) }
    {
        let reply = kept_reply(alloc, &change.outcome)?;
        self.sent.extend(change.outcome.sends.as_slice())?;
        let server = &mut self.servers[file as usize - 1];
        let outcome = server.apply(change);
        self.length += 1;
        Ok(Entry::new(event, outcome, reply))
    }

    // Declares the node failed. Gives the entry.
    #[inline(never)]
    fn declare(&mut self, node: u8) -> Entry
        requires room { self.old.length < journal_limit }
        requires node { is_within self.old.shape.nodes node ≡ true }
        requires alive { (world_state self.old).alive node ≡ true }
        ensures { declare_rule (world_state self.old) node ≡ Ok (world_state self.new, result) }
    {
        let Ok(incarnation) = self.members.declare(node) else {
            unreachable!()
        };
        self.length += 1;
        let outcome = Outcome::sending(Sends::nothing());
        let event = Event::Member(MemberEvent::Declare { node });
        Entry::at_node(event, incarnation, outcome, KeptReply::nothing())
    }

    // Restarts the node, in this state. Gives the entry.
    #[inline(never)]
    fn restart(&mut self, node: u8, begun: Box<Node>) -> Entry
        requires room { self.old.length < journal_limit }
        requires made { IsRestart self.old node begun.value }
        ensures { restart_rule (world_state self.old) node ≡ Ok (world_state self.new, result) }
    {
        let Ok(incarnation) = self.members.restart(node) else {
            unreachable!()
        };
        self.nodes[node as usize - 1] = Box::into_inner(begun);
        self.length += 1;
        let outcome = Outcome::sending(Sends::nothing());
        let event = Event::Member(MemberEvent::Restart { node });
        Entry::at_node(event, incarnation, outcome, KeptReply::nothing())
    }

    /// Makes the planned change. Only the messages that it sends, which go to the list of those sent, may take
    /// memory.
    ///
    /// # Errors
    /// `AllocError` where a request for memory was refused. The world is then as it was.
    pub(crate) fn apply(
        &mut self,
        alloc: Global,
        event: Event,
        change: WorldChange,
    ) -> Result<Entry, AllocError>
        requires { Plans self.old event change }
        ensures ok { IfOk result (λ entry. next (world_state self.old) event ≡ Ok (world_state self.new, entry)) }
        ensures err { OnErr result ((e : Refused) → next (world_state self.old) event ≢ Err e) }
        ensures unchanged { OnErr result (self.new ≡ self.old) }
    {
        match change {
            WorldChange::OfNode {
                node,
                incarnation,
                change,
            } => self.change_node(alloc, event, node, incarnation, change),
            WorldChange::OfServer { file, change } => self.change_server(
                alloc, event, file, change,
            ),
            WorldChange::Declared { node } => Ok(self.declare(node)),
            WorldChange::Restarted { node, begun } => Ok(self.restart(node, begun)),
            WorldChange::Failed { file } => Ok(self.fail(file)),
            WorldChange::Started { file, begun, sends } => self.start(file, begun, sends),
        }
    }
}

// The reply of an outcome, as an entry keeps it.
fn kept_reply(alloc: Global, outcome: &Outcome) -> Result<KeptReply, AllocError>
    ensures { IfOk result (λ kept. kept ≡ outcome.now.reply) }
{
    KeptReply::new(alloc, outcome.reply)
}
