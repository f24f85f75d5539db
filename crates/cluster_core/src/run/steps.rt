//! The steps of a run that were planned elsewhere, from a copy of the actor's state.
ghost use Rattle.std.specs.Prelude.{◌≡◌, ◌<◌, true, Ok, OnOk, OnErr};
ghost use Rattle.messages.specs.rule.Entries.{NamesItsIncarnation};
ghost use Rattle.node_core.specs.rule.Parts.{node_state};
ghost use Rattle.node_core.specs.code.Plans.{planned as reached, Fits};
ghost use Rattle.token_server.specs.rule.Parts.{server_state};
ghost use Rattle.token_server.specs.code.Edits.{planned, Fits as ServerFits};
ghost use Rattle.cluster_core.specs.rule.World.{journal_limit};
ghost use Rattle.cluster_core.specs.rule.Next.{is_known, named_incarnation};
ghost use Rattle.cluster_core.specs.rule.Parts.{world_state};
ghost use Rattle.cluster_core.specs.rule.Actors.{HasNode, HasServer, node_step, server_step};
ghost use Rattle.cluster_core.specs.rule.Journals.{GoesOn};
ghost use Rattle.messages.specs.declared.event.MemberEvent.{MemberEvent};
ghost use Rattle.messages.specs.declared.event.Event.TheVariants.{Member};

use super::Run;
use crate::world::world_change::WorldChange;
use messages::{Event, NodeInput};
use node_core::{Node, NodeChange};
use std::alloc::{AllocError, Global};
use token_server::{Server, ServerChange};

// The incarnation that the entry of an event at the node names, or 0.
fn named_incarnation(node: &Node, event: &Event) -> u16
    ensures value { result ≡ named_incarnation (node_state node.now) event.now }
    ensures incarnated { ((member : MemberEvent) → event.now ≡ Member member → ⊥) → NamesItsIncarnation event.now result }
{
    match event {
        Event::AtNode(_, input) => match input {
            NodeInput::Call { .. } => 0,
            NodeInput::Interrupt { .. } => node.incarnation(),
            NodeInput::Retry { .. } => node.incarnation(),
        },
        _ => 0,
    }
}

impl Run {
    /// The run takes the event by a step of the node that was planned from this copy of the node's state, which equals
    /// the run's copy. The run steps from this copy and keeps it, and gives its own in exchange, as it was before the
    /// step. The entry comes last. Nothing is planned.
    ///
    /// # Errors
    /// `AllocError` where a request for memory was refused. The run and the copy are then as they were.
    pub fn step_node(
        &mut self,
        alloc: Global,
        event: Event,
        number: u8,
        node: &mut Node,
        change: NodeChange,
    ) -> Result<(), AllocError>
        requires room { self.old.world.length < journal_limit }
        requires known { is_known (world_state self.old.world) event ≡ true }
        requires stands { HasNode (world_state self.old.world) number (node_state node.old) }
        requires fits { Fits node.old change.edit }
        requires steps { node_step number (node_state node.old) event ≡ Ok (reached node.old change.edit, change.outcome) }
        ensures ok { OnOk result (GoesOn self.old event self.new) }
        ensures state { node_state node.new ≡ node_state node.old }
        ensures unchanged { OnErr result ((self.new ≡ self.old) × (node.new ≡ node.old)) }
    {
        self.world.keep_index(alloc, &event)?;
        let incarnation = named_incarnation(node, &event);
        self.world.exchange_node(number, node);
        let planned = WorldChange::OfNode {
            node: number,
            incarnation,
            change,
        };
        let made = self.go_on(alloc, event, planned);
        if made.is_err() {
            self.world.exchange_node(number, node);
        }
        made
    }

    /// The run takes the event by a step of the file's token server that was planned from this copy of its state, as
    /// `step_node` does for a node.
    ///
    /// # Errors
    /// `AllocError` where a request for memory was refused. The run and the copy are then as they were.
    pub fn step_server(
        &mut self,
        alloc: Global,
        event: Event,
        file: u16,
        server: &mut Server,
        change: ServerChange,
    ) -> Result<(), AllocError>
        requires room { self.old.world.length < journal_limit }
        requires known { is_known (world_state self.old.world) event ≡ true }
        requires stands { HasServer (world_state self.old.world) file (server_state server.old) }
        requires fits { ServerFits server.old change.edit }
        requires steps { server_step file (server_state server.old) event ≡ Ok (planned server.old change.edit, change.outcome) }
        ensures ok { OnOk result (GoesOn self.old event self.new) }
        ensures state { server_state server.new ≡ server_state server.old }
        ensures unchanged { OnErr result ((self.new ≡ self.old) × (server.new ≡ server.old)) }
    {
        self.world.keep_index(alloc, &event)?;
        self.world.exchange_server(file, server);
        let made = self.go_on(alloc, event, WorldChange::OfServer { file, change });
        if made.is_err() {
            self.world.exchange_server(file, server);
        }
        made
    }
}
