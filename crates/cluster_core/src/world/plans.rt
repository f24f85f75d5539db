//! How a world plans the step of an event.
ghost use Rattle.std.specs.Prelude.{◌≡◌, ◌≢◌, ◌<◌, true, false, Ok, Err, IfOk, IfErr, ◌-◌, slice_index_or};
ghost use Rattle.messages.specs.declared.refusal.Refused.TheVariants.{NoMemory};
ghost use Rattle.messages.specs.declared.refusal.StepError.TheVariants.{NoMemory as OutOfMemory};
ghost use Rattle.messages.specs.rule.Messages.{addressee, is_within};
ghost use Rattle.messages.specs.rule.Entries.{NamesItsIncarnation};
ghost use Rattle.node_core.specs.rule.Node.{node_rule};
ghost use Rattle.node_core.specs.rule.Parts.{NodeParts, node_state};
ghost use Rattle.node_core.specs.code.Plans.{Fits, planned as reached};
ghost use Rattle.token_server.specs.rule.Server.{server_rule};
ghost use Rattle.token_server.specs.rule.Parts.{ServerParts};
ghost use Rattle.token_server.specs.code.Edits.{planned, Fits as ServerFits};
ghost use Rattle.cluster_core.specs.rule.Next.{has_member, is_known, is_fenced, is_stopped, has_actor, declare_rule, restart_rule, member_rule, named_incarnation, delivered, taken, next};
ghost use Rattle.cluster_core.specs.rule.Parts.{world_state};
ghost use Rattle.cluster_core.specs.code.Changes.{Makes};
ghost use Rattle.messages.specs.declared.actor.Actor.TheVariants.{Node as ANode, Server as AServer};
ghost use Rattle.messages.specs.declared.event.Event.TheVariants.{AtNode, AtServer, Deliver, Member};
ghost use Rattle.messages.specs.declared.event.MemberEvent.TheVariants.{Declare, Restart};
ghost use Rattle.node_core.specs.declared.event.NodeEvent.TheVariants as own;
ghost use Rattle.token_server.specs.declared.event.ServerEvent.TheVariants as served;
ghost use Rattle.messages.specs.declared.refusal.Refused.{Refused};

use super::World;
use super::world_change::WorldChange;
use messages::{Actor, Event, MemberEvent, Message, NodeInput, Refused, ServerInput, StepError};
use node_core::{Node, NodeChange, NodeEvent};
use std::alloc::Global;
use token_server::{ServerChange, ServerEvent};

impl World {
    // The node with that number.
    pub(super) fn node(&self, node: u8) -> &Node
        requires node { is_within self.now.shape.nodes node ≡ true }
        requires alive { (world_state self.now).alive node ≡ true }
        ensures { node_state result.now ≡ (world_state self.now).nodes node }
    {
        &self.nodes[node as usize - 1]
    }

    // The incarnation that the entry of what comes to the node names, or 0.
    fn named_incarnation(&self, node: u8, input: &NodeInput) -> u16
        requires node { is_within self.now.shape.nodes node ≡ true }
        requires alive { (world_state self.now).alive node ≡ true }
        ensures value { result ≡ named_incarnation ((world_state self.now).nodes node) (AtNode node input.now) }
        ensures incarnated { NamesItsIncarnation (AtNode node input.now) result }
    {
        match input {
            NodeInput::Call { .. } => 0,
            NodeInput::Interrupt { .. } => self.node(node).incarnation(),
            NodeInput::Retry { .. } => self.node(node).incarnation(),
        }
    }

    // The planned step of the node at an event.
    fn node_plan(&self, alloc: Global, node: u8, step: &NodeEvent) -> Result<NodeChange, StepError>
        requires node { is_within self.now.shape.nodes node ≡ true }
        requires alive { (world_state self.now).alive node ≡ true }
        ensures ok { IfOk result (λ change. (p : NodeParts) × (p ≡ slice_index_or self.now.nodes (node - 1) p) × Fits p change.edit × (node_rule ((world_state self.now).nodes node) step.now ≡ Ok (reached p change.edit, change.outcome))) }
        ensures err { IfErr result (λ e. e ≢ OutOfMemory → node_rule ((world_state self.now).nodes node) step.now ≡ Err e) }
        ensures refused { (r : StepError) → node_rule ((world_state self.now).nodes node) step.now ≡ Err r → result ≡ Err r }
    {
        self.nodes[node as usize - 1].plan(alloc, step)
    }

    // The planned step of the token server at an event.
    fn server_plan(
        &self,
        alloc: Global,
        file: u16,
        step: &ServerEvent,
    ) -> Result<ServerChange, StepError>
        requires { is_within self.now.shape.files file ≡ true }
        ensures ok { IfOk result (λ change. (p : ServerParts) × (p ≡ slice_index_or self.now.servers (file - 1) p) × ServerFits p change.edit × (server_rule ((world_state self.now).servers file) step.now ≡ Ok (planned p change.edit, change.outcome))) }
        ensures err { IfErr result (λ e. e ≢ OutOfMemory → server_rule ((world_state self.now).servers file) step.now ≡ Err e) }
        ensures refused { (r : StepError) → r ≢ StepError.Spent → server_rule ((world_state self.now).servers file) step.now ≡ Err r → result ≡ Err r }
    {
        self.servers[file as usize - 1].plan(alloc, step)
    }

    // The planned step of the node at the delivery of the message.
    fn node_delivery(
        &self,
        alloc: Global,
        node: u8,
        message: &Message,
    ) -> Result<NodeChange, StepError>
        requires node { is_within self.now.shape.nodes node ≡ true }
        requires alive { (world_state self.now).alive node ≡ true }
        ensures ok { IfOk result (λ change. (p : NodeParts) × (p ≡ slice_index_or self.now.nodes (node - 1) p) × Fits p change.edit × (node_rule ((world_state self.now).nodes node) (own.Deliver message.now) ≡ Ok (reached p change.edit, change.outcome))) }
        ensures err { IfErr result (λ e. e ≢ OutOfMemory → node_rule ((world_state self.now).nodes node) (own.Deliver message.now) ≡ Err e) }
        ensures refused { (r : StepError) → node_rule ((world_state self.now).nodes node) (own.Deliver message.now) ≡ Err r → result ≡ Err r }
    {
        self.nodes[node as usize - 1].plan_delivery(alloc, message)
    }

    // The planned step of the token server at the delivery of the message.
    fn server_delivery(
        &self,
        alloc: Global,
        file: u16,
        message: &Message,
    ) -> Result<ServerChange, StepError>
        requires { is_within self.now.shape.files file ≡ true }
        ensures ok { IfOk result (λ change. (p : ServerParts) × (p ≡ slice_index_or self.now.servers (file - 1) p) × ServerFits p change.edit × (server_rule ((world_state self.now).servers file) (served.Deliver message.now) ≡ Ok (planned p change.edit, change.outcome))) }
        ensures err { IfErr result (λ e. e ≢ OutOfMemory → server_rule ((world_state self.now).servers file) (served.Deliver message.now) ≡ Err e) }
        ensures refused { (r : StepError) → r ≢ StepError.Spent → server_rule ((world_state self.now).servers file) (served.Deliver message.now) ≡ Err r → result ≡ Err r }
    {
        self.servers[file as usize - 1].plan_delivery(alloc, message)
    }

    // The change that what comes to the node makes.
    fn plan_node(&self, alloc: Global, node: u8, input: &NodeInput) -> Result<WorldChange, Refused>
        requires node { is_within self.now.shape.nodes node ≡ true }
        requires alive { (world_state self.now).alive node ≡ true }
        ensures ok { IfOk result (λ change. Makes self.now (AtNode node input.now) change (taken (world_state self.now) (AtNode node input.now))) }
        ensures err { IfErr result (λ e. e ≢ NoMemory → taken (world_state self.now) (AtNode node input.now) ≡ Err e) }
        ensures refused { (e : Refused) → taken (world_state self.now) (AtNode node input.now) ≡ Err e → result ≡ Err e }
    {
        let incarnation = self.named_incarnation(node, input);
        let change = self.node_plan(alloc, node, &NodeEvent::Input(*input))?;
        Ok(WorldChange::OfNode {
            node,
            incarnation,
            change,
        })
    }

    // The change that what comes to the token server makes.
    fn plan_server(
        &self,
        alloc: Global,
        file: u16,
        input: &ServerInput,
    ) -> Result<WorldChange, Refused>
        requires { is_within self.now.shape.files file ≡ true }
        ensures ok { IfOk result (λ change. Makes self.now (AtServer file input.now) change (taken (world_state self.now) (AtServer file input.now))) }
        ensures err { IfErr result (λ e. e ≢ NoMemory → taken (world_state self.now) (AtServer file input.now) ≡ Err e) }
        ensures refused { (e : Refused) → e ≢ Refused.Spent → taken (world_state self.now) (AtServer file input.now) ≡ Err e → result ≡ Err e }
    {
        let change = self.server_plan(alloc, file, &ServerEvent::Input(*input))?;
        Ok(WorldChange::OfServer { file, change })
    }

    // The change that the delivery of the message to the node makes.
    fn plan_node_delivery(
        &self,
        alloc: Global,
        node: u8,
        message: &Message,
    ) -> Result<WorldChange, Refused>
        requires node { is_within self.now.shape.nodes node ≡ true }
        requires alive { (world_state self.now).alive node ≡ true }
        requires to { addressee message.now ≡ ANode node }
        ensures ok { IfOk result (λ change. Makes self.now (Deliver message.now) change (delivered (world_state self.now) message.now (ANode node))) }
        ensures err { IfErr result (λ e. e ≢ NoMemory → delivered (world_state self.now) message.now (ANode node) ≡ Err e) }
        ensures refused { (e : Refused) → delivered (world_state self.now) message.now (ANode node) ≡ Err e → result ≡ Err e }
    {
        let change = self.node_delivery(alloc, node, message)?;
        Ok(WorldChange::OfNode {
            node,
            incarnation: 0,
            change,
        })
    }

    // The change that the delivery of the message to the token server makes.
    fn plan_server_delivery(
        &self,
        alloc: Global,
        file: u16,
        message: &Message,
    ) -> Result<WorldChange, Refused>
        requires file { is_within self.now.shape.files file ≡ true }
        requires to { addressee message.now ≡ AServer file }
        ensures ok { IfOk result (λ change. Makes self.now (Deliver message.now) change (delivered (world_state self.now) message.now (AServer file))) }
        ensures err { IfErr result (λ e. e ≢ NoMemory → delivered (world_state self.now) message.now (AServer file) ≡ Err e) }
        ensures refused { (e : Refused) → e ≢ Refused.Spent → delivered (world_state self.now) message.now (AServer file) ≡ Err e → result ≡ Err e }
    {
        let change = self.server_delivery(alloc, file, message)?;
        Ok(WorldChange::OfServer { file, change })
    }

    // The change that the delivery of the message to its addressee makes.
    pub(super) fn plan_delivery(
        &self,
        alloc: Global,
        message: &Message,
    ) -> Result<WorldChange, Refused>
        requires known { has_actor (world_state self.now) (addressee message.now) ≡ true }
        requires free { is_stopped (world_state self.now) (addressee message.now) ≡ false }
        ensures ok { IfOk result (λ change. Makes self.now (Deliver message.now) change (taken (world_state self.now) (Deliver message.now))) }
        ensures err { IfErr result (λ e. e ≢ NoMemory → taken (world_state self.now) (Deliver message.now) ≡ Err e) }
        ensures refused { (e : Refused) → e ≢ Refused.Spent → taken (world_state self.now) (Deliver message.now) ≡ Err e → result ≡ Err e }
    {
        match message.addressee() {
            Actor::Node(node) => self.plan_node_delivery(alloc, node, message),
            Actor::Server(file) => self.plan_server_delivery(alloc, file, message),
        }
    }

    // The change by which the node is declared failed, or the refusal.
    fn plan_declare(&self, node: u8) -> Result<WorldChange, Refused>
        requires { is_within self.now.shape.nodes node ≡ true }
        ensures ok { IfOk result (λ change. Makes self.now (Member (Declare node)) change (declare_rule (world_state self.now) node)) }
        ensures err { IfErr result (λ e. declare_rule (world_state self.now) node ≡ Err e) }
        ensures refused { (e : Refused) → declare_rule (world_state self.now) node ≡ Err e → result ≡ Err e }
    {
        if !self.is_alive(node) {
            return Err(Refused::NotAlive);
        }
        Ok(WorldChange::Declared { node })
    }

    // The change by which the node restarts, or the refusal.
    fn plan_restart(&self, alloc: Global, node: u8) -> Result<WorldChange, Refused>
        requires { is_within self.now.shape.nodes node ≡ true }
        ensures ok { IfOk result (λ change. Makes self.now (Member (Restart node)) change (restart_rule (world_state self.now) node)) }
        ensures err { IfErr result (λ e. e ≢ NoMemory → restart_rule (world_state self.now) node ≡ Err e) }
        ensures refused { (e : Refused) → restart_rule (world_state self.now) node ≡ Err e → result ≡ Err e }
    {
        let incarnation = self.members.next(node)?;
        let first = Node::new(alloc, self.shape, node, incarnation)?;
        let begun = Box::new(alloc, first)?;
        Ok(WorldChange::Restarted { node, begun })
    }

    // The change by which a member is declared failed or begins again, or the refusal.
    #[inline(never)]
    fn plan_member(&self, alloc: Global, event: &MemberEvent) -> Result<WorldChange, Refused>
        requires { has_member (world_state self.now) event.now ≡ true }
        ensures ok { IfOk result (λ change. Makes self.now (Member event.now) change (member_rule (world_state self.now) event.now)) }
        ensures err { IfErr result (λ e. e ≢ NoMemory → member_rule (world_state self.now) event.now ≡ Err e) }
        ensures refused { (e : Refused) → member_rule (world_state self.now) event.now ≡ Err e → result ≡ Err e }
    {
        match event {
            MemberEvent::Declare { node } => self.plan_declare(*node),
            MemberEvent::Restart { node } => self.plan_restart(alloc, *node),
            MemberEvent::FailServer { file } => self.plan_failure(*file),
            MemberEvent::StartServer { file } => self.plan_start(alloc, *file),
        }
    }

    // The change that the event makes, whichever actor takes it.
    pub(super) fn plan_taken(&self, alloc: Global, event: &Event) -> Result<WorldChange, Refused>
        requires known { is_known (world_state self.now) event.now ≡ true }
        requires free { is_fenced (world_state self.now) event.now ≡ false }
        ensures ok { IfOk result (λ change. Makes self.now event.now change (taken (world_state self.now) event.now)) }
        ensures err { IfErr result (λ e. e ≢ NoMemory → taken (world_state self.now) event.now ≡ Err e) }
        ensures refused { (e : Refused) → e ≢ Refused.Spent → taken (world_state self.now) event.now ≡ Err e → result ≡ Err e }
    {
        match event {
            Event::AtNode(node, input) => self.plan_node(alloc, *node, input),
            Event::AtServer(file, input) => self.plan_server(alloc, *file, input),
            Event::Deliver(message) => self.plan_delivery(alloc, message.get()),
            Event::Member(change) => self.plan_member(alloc, change),
        }
    }
}
