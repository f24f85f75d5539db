//! Token servers of a world that are declared failed, and start again.
ghost use Rattle.std.specs.Prelude.{◌≡◌, ◌≢◌, ◌<◌, true, Ok, Err, IfOk, IfErr, OnErr};
ghost use Rattle.messages.specs.declared.refusal.Refused.{Refused};
ghost use Rattle.messages.specs.declared.refusal.Refused.TheVariants.{NoMemory};
ghost use Rattle.messages.specs.declared.event.Event.TheVariants.{Member};
ghost use Rattle.messages.specs.declared.event.MemberEvent.TheVariants.{FailServer, StartServer};
ghost use Rattle.messages.specs.rule.Messages.{is_within};
ghost use Rattle.cluster_core.specs.rule.World.{journal_limit};
ghost use Rattle.cluster_core.specs.rule.Next.{fail_rule, start_rule};
ghost use Rattle.cluster_core.specs.rule.Parts.{world_state};
ghost use Rattle.cluster_core.specs.code.Changes.{IsStart, Makes};

use super::World;
use super::world_change::WorldChange;
use messages::{Entry, Event, KeptReply, MemberEvent, Outcome, Refused, Sends};
use std::alloc::{AllocError, Global};
use token_server::Server;

impl World {
    /// Whether the token server of the file works: it was not declared failed, or started again since.
    pub(super) fn works(&self, file: u16) -> bool
        requires { is_within self.now.shape.files file ≡ true }
        ensures { result ≡ (world_state self.now).working file }
    {
        self.members.epoch(file).is_some()
    }

    /// The change by which the token server of the file is declared failed, or the refusal.
    pub(super) fn plan_failure(&self, file: u16) -> Result<WorldChange, Refused>
        requires { is_within self.now.shape.files file ≡ true }
        ensures ok { IfOk result (λ change. Makes self.now (Member (FailServer file)) change (fail_rule (world_state self.now) file)) }
        ensures err { IfErr result (λ e. fail_rule (world_state self.now) file ≡ Err e) }
    {
        if !self.works(file) {
            return Err(Refused::NotAlive);
        }
        Ok(WorldChange::Failed { file })
    }

    /// The token server of the file as it would begin again now, and the messages in which it asks the nodes for
    /// their tokens.
    pub(super) fn next_server(
        &self,
        alloc: Global,
        file: u16,
    ) -> Result<(Box<Server>, Sends), Refused>
        requires { is_within self.now.shape.files file ≡ true }
        ensures ok { IfOk result (λ r. IsStart self.now file r.0.value r.1) }
        ensures err { IfErr result (λ e. e ≢ NoMemory → start_rule (world_state self.now) file ≡ Err e) }
        ensures refused { (e : Refused) → start_rule (world_state self.now) file ≡ Err e → result ≡ Err e }
    {
        let epoch = self.members.next_epoch(file)?;
        let (begun, outcome) = Server::rebuild(alloc, self.shape, file, epoch, &self.members)?;
        let begun = Box::new(alloc, begun)?;
        Ok((begun, outcome.sends))
    }

    /// The change by which the token server of the file starts again, or the refusal.
    pub(super) fn plan_start(&self, alloc: Global, file: u16) -> Result<WorldChange, Refused>
        requires { is_within self.now.shape.files file ≡ true }
        ensures ok { IfOk result (λ change. Makes self.now (Member (StartServer file)) change (start_rule (world_state self.now) file)) }
        ensures err { IfErr result (λ e. e ≢ NoMemory → start_rule (world_state self.now) file ≡ Err e) }
        ensures refused { (e : Refused) → start_rule (world_state self.now) file ≡ Err e → result ≡ Err e }
    {
        let (begun, sends) = self.next_server(alloc, file)?;
        Ok(WorldChange::Started { file, begun, sends })
    }

    /// Declares the token server of the file failed. Gives the entry.
    #[inline(never)]
    pub(super) fn fail(&mut self, file: u16) -> Entry
        requires room { self.old.length < journal_limit }
        requires file { is_within self.old.shape.files file ≡ true }
        requires works { (world_state self.old).working file ≡ true }
        ensures { fail_rule (world_state self.old) file ≡ Ok (world_state self.new, result) }
    {
        let Ok(epoch) = self.members.fail_server(file) else {
            unreachable!()
        };
        self.length += 1;
        let outcome = Outcome::sending(Sends::nothing());
        let event = Event::Member(MemberEvent::FailServer { file });
        Entry::at_node(event, epoch, outcome, KeptReply::nothing())
    }

    /// Starts the token server of the file again, in this state, with the messages in which it asks the nodes for
    /// their tokens. Gives the entry.
    #[inline(never)]
    pub(super) fn start(
        &mut self,
        file: u16,
        begun: Box<Server>,
        sends: Sends,
    ) -> Result<Entry, AllocError>
        requires room { self.old.length < journal_limit }
        requires made { IsStart self.old file begun.value sends }
        ensures ok { IfOk result (λ entry. start_rule (world_state self.old) file ≡ Ok (world_state self.new, entry)) }
        ensures err { OnErr result ((e : Refused) → start_rule (world_state self.old) file ≢ Err e) }
        ensures unchanged { OnErr result (self.new ≡ self.old) }
    {
        self.sent.extend(sends.as_slice())?;
        let Ok(epoch) = self.members.start_server(file) else {
            unreachable!()
        };
        self.servers[file as usize - 1] = Box::into_inner(begun);
        self.length += 1;
        let outcome = Outcome::sending(sends);
        let event = Event::Member(MemberEvent::StartServer { file });
        Ok(Entry::at_node(event, epoch, outcome, KeptReply::nothing()))
    }
}
