//! The failures and beginnings of nodes and token servers of a cluster on threads.
ghost use Rattle.std.specs.Prelude.{◌≡◌, IfOk, IfErr, true};
ghost use Rattle.model.specs.rule.Limits.{IsNumber};
ghost use Rattle.messages.specs.declared.event.Event.TheVariants.{Member};
ghost use Rattle.messages.specs.declared.event.MemberEvent.TheVariants.{Declare, FailServer};
ghost use Rattle.cluster_core.specs.rule.World.{journal_limit};
ghost use Rattle.actors.specs.code.Refusals.{may_refuse_failure, may_refuse_start};

use super::Cluster;
use crate::letter::Letter;
use book::{Name, Stamp};
use messages::{Actor, Refused};
use std::sync::Wait;

impl<J: Name, G> Cluster<'_, J, G> {
    /// Declares the node failed, and sends each token server word of it.
    ///
    /// # Errors
    /// Those of `Book::declare`: `JournalFull`, `Stranger`, `NotAlive` or `NoMemory`.
    pub fn declare<R: Wait>(&self, rt: &R, node: u8) -> Result<Stamp, Refused>
        ensures event { IfOk result (λ stamp. stamp.event ≡ Member (Declare node)) }
        ensures refused { IfErr result (λ e. may_refuse_failure e ≡ true) }
    {
        let mut place = self.place(node).map(|place| place.lock(rt));
        let stamp = self.book.lock(rt).declare(self.alloc(), node)?;
        if let Some(place) = place.as_mut() {
            let incarnation = place.end();
            for mailbox in self
                .begun
                .mailboxes
                .iter()
                .skip(usize::from(self.begun.nodes))
            {
                let letter = Letter::Learn { node, incarnation };
                mailbox.send_surely(rt, letter, &self.begun.halt);
            }
        }
        Ok(stamp)
    }

    /// Restarts the node, which was declared failed. Its worker takes the new seat before its next letter. Gives the
    /// position of the entry, from 1.
    ///
    /// # Errors
    /// Those of `Book::restart`: `JournalFull`, `Stranger`, `NotDead`, `TooManyRestarts` or `NoMemory`.
    pub fn restart<R: Wait>(&self, rt: &R, node: u8) -> Result<u32, Refused>
        ensures position { IfOk result (IsNumber journal_limit) }
        ensures refused { IfErr result (λ e. may_refuse_start e ≡ true) }
    {
        let mut place = self.place(node).map(|place| place.lock(rt));
        let mut book = self.book.lock(rt);
        let seat = book.restart(self.alloc(), node)?;
        if let Some(place) = place.as_mut() {
            place.begin(seat);
        }
        Ok(book.len())
    }

    /// Declares the token server of the file failed.
    ///
    /// # Errors
    /// Those of `Book::fail_server`: `JournalFull`, `Stranger`, `NotAlive` or `NoMemory`.
    pub fn fail_server<R: Wait>(&self, rt: &R, file: u16) -> Result<Stamp, Refused>
        ensures event { IfOk result (λ stamp. stamp.event ≡ Member (FailServer file)) }
        ensures refused { IfErr result (λ e. may_refuse_failure e ≡ true) }
    {
        self.book.lock(rt).fail_server(self.alloc(), file)
    }

    /// Starts the token server of the file again, which was declared failed. Its worker takes the new seat before its
    /// next letter, and sends the messages in which the server asks the nodes for their tokens. Gives the position of
    /// the entry, from 1.
    ///
    /// # Errors
    /// Those of `Book::start_server`: `JournalFull`, `Stranger`, `NotDead`, `TooManyRestarts` or `NoMemory`.
    pub fn start_server<R: Wait>(&self, rt: &R, file: u16) -> Result<u32, Refused>
        ensures position { IfOk result (IsNumber journal_limit) }
        ensures refused { IfErr result (λ e. may_refuse_start e ≡ true) }
    {
        let position = self.rebuild(rt, file)?;
        if let Some(mailbox) = self.mailbox(Actor::Server(file)) {
            mailbox.send_surely(rt, Letter::Begin, &self.begun.halt);
        }
        Ok(position)
    }

    // Rebuilds the token server of the file, and puts it where its worker finds it. Gives the position of the entry.
    fn rebuild<R: Wait>(&self, rt: &R, file: u16) -> Result<u32, Refused>
        ensures position { IfOk result (IsNumber journal_limit) }
        ensures refused { IfErr result (λ e. may_refuse_start e ≡ true) }
    {
        let mut place = self.server_place(file).map(|place| place.lock(rt));
        let mut book = self.book.lock(rt);
        let rebuilt = book.start_server(self.alloc(), file)?;
        if let Some(place) = place.as_mut() {
            **place = Some(rebuilt);
        }
        Ok(book.len())
    }
}
