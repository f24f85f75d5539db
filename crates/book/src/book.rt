//! The book: the journal that the actors of a cluster share.
ghost use Rattle.std.specs.Prelude.{◌≡◌, ◌≢◌, ◌+◌, ◌-◌, ◌<◌, ◌≤◌, [], ℕ, Ok, Err, Some, true, length, slice_get, IfOk, IfErr, IfSome, OnErr, MatchResult, MatchBool, option_copied};
ghost use Rattle.messages.specs.declared.event.Event.TheVariants.{Member};
ghost use Rattle.messages.specs.declared.event.MemberEvent.TheVariants.{Declare, Restart, FailServer, StartServer};
ghost use Rattle.messages.specs.declared.refusal.Refused.{Refused};
ghost use Rattle.messages.specs.declared.entry.Entry.{Entry};
ghost use Rattle.cluster_core.specs.rule.World.{first_world, journal_limit};
ghost use Rattle.cluster_core.specs.rule.Next.{kept_next};
ghost use Rattle.cluster_core.specs.rule.Parts.{world_state};
ghost use Rattle.cluster_core.specs.rule.Runs.{Leads};
ghost use Rattle.cluster_core.specs.rule.Journals.{RunFields, journal_of};
ghost use Rattle.cluster_core.specs.rule.Histories.{HasOneHistory};
ghost use Rattle.cluster_core.specs.rule.Safe.{IsSafe};
ghost use Rattle.book.specs.rule.States.{SeatFields, StampFields};
ghost use Rattle.book.specs.rule.Commits.{Holds, IsStampOf, IsReceiptOf, Names, IsSeatOf, Refuses, Commits, seen_at, Declared, Restarted, Failed, Started, IsFirstSeat};
ghost use Rattle.book.specs.code.Copies.{IsStepFrom};

use crate::book::beginnings::{node_seats, push_servers};
use crate::holds::holds;
use crate::{
    CommitError, LastSpots, Mark, Name, NewTrail, Prepared, Receipt, Seat, Stamp, State, accepts,
    seen_of,
};
use cluster_core::{Journal, Run, World};
use messages::{Actor, Entry, Event, MemberEvent, Outcome, Refused, Sends, Shape};
use node_core::Node;
use std::alloc::{AllocError, Global};
use std::marker::Model;
use token_server::Server;

mod beginnings;

/// The journal that the actors of a cluster share, which is always a run, and a copy of each actor's state after it.
/// The type is generic in the name of the book's trail, so that a spot that a seat keeps is known to be of the same
/// trail.
#[derive(Drop)]
pub struct Book<J: Name> {
    run: Run,
    spots: LastSpots<J>,
}

impl<J: Name> Model for Book<J> {
    ghost use Rattle.cluster_core.specs.rule.Journals.{RunFields};
    ghost use Rattle.cluster_core.specs.rule.Parts.{world_state};
    ghost use Rattle.book.specs.code.Copies.{AreReached};

    ghost Value = { RunFields };

    ghost view = { λ b. b.run };

    ghost invariant = { λ b. AreReached (world_state b.run.world) b.spots };
}

impl<J: Name> Book<J> {
    /// A book with an empty journal, and the first seats: of its nodes and then of its token servers, each by number
    /// from 1. Without a trail each commit compares the seat's state with the book's copy. With one it does so only
    /// where the spots don't tell that both are equal, as at a seat's first commit; a trail costs a spot for each
    /// actor.
    ///
    /// # Errors
    /// `AllocError` where a request for memory was refused.
    pub fn new(
        alloc: Global,
        shape: Shape,
        trail: Option<NewTrail>,
    ) -> Result<(Book<J>, Vec<Seat<J>>), AllocError>
        requires trail { IfSome trail (λ trail. trail ≡ J.trail) }
        ensures world { IfOk result (λ r. world_state r.0.world ≡ first_world shape) }
        ensures entries { IfOk result (λ r. r.0.entries ≡ []) }
        ensures count { IfOk result (λ r. length r.1.items ≡ shape.nodes + shape.files) }
        ensures seats { IfOk result (λ r. (k : ℕ) (s : SeatFields) → slice_get r.1.items k ≡ Some s → IsFirstSeat shape k s × IsSeatOf r.0 s) }
    {
        let run = Run::new(alloc, shape)?;
        let mut seats = node_seats(alloc, shape)?;
        push_servers(alloc, shape, &mut seats)?;
        let trail = match trail {
            Some(trail) => Some(trail.named()),
            None => None,
        };
        let spots = LastSpots::new(alloc, trail, shape.files())?;
        Ok((Book { run, spots }, seats))
    }

    /// The number of entries of the journal, at most 1,048,576. The entries are a run, which leads to the book's
    /// copies.
    pub fn len(&self) -> u32
        ensures value { result ≡ length self.now.entries }
        ensures within { result ≤ journal_limit }
        ensures leads { Leads (first_world self.now.world.shape) self.now.entries (world_state self.now.world) }
    {
        let _ = self.run.world(); // tells the proof that the entries lead to the world
        self.run.len()
    }

    /// The entries of the journal. They are a run.
    pub fn entries(&self) -> &[Entry]
        ensures { result.now ≡ self.now.entries }
    {
        self.run.entries()
    }

    /// Commits the step that was prepared from the seat: it is the next of the run, its entry comes last, and the
    /// seat's state and the book's copy become the step's. Commits from other seats since then don't hinder it.
    /// `seen` marks the last entry that the actor has seen, if any. Nothing is planned here: the book keeps the seat's
    /// copy, with the step made, and the seat gets the book's, which is behind until `Seat::catch_up`.
    ///
    /// # Errors
    /// In this order: `JournalFull` where the journal has 1,048,576 entries; `Stale` where the step names another
    /// actor, incarnation or number of commits than the seat has; `Stranger` where the event names what the cluster
    /// doesn't have, a message that was never sent, or an incarnation that wasn't declared; `Fenced` where the seat's
    /// incarnation, or epoch, was declared failed; `Stale` where the seat's state isn't the book's copy, or `seen` is
    /// past the last entry; `NoMemory` where a request for memory was refused. The book and the seat are then as they
    /// were.
    pub fn commit(
        &mut self,
        alloc: Global,
        seat: &mut Seat<J>,
        prepared: Prepared,
        seen: Option<&Mark>,
    ) -> Result<Stamp, CommitError>
        requires { Names prepared seat.old → IsStepFrom seat.old prepared }
        ensures outcome { MatchResult result (λ t. Commits self.old seat.old prepared (seen_at (option_copied seen.entry)) self.new seat.new t) (λ e. Refuses self.old seat.old prepared (seen_at (option_copied seen.entry)) e) }
        ensures unchanged { OnErr result ((self.new ≡ self.old) × (seat.new ≡ seat.old)) }
    {
        let seen = seen_of(seen);
        accepts(&self.run, &self.spots, seat, &prepared, seen)?;
        let parts = prepared.into_parts();
        let _ = self.run.len(); // tells the proof that the world counts the entries
        seat.step_in(alloc, &mut self.run, parts.step, parts.owed)
            .map_err(|_| CommitError::NoMemory)?;
        let spot = self.spots.note(seat.standing());
        seat.stand_at(spot);
        Ok(Stamp::new(self.run.len(), parts.told, parts.answer, seen))
    }

    /// Declares the node failed: from here on each commit of its incarnation is refused.
    ///
    /// # Errors
    /// In this order: `JournalFull` where the journal has 1,048,576 entries; `Stranger` where there is no such node;
    /// `NotAlive` where it was declared; `NoMemory` where a request for memory was refused. The book is then as it
    /// was.
    pub fn declare(&mut self, alloc: Global, node: u8) -> Result<Stamp, Refused>
        ensures ok { IfOk result (λ t. Declared self.old node self.new t) }
        ensures err { IfErr result (λ e. e ≢ Refused.NoMemory → kept_next (world_state self.old.world) (Member (Declare node)) ≡ Err e) }
        ensures refused { (e : Refused) → kept_next (world_state self.old.world) (Member (Declare node)) ≡ Err e → result ≡ Err e }
        ensures unchanged { OnErr result (self.new ≡ self.old) }
    {
        let event = MemberEvent::Declare { node };
        self.run.take(alloc, Event::Member(event))?;
        self.spots.forget(Actor::Node(node));
        let outcome = Outcome::sending(Sends::nothing());
        let position = self.run.len();
        Ok(Stamp::new(position, Event::Member(event), outcome, 0))
    }

    /// Restarts the node, which was declared failed: it begins again, empty, in its next incarnation. Gives the seat
    /// of that incarnation.
    ///
    /// # Errors
    /// In this order: `JournalFull` where the journal has 1,048,576 entries; `Stranger` where there is no such node;
    /// `NotDead` where it is alive; `TooManyRestarts` where it had 65,535 incarnations; `NoMemory` where a request
    /// for memory was refused. The book is then as it was.
    pub fn restart(&mut self, alloc: Global, node: u8) -> Result<Seat<J>, Refused>
        ensures ok { IfOk result (λ s. Restarted self.old node self.new s) }
        ensures err { IfErr result (λ e. e ≢ Refused.NoMemory → kept_next (world_state self.old.world) (Member (Restart node)) ≡ Err e) }
        ensures refused { (e : Refused) → kept_next (world_state self.old.world) (Member (Restart node)) ≡ Err e → result ≡ Err e }
        ensures unchanged { OnErr result (self.new ≡ self.old) }
    {
        let begun = self.run.restart(alloc, node)?;
        self.spots.forget(Actor::Node(node));
        Ok(Seat::new(State::OfNode {
            number: node,
            node: begun,
        }))
    }

    /// Declares the token server of the file failed: from here on each commit of its epoch is refused.
    ///
    /// # Errors
    /// In this order: `JournalFull` where the journal has 1,048,576 entries; `Stranger` where there is no such file,
    /// or servers of a cluster of that version don't fail; `NotAlive` where it was declared; `NoMemory` where a
    /// request for memory was refused. The book is then as it was.
    pub fn fail_server(&mut self, alloc: Global, file: u16) -> Result<Stamp, Refused>
        ensures ok { IfOk result (λ t. Failed self.old file self.new t) }
        ensures err { IfErr result (λ e. e ≢ Refused.NoMemory → kept_next (world_state self.old.world) (Member (FailServer file)) ≡ Err e) }
        ensures refused { (e : Refused) → kept_next (world_state self.old.world) (Member (FailServer file)) ≡ Err e → result ≡ Err e }
        ensures unchanged { OnErr result (self.new ≡ self.old) }
    {
        let event = MemberEvent::FailServer { file };
        self.run.take(alloc, Event::Member(event))?;
        self.spots.forget(Actor::Server(file));
        let outcome = Outcome::sending(Sends::nothing());
        let position = self.run.len();
        Ok(Stamp::new(position, Event::Member(event), outcome, 0))
    }

    /// Starts the token server of the file again, which was declared failed: it is rebuilt in its next epoch. Gives
    /// the seat of that epoch, and a stamp with the messages in which the server asks the nodes for their tokens.
    ///
    /// # Errors
    /// In this order: `JournalFull` where the journal has 1,048,576 entries; `Stranger` as at `fail_server`;
    /// `NotDead` where it works; `TooManyRestarts` where it had 65,535 epochs; `NoMemory` where a request for memory
    /// was refused. The book is then as it was.
    pub fn start_server(&mut self, alloc: Global, file: u16) -> Result<(Seat<J>, Stamp), Refused>
        ensures ok { IfOk result (λ r. Started self.old file self.new r.0 r.1) }
        ensures err { IfErr result (λ e. e ≢ Refused.NoMemory → kept_next (world_state self.old.world) (Member (StartServer file)) ≡ Err e) }
        ensures refused { (e : Refused) → kept_next (world_state self.old.world) (Member (StartServer file)) ≡ Err e → result ≡ Err e }
        ensures unchanged { OnErr result (self.new ≡ self.old) }
    {
        let (begun, asks) = self.run.start(alloc, file)?;
        self.spots.forget(Actor::Server(file));
        let position = self.run.len();
        let event = Event::Member(MemberEvent::StartServer { file });
        let stamp = Stamp::new(position, event, asks, 0);
        let state = State::OfServer {
            file,
            server: begun,
        };
        Ok((Seat::new(state), stamp))
    }

    /// Whether the journal has the receipt's call and reply at its positions. It has those of each receipt made of
    /// two stamps of this book.
    pub fn confirm(&self, receipt: &Receipt) -> bool
        ensures exact { MatchBool result (Holds self.now.entries receipt.now) (Holds self.now.entries receipt.now → ⊥) }
        ensures made { (call reply : StampFields) → IsStampOf self.now.entries call → IsStampOf self.now.entries reply → IsReceiptOf call reply receipt.now → result ≡ true }
    {
        holds(self.run.entries(), receipt)
    }

    /// The journal, and the world at its end. The journal is a run, so it has one history. The world, which consists
    /// of the actors' copies, is safe.
    pub fn into_journal(self) -> (Journal, World)
        ensures value { result.0 ≡ journal_of self }
        ensures leads { Leads (first_world result.0.shape) result.0.entries (world_state result.1) }
        ensures one_table { HasOneHistory result.0.shape result.0.entries }
        ensures safe { IsSafe (world_state result.1) }
    {
        self.run.into_journal()
    }
}
