//! The events of the actor at the seat of a token server.
ghost use Rattle.std.specs.Prelude.{◌≡◌, ◌≢◌, Ok, Err, IfOk, IfErr};
ghost use Rattle.messages.specs.declared.refusal.Refused.{Refused};
ghost use Rattle.messages.specs.declared.refusal.Refused.TheVariants.{NoMemory, Spent};
ghost use Rattle.messages.specs.declared.event.Event.TheVariants as event;
ghost use Rattle.messages.specs.declared.event.MemberEvent.TheVariants as change;
ghost use Rattle.seats.specs.declared.order.Order.TheVariants.{Happens, Tick};
ghost use Rattle.seats.specs.rule.ServerSeats.{begun_at, server_member_rule, server_told};
ghost use Rattle.seats.specs.rule.Parts.{server_seat};

use super::{ServerSeat, happen_at, hear_of, rebuild, tick_at};
use crate::seat_step::{SeatStep, silent};
use messages::{Event, Items, MemberEvent, Pace, Refused};
use std::alloc::Global;

impl ServerSeat {
    // The event happens at the server.
    pub(super) fn happen(&mut self, alloc: Global, event: Event) -> Result<Items<SeatStep>, Refused>
        ensures ok { IfOk result (λ steps. server_told (server_seat self.old) (server_seat self.old).state (Happens event) ≡ Ok (server_seat self.new, steps)) }
        ensures err { IfErr result (λ e. e ≢ NoMemory → server_told (server_seat self.old) (server_seat self.old).state (Happens event) ≡ Err e) }
        ensures refused { (e : Refused) → e ≢ Spent → server_told (server_seat self.old) (server_seat self.old).state (Happens event) ≡ Err e → result ≡ Err e }
        ensures unchanged { IfErr result (λ e. e ≢ NoMemory → self.new ≡ self.old) }
    {
        let pace = self.pace.noted(&event);
        match &mut self.state {
            Some(state) => {
                let steps = happen_at(alloc, self.file, &self.members, state, event)?;
                self.pace = pace;
                Ok(steps)
            }
            None => Err(Refused::Fenced),
        }
    }

    // A tick goes by.
    pub(super) fn tick(&mut self, alloc: Global) -> Result<Items<SeatStep>, Refused>
        ensures ok { IfOk result (λ steps. server_told (server_seat self.old) (server_seat self.old).state Tick ≡ Ok (server_seat self.new, steps)) }
        ensures err { IfErr result (λ e. e ≢ NoMemory → server_told (server_seat self.old) (server_seat self.old).state Tick ≡ Err e) }
        ensures refused { (e : Refused) → e ≢ Spent → server_told (server_seat self.old) (server_seat self.old).state Tick ≡ Err e → result ≡ Err e }
        ensures unchanged { IfErr result (λ e. e ≢ NoMemory → self.new ≡ self.old) }
    {
        match &mut self.state {
            Some(state) => {
                let (pace, steps) = tick_at(alloc, self.file, state, self.pace)?;
                self.pace = pace;
                Ok(steps)
            }
            None => Err(Refused::Fenced),
        }
    }

    // A member changes.
    pub(super) fn change(
        &mut self,
        alloc: Global,
        change: MemberEvent,
    ) -> Result<Items<SeatStep>, Refused>
        ensures ok { IfOk result (λ steps. server_member_rule (server_seat self.old) change ≡ Ok (server_seat self.new, steps)) }
        ensures err { IfErr result (λ e. e ≢ NoMemory → server_member_rule (server_seat self.old) change ≡ Err e) }
        ensures refused { (e : Refused) → e ≢ Spent → server_member_rule (server_seat self.old) change ≡ Err e → result ≡ Err e }
        ensures unchanged { IfErr result (λ e. e ≢ NoMemory → self.new ≡ self.old) }
    {
        match change {
            MemberEvent::Declare { node } => self.declare(alloc, node),
            MemberEvent::Restart { node } => {
                let incarnation = self.members.restart(node)?;
                Ok(silent(alloc, change, incarnation)?)
            }
            MemberEvent::FailServer { file } => self.fail(alloc, file),
            MemberEvent::StartServer { file } => self.start(alloc, file),
        }
    }

    // A node is declared failed: a server that works learns of it.
    pub(super) fn declare(&mut self, alloc: Global, node: u8) -> Result<Items<SeatStep>, Refused>
        ensures ok { IfOk result (λ steps. server_member_rule (server_seat self.old) (change.Declare node) ≡ Ok (server_seat self.new, steps)) }
        ensures err { IfErr result (λ e. e ≢ NoMemory → server_member_rule (server_seat self.old) (change.Declare node) ≡ Err e) }
        ensures refused { (e : Refused) → e ≢ Spent → server_member_rule (server_seat self.old) (change.Declare node) ≡ Err e → result ≡ Err e }
        ensures unchanged { IfErr result (λ e. e ≢ NoMemory → self.new ≡ self.old) }
    {
        match &mut self.state {
            Some(state) => {
                let steps = hear_of(alloc, self.file, &mut self.members, state, node)?;
                let declared = Event::Member(MemberEvent::Declare { node });
                self.pace = self.pace.noted(&declared);
                Ok(steps)
            }
            None => {
                let incarnation = self.members.declare(node)?;
                Ok(silent(alloc, MemberEvent::Declare { node }, incarnation)?)
            }
        }
    }

    // A server is declared failed: the seat's own stops.
    fn fail(&mut self, alloc: Global, file: u16) -> Result<Items<SeatStep>, Refused>
        ensures ok { IfOk result (λ steps. server_member_rule (server_seat self.old) (change.FailServer file) ≡ Ok (server_seat self.new, steps)) }
        ensures err { IfErr result (λ e. e ≢ NoMemory → server_member_rule (server_seat self.old) (change.FailServer file) ≡ Err e) }
        ensures refused { (e : Refused) → e ≢ Spent → server_member_rule (server_seat self.old) (change.FailServer file) ≡ Err e → result ≡ Err e }
        ensures unchanged { IfErr result (λ e. e ≢ NoMemory → self.new ≡ self.old) }
    {
        let epoch = self.members.fail_server(file)?;
        if file == self.file {
            self.state = None;
            self.pace = Pace::at_rest();
        }
        Ok(silent(alloc, MemberEvent::FailServer { file }, epoch)?)
    }

    // A server begins again: the seat's own is rebuilt.
    fn start(&mut self, alloc: Global, file: u16) -> Result<Items<SeatStep>, Refused>
        ensures ok { IfOk result (λ steps. server_member_rule (server_seat self.old) (change.StartServer file) ≡ Ok (server_seat self.new, steps)) }
        ensures err { IfErr result (λ e. e ≢ NoMemory → server_member_rule (server_seat self.old) (change.StartServer file) ≡ Err e) }
        ensures refused { (e : Refused) → e ≢ Spent → server_member_rule (server_seat self.old) (change.StartServer file) ≡ Err e → result ≡ Err e }
        ensures unchanged { IfErr result (λ e. e ≢ NoMemory → self.new ≡ self.old) }
    {
        if file == self.file && self.left == 0 {
            return self.begin(alloc);
        }
        let epoch = self.members.start_server(file)?;
        if file == self.file {
            self.left -= 1;
        }
        Ok(silent(alloc, MemberEvent::StartServer { file }, epoch)?)
    }

    // The seat's own server begins again.
    fn begin(&mut self, alloc: Global) -> Result<Items<SeatStep>, Refused>
        ensures ok { IfOk result (λ steps. begun_at (server_seat self.old) ≡ Ok (server_seat self.new, steps)) }
        ensures err { IfErr result (λ e. e ≢ NoMemory → begun_at (server_seat self.old) ≡ Err e) }
        ensures refused { (e : Refused) → e ≢ Spent → begun_at (server_seat self.old) ≡ Err e → result ≡ Err e }
        ensures unchanged { IfErr result (λ e. e ≢ NoMemory → self.new ≡ self.old) }
    {
        let (server, steps) = rebuild(alloc, self.shape, self.file, &mut self.members)?;
        self.state = Some(server);
        self.pace = Pace::begun();
        Ok(steps)
    }
}
