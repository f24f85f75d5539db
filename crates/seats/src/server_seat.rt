//! The seat of a token server.
ghost use Rattle.std.specs.Prelude.{◌≡◌, ◌≢◌, Ok, Err, IfOk, IfErr, length};
ghost use Rattle.model.specs.rule.Limits.{IsNumber};
ghost use Rattle.messages.specs.declared.refusal.Refused.{Refused};
ghost use Rattle.messages.specs.declared.refusal.Refused.TheVariants.{NoMemory, Spent};
ghost use Rattle.messages.specs.declared.event.Event.TheVariants as event;
ghost use Rattle.messages.specs.declared.event.MemberEvent.TheVariants as change;
ghost use Rattle.messages.specs.declared.event.ServerInput.TheVariants as order;
ghost use Rattle.messages.specs.rule.Members.{declared_failed, restarted, with_declared, members_state};
ghost use Rattle.token_server.specs.declared.event.ServerEvent.TheVariants as own;
ghost use Rattle.token_server.specs.rule.Parts.{server_state};
ghost use Rattle.token_server.specs.rule.Server.{server_rule};
ghost use Rattle.seats.specs.declared.order.Order.TheVariants.{Happens, Tick};
ghost use Rattle.seats.specs.rule.ServerSeats.{begins, first_server_seat, hears_of, later_server_seat, server_seat_rule, server_takes, server_ticked};
ghost use Rattle.seats.specs.rule.Parts.{server_seat};
ghost use Rattle.seats.specs.rule.Steps.{stepped};

use crate::begun::has_begun;
use crate::order::Order;
use crate::seat_step::{SeatStep, one, silent};
use messages::{
    Event, Items, MemberEvent, Members, Pace, Refused, ServerInput, Shape, SharedMessage,
};
use std::alloc::{AllocError, Global};
use std::marker::Model;
use token_server::{Server, ServerEvent};

mod events;

/// The token server of a file, while it works, when it sends again, and which nodes and servers are alive, as it was told.
#[derive(Drop)]
pub struct ServerSeat {
    shape: Shape,
    members: Members,
    file: u16,
    left: u16,
    state: Option<Server>,
    pace: Pace,
}

impl Model for ServerSeat {
    ghost use Rattle.seats.specs.rule.Parts.{IsServerSeat, ServerSeatParts};

    ghost Value = { ServerSeatParts };

    ghost view = { λ s. record { shape = s.shape; members = s.members; file = s.file; left = s.left; state = s.state; pace = s.pace } };

    ghost invariant = { λ s. IsServerSeat (record { shape = s.shape; members = s.members; file = s.file; left = s.left; state = s.state; pace = s.pace }) };
}

impl ServerSeat {
    /// The seat of a server that works from the beginning on.
    ///
    /// # Errors
    /// `AllocError` where a request for memory was refused.
    pub fn new(alloc: Global, shape: Shape, file: u16) -> Result<ServerSeat, AllocError>
        requires { IsNumber shape.files file }
        ensures { IfOk result (λ seat. server_seat seat ≡ first_server_seat shape file) }
    {
        Ok(ServerSeat {
            shape,
            members: Members::new(alloc, shape)?,
            file,
            left: 0,
            state: Some(Server::new(alloc, shape, file)?),
            pace: Pace::at_rest(),
        })
    }

    /// The seat of a server that begins again later, behind `left` beginnings that other seats of it had: it is to be told of
    /// all that happened to members.
    ///
    /// # Errors
    /// `AllocError` where a request for memory was refused.
    pub fn again(
        alloc: Global,
        shape: Shape,
        file: u16,
        left: u16,
    ) -> Result<ServerSeat, AllocError>
        requires { IsNumber shape.files file }
        ensures { IfOk result (λ seat. server_seat seat ≡ later_server_seat shape file left) }
    {
        Ok(ServerSeat {
            shape,
            members: Members::new(alloc, shape)?,
            file,
            left,
            state: None,
            pace: Pace::at_rest(),
        })
    }

    /// Does what it is told. What comes of it is just what the rule says.
    ///
    /// # Errors
    /// `Fenced` where the server does not work, but for a change of a member; `Stranger` where the event is not the
    /// server's, or a message names an incarnation to come; those of its step, or of the change; `NoMemory` where a request
    /// for memory was refused: what the seat is then is not said. It is as it was after any other.
    pub fn obey(&mut self, alloc: Global, order: Order) -> Result<Items<SeatStep>, Refused>
        ensures ok { IfOk result (λ steps. server_seat_rule (server_seat self.old) order ≡ Ok (server_seat self.new, steps)) }
        ensures err { IfErr result (λ e. e ≢ NoMemory → server_seat_rule (server_seat self.old) order ≡ Err e) }

        // Every refusal but `Spent` always comes: it is decided before memory is taken.
        ensures refused { (e : Refused) → e ≢ Spent → server_seat_rule (server_seat self.old) order ≡ Err e → result ≡ Err e }
        ensures unchanged { IfErr result (λ e. e ≢ NoMemory → self.new ≡ self.old) }
    {
        match order {
            Order::Happens(Event::Member(change)) => self.change(alloc, change),
            Order::Happens(event) => self.happen(alloc, event),
            Order::Tick => self.tick(alloc),
        }
    }
}

// Rebuilds the server of the file from the nodes that are alive.
fn rebuild(
    alloc: Global,
    shape: Shape,
    file: u16,
    members: &mut Members,
) -> Result<(Server, Items<SeatStep>), Refused>
    requires file_in { IsNumber shape.files file }
    requires of_shape { length members.old.nodes ≡ shape.nodes }
    ensures ok { IfOk result (λ r. begins shape file (members_state members.old.nodes) (restarted (members_state members.old.servers) file) ≡ Ok (members_state members.new.servers, (server_state r.0, r.1))) }
    ensures others { members.new.nodes ≡ members.old.nodes }
    ensures err { IfErr result (λ e. e ≢ NoMemory → begins shape file (members_state members.old.nodes) (restarted (members_state members.old.servers) file) ≡ Err e) }
    ensures refused { (e : Refused) → e ≢ Spent → begins shape file (members_state members.old.nodes) (restarted (members_state members.old.servers) file) ≡ Err e → result ≡ Err e }
    ensures unchanged { IfErr result (λ e. e ≢ NoMemory → members.new ≡ members.old) }
{
    let epoch = members.next_epoch(file)?;
    let (server, outcome) = Server::rebuild(alloc, shape, file, epoch, members)?;
    members.start_server(file)?;
    let started = Event::Member(MemberEvent::StartServer { file });
    Ok((server, one(alloc, started, epoch, outcome)?))
}

// A step of the server of the file at the event, if that is its own.
fn happen_at(
    alloc: Global,
    file: u16,
    members: &Members,
    state: &mut Server,
    event: Event,
) -> Result<Items<SeatStep>, Refused>
    ensures ok { IfOk result (λ steps. server_takes file (members_state members.now.nodes) (server_state state.old) event ≡ Ok (server_state state.new, steps)) }
    ensures err { IfErr result (λ e. e ≢ NoMemory → server_takes file (members_state members.now.nodes) (server_state state.old) event ≡ Err e) }
    ensures refused { (e : Refused) → e ≢ Spent → server_takes file (members_state members.now.nodes) (server_state state.old) event ≡ Err e → result ≡ Err e }
    ensures unchanged { IfErr result (λ e. e ≢ NoMemory → state.new ≡ state.old) }
{
    match event {
        Event::AtServer(other, ServerInput::Resend) if other == file => resend(alloc, file, state),
        Event::Deliver(message) if has_begun(members, message.get().host()) => {
            deliver(alloc, state, message)
        }
        _ => Err(Refused::Stranger),
    }
}

// The server sends again what has no answer.
#[tactic(auto, using(crate::proofs::StepLaws::stepped_on, crate::proofs::StepLaws::stepped_not))]
fn resend(alloc: Global, file: u16, state: &mut Server) -> Result<Items<SeatStep>, Refused>
    ensures ok { IfOk result (λ steps. stepped (event.AtServer file order.Resend) 0 (server_rule (server_state state.old) (own.Input order.Resend)) ≡ Ok (server_state state.new, steps)) }
    ensures err { IfErr result (λ e. e ≢ NoMemory → stepped (event.AtServer file order.Resend) 0 (server_rule (server_state state.old) (own.Input order.Resend)) ≡ Err e) }
    ensures refused { (e : Refused) → e ≢ Spent → stepped (event.AtServer file order.Resend) 0 (server_rule (server_state state.old) (own.Input order.Resend)) ≡ Err e → result ≡ Err e }
    ensures unchanged { IfErr result (λ e. e ≢ NoMemory → state.new ≡ state.old) }
{
    let change = state.plan(alloc, &ServerEvent::Input(ServerInput::Resend))?;
    let outcome = state.apply(change);
    Ok(one(
        alloc,
        Event::AtServer(file, ServerInput::Resend),
        0,
        outcome,
    )?)
}

// The message comes to the server.
#[tactic(auto, using(crate::proofs::StepLaws::stepped_on, crate::proofs::StepLaws::stepped_not))]
fn deliver(
    alloc: Global,
    state: &mut Server,
    message: SharedMessage,
) -> Result<Items<SeatStep>, Refused>
    ensures ok { IfOk result (λ steps. stepped (event.Deliver message) 0 (server_rule (server_state state.old) (own.Deliver message)) ≡ Ok (server_state state.new, steps)) }
    ensures err { IfErr result (λ e. e ≢ NoMemory → stepped (event.Deliver message) 0 (server_rule (server_state state.old) (own.Deliver message)) ≡ Err e) }
    ensures refused { (e : Refused) → e ≢ Spent → stepped (event.Deliver message) 0 (server_rule (server_state state.old) (own.Deliver message)) ≡ Err e → result ≡ Err e }
    ensures unchanged { IfErr result (λ e. e ≢ NoMemory → state.new ≡ state.old) }
{
    let change = state.plan_delivery(alloc, message.get())?;
    let outcome = state.apply(change);
    Ok(one(alloc, Event::Deliver(message), 0, outcome)?)
}

// What a tick brings: the pace then, and a resend if it is due and sends something.
fn tick_at(
    alloc: Global,
    file: u16,
    state: &mut Server,
    pace: Pace,
) -> Result<(Pace, Items<SeatStep>), Refused>
    ensures ok { IfOk result (λ r. server_ticked file pace (server_state state.old) ≡ Ok (server_state state.new, r)) }
    ensures err { IfErr result (λ e. e ≢ NoMemory → server_ticked file pace (server_state state.old) ≡ Err e) }
    ensures refused { (e : Refused) → e ≢ Spent → server_ticked file pace (server_state state.old) ≡ Err e → result ≡ Err e }
    ensures unchanged { IfErr result (λ e. e ≢ NoMemory → state.new ≡ state.old) }
{
    if !pace.is_due() {
        return Ok((pace.passed(), Items::new(alloc)));
    }
    let change = state.plan(alloc, &ServerEvent::Input(ServerInput::Resend))?;
    if change.outcome.sends.is_empty() {
        return Ok((Pace::at_rest(), Items::new(alloc)));
    }
    let outcome = state.apply(change);
    let steps = one(
        alloc,
        Event::AtServer(file, ServerInput::Resend),
        0,
        outcome,
    )?;
    Ok((pace.passed(), steps))
}

// The live incarnation of the node, which may be declared failed; or why it may not.
fn live(members: &Members, node: u8) -> Result<u16, Refused>
    ensures ok { IfOk result (λ incarnation. declared_failed (members_state members.now.nodes) node ≡ Ok (with_declared (members_state members.now.nodes) node, incarnation)) }
    ensures err { IfErr result (λ e. declared_failed (members_state members.now.nodes) node ≡ Err e) }
{
    match members.alive(node) {
        Some(incarnation) => Ok(incarnation),
        None => match members.next(node) {
            Err(Refused::Stranger) => Err(Refused::Stranger),
            _ => Err(Refused::NotAlive),
        },
    }
}

// The server hears that the node is declared failed, and learns of it.
fn hear_of(
    alloc: Global,
    file: u16,
    members: &mut Members,
    state: &mut Server,
    node: u8,
) -> Result<Items<SeatStep>, Refused>
    ensures ok { IfOk result (λ steps. hears_of file node (server_state state.old) (declared_failed (members_state members.old.nodes) node) ≡ Ok (members_state members.new.nodes, (server_state state.new, steps))) }
    ensures others { members.new.servers ≡ members.old.servers }
    ensures as_many { length members.new.nodes ≡ length members.old.nodes }
    ensures err { IfErr result (λ e. e ≢ NoMemory → hears_of file node (server_state state.old) (declared_failed (members_state members.old.nodes) node) ≡ Err e) }
    ensures refused { (e : Refused) → e ≢ Spent → hears_of file node (server_state state.old) (declared_failed (members_state members.old.nodes) node) ≡ Err e → result ≡ Err e }
    ensures unchanged { IfErr result (λ e. e ≢ NoMemory → (members.new ≡ members.old) × (state.new ≡ state.old)) }
{
    let incarnation = live(members, node)?;
    let learn = ServerInput::Learn { node, incarnation };
    let change = state.plan(alloc, &ServerEvent::Input(learn))?;
    members.declare(node)?;
    let outcome = state.apply(change);
    let mut steps = silent(alloc, MemberEvent::Declare { node }, incarnation)?;
    steps.append(one(alloc, Event::AtServer(file, learn), 0, outcome)?)?;
    Ok(steps)
}
