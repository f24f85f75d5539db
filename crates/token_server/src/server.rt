//! The token server of one file, and its rule: what it does at each event.
ghost use Rattle.std.specs.Prelude.{◌≡◌, ◌≢◌, ◌-◌, ◌<◌, ◌≤◌, ◌↔◌, false, ◌||◌, IsTrue, IfOk, IfErr, None, Ok, Err};
ghost use Rattle.model.specs.rule.Limits.{IsNumber};
ghost use Rattle.messages.specs.rule.Messages.{sending};
ghost use Rattle.messages.specs.rule.Members.{members_state};
ghost use Rattle.token_server.specs.rule.State.{first_server, rebuilt, awaits};
ghost use Rattle.token_server.specs.code.Edits.{commands_told, dropped, planned, Fits};
ghost use Rattle.token_server.specs.rule.Resends.{outstanding};
ghost use Rattle.token_server.specs.rule.Server.{server_rule};
ghost use Rattle.token_server.specs.rule.Parts.{server_state};

use crate::change::{ServerChange, ServerEdit};
use crate::event::ServerEvent;
use crate::known_nodes::known_nodes::KnownNodes;
use crate::moves::{leave, move_requests};
use crate::sent_command::SentCommand;
use crate::token_queue::active::Active;
use crate::token_queue::line::Line;
use messages::{FileNumber, Members, Outcome, Sends, Shape, StepError};
use std::alloc::{AllocError, Global};
use std::marker::Model;

mod admitting;
mod cuts;
mod deliveries;
mod drafts;
mod obstacles;
mod plans;
mod readers;
mod serving;

/// The token server of one file: a row for each node, the active requests, of which no two need a byte in common, the
/// queued requests in order, and the waiting requests, which wait for a lock of another node to go. A rebuilt server
/// serves none before each node that is alive has reported its token, or is known to be dead.
#[derive(Drop)]
pub struct Server {
    shape: Shape,
    file: FileNumber,
    // The epoch, from 1: a server that was rebuilt is in a later one.
    epoch: u16,
    known_nodes: KnownNodes,
    active: Active,
    queue: Line,
    waiting: Line,
    // Whether a node was asked for its token and has not reported it.
    awaits: bool,
}

impl Model for Server {
    ghost use Rattle.token_server.specs.rule.Parts.{ServerParts};
    ghost use Rattle.token_server.specs.code.Edits.{IsServer};

    ghost Value = { ServerParts };

    ghost view = { λ s. record { shape = s.shape; file = s.file; epoch = s.epoch; known_nodes = s.known_nodes; active = s.active; queue = s.queue; waiting = s.waiting } };

    ghost invariant = { λ s. IsServer (record { shape = s.shape; file = s.file; epoch = s.epoch; known_nodes = s.known_nodes; active = s.active; queue = s.queue; waiting = s.waiting }) s.awaits };
}

impl Server {
    /// The first server of a file of the shape, in epoch 1: no node has asked it for anything.
    ///
    /// # Errors
    /// `AllocError` where a request for memory was refused.
    pub fn new(alloc: Global, shape: Shape, file: u16) -> Result<Server, AllocError>
        requires { IsNumber shape.files file }
        ensures { IfOk result (λ server. server_state server ≡ first_server shape file) }
    {
        let _ = shape.files(); // tells the proof how many files there may be
        Ok(Server {
            shape,
            file: FileNumber::of(file),
            epoch: 1,
            known_nodes: KnownNodes::new(alloc, shape.nodes())?,
            active: Active::new(alloc),
            queue: Line::new(alloc),
            waiting: Line::new(alloc),
            awaits: false,
        })
    }

    /// The server of a file of the shape that is rebuilt after a failure, in that epoch, 2 to 65,535, from the
    /// members of the cluster. It knows the incarnations that were declared failed to be dead, and sends each node
    /// that is alive a Hello. Those messages come with it, by rising node.
    ///
    /// # Errors
    /// `AllocError` where a request for memory was refused.
    pub fn rebuild(
        alloc: Global,
        shape: Shape,
        file: u16,
        epoch: u16,
        members: &Members,
    ) -> Result<(Server, Outcome), AllocError>
        requires file_in { IsNumber shape.files file }
        requires later { 2 ≤ epoch }
        requires of_shape { (members_state members.now.nodes).nodes ≡ shape.nodes }
        ensures state { let nodes = members_state members.now.nodes in IfOk result (λ r. server_state r.0 ≡ rebuilt shape file epoch nodes.alive nodes.incarnation) }
        ensures outcome { let nodes = members_state members.now.nodes in IfOk result (λ r. r.1 ≡ sending (outstanding (rebuilt shape file epoch nodes.alive nodes.incarnation))) }
    {
        let _ = shape.files(); // tells the proof how many files there may be
        let file = FileNumber::of(file);
        let known_nodes = KnownNodes::rebuilt(alloc, shape, file, epoch, members)?;
        let hellos = known_nodes.outstanding(alloc)?;
        let awaits = known_nodes.awaits(&None, shape.nodes());
        let server = Server {
            shape,
            file,
            epoch,
            known_nodes,
            active: Active::new(alloc),
            queue: Line::new(alloc),
            waiting: Line::new(alloc),
            awaits,
        };
        Ok((server, Outcome::sending(hellos)))
    }

    /// A copy, equal to this server.
    ///
    /// # Errors
    /// `AllocError` where a request for memory was refused.
    pub fn copy(&self) -> Result<Server, AllocError>
        ensures { IfOk result (λ copy. copy ≡ self.now) }
    {
        Ok(Server {
            shape: self.shape,
            file: self.file,
            epoch: self.epoch,
            known_nodes: self.known_nodes.copy()?,
            active: self.active.copy()?,
            queue: self.queue.copy()?,
            waiting: self.waiting.copy()?,
            awaits: self.awaits,
        })
    }

    /// Whether both servers are equal: file, shape, epoch, rows, dead incarnations, and all requests with their
    /// order.
    pub fn same(&self, other: &Server) -> bool
        ensures { IsTrue result ↔ (server_state self.now ≡ server_state other.now) }
    {
        if self.shape != other.shape || self.file.get() != other.file.get() {
            return false;
        }
        if self.epoch != other.epoch || !self.queue.same(&other.queue) {
            return false;
        }
        if !self.active.same(&other.active) || !self.waiting.same(&other.waiting) {
            return false;
        }
        self.known_nodes.same(&other.known_nodes)
    }

    /// The epoch of the server: 1 until it was rebuilt.
    pub fn epoch(&self) -> u16
        ensures value { result ≡ (server_state self.now).epoch }
        ensures from_one { 1 ≤ result }
    {
        self.epoch
    }

    /// Makes a planned change, which was planned from this server or an equal one. Takes no memory.
    pub fn apply(&mut self, change: ServerChange) -> Outcome
        requires { Fits self.old change.edit }
        ensures state { server_state self.new ≡ planned self.old change.edit }
        ensures outcome { result ≡ change.outcome }
    {
        let ServerChange { edit, outcome } = change;
        let ServerEdit {
            rows,
            awaits,
            gone,
            ats,
            moved,
            fresh,
            given,
            active_spare,
            queue_spare,
            waiting_spare,
        } = Box::into_inner(edit);
        self.awaits = awaits;
        self.known_nodes.apply(rows, given);
        let fresh = fresh.as_slice();
        self.active.refill(active_spare);
        self.active.wait_for(ats.as_slice());
        self.active.forget(gone.dropped);
        self.active.end_one(gone.ended);
        self.active.push_all(fresh);
        self.waiting.refill(waiting_spare);
        self.waiting.forget(gone.dropped);
        self.queue.refill(queue_spare);
        self.queue.forget(gone.dropped);
        move_requests(&mut self.queue, &mut self.waiting, moved, fresh);
        leave(&mut self.queue, fresh);
        outcome
    }

    /// The step of the server at an event: the server after it, and what it sends. Requests that need no byte in
    /// common are active at once; of two that do, the one that came first becomes active first. A request is granted
    /// the largest span around its required bytes, within its desired bytes, that no other active request needs and
    /// no other node's token conflicts with. Where another node's token has some of its required bytes, that token is
    /// revoked first, one node after the other. Where a holder then names a lock that blocks the request, the request
    /// is denied, or, if it may wait, put off until the holder reports that locks may be gone. An answer counts once,
    /// and only where the command with its number is outstanding and of its kind. A rebuilt server serves none before
    /// each node that it asked for its token has reported it, or is known to be dead. (Tokens revoked by required and
    /// desired ranges: Schmuck and Haskin, FAST 2002.)
    ///
    /// # Errors
    /// `Stranger` where a message is not for this server or names a node that the cluster doesn't have,
    /// which is tested first; `Spent` where the next command to a node would need a number past
    /// 4,294,967,295 in the server's epoch; `NoMemory` where a request for memory was refused, which may come before `Spent`.
    pub fn step(&self, alloc: Global, event: &ServerEvent) -> Result<(Server, Outcome), StepError>
        ensures ok { IfOk result (λ r. server_rule (server_state self.now) event.now ≡ Ok (server_state r.0, r.1)) }
        ensures err { IfErr result (λ e. e ≢ StepError.NoMemory → server_rule (server_state self.now) event.now ≡ Err e) }

        // Every refusal but `Spent` always comes: it is decided before memory is taken.
        ensures refused { (r : StepError) → r ≢ StepError.Spent → server_rule (server_state self.now) event.now ≡ Err r → result ≡ Err r }
    {
        let change = self.plan(alloc, event)?;
        let mut next = self.copy()?;
        let outcome = next.apply(change);
        Ok((next, outcome))
    }
}

// The commands as messages, in order.
fn commands_told(alloc: Global, told: &[SentCommand]) -> Result<Sends, AllocError>
    ensures { IfOk result (λ commands. commands ≡ commands_told told.now) }
{
    let mut commands = Sends::nothing();
    for next in told {
        commands.push(alloc, next.command.message())?;
    }
    Ok(commands)
}
