//! What each message changes of a token server before it serves.
ghost use Rattle.std.specs.Prelude.{◌≡◌, ◌-◌, ◌<◌, true, false, ◌&&◌, ◌||◌, ◌==◌, IfSome, IfOk, MatchOption, [], Option, Some, None, Ok};
ghost use Rattle.std.specs.Option.{option_map, option_to_list};
ghost use Rattle.model.specs.rule.Limits.{IsNumber};
ghost use Rattle.model.specs.rule.Owners.{host_of_call};
ghost use Rattle.messages.specs.rule.Messages.{addressee, host_of, is_within};
ghost use Rattle.token_server.specs.rule.Actives.{requests_of};
ghost use Rattle.token_server.specs.rule.Resends.{outstanding};
ghost use Rattle.token_server.specs.rule.Rows.{revoked_mode};
ghost use Rattle.token_server.specs.rule.Server.{asked, row_of_host, freed, taken, released, in_conflict, heard, delivered, is_server};
ghost use Rattle.token_server.specs.rule.Parts.{server_state};
ghost use Rattle.token_server.specs.code.Edits.{is_answer, moved_for, sketched};

use super::Server;
use crate::known_nodes::commands::before_epoch;
use crate::known_nodes::known_change::KnownChange;
use crate::known_nodes::server_command::ServerCommand;
use crate::sketch::{Moved, Sketch};
use crate::token_queue::token_request::TokenRequest;
use intervals::span::Span;
use messages::{Actor, Blocking, CommandNumber, Message, TokenRuns};
use model::{CallId, Host, LockInfo, Mode};
use std::alloc::{AllocError, Global};

impl Server {
    // If the call is queued or active: nothing. If it waits: that older request goes to the end of the queue. Else
    // this one does.
    fn enqueued(&self, request: TokenRequest) -> Moved
        ensures { result ≡ moved_for request (requests_of self.now.active.held) self.now.queue.requests self.now.waiting.requests }
    {
        let call = request.call;
        if self.active.find(call).is_some() || self.queue.find(call).is_some() {
            return Moved::Nothing;
        }
        match self.waiting.find(call) {
            Some(own) => Moved::Again { call, request: own },
            None => Moved::New(request),
        }
    }

    // Takes a request: incarnations of its node before this one are dead, and the node gets a row if it has none.
    fn ask(&self, request: TokenRequest) -> Sketch
        requires { IsNumber self.now.shape.nodes request.call.node }
        ensures state { sketched self.now result ≡ asked (server_state self.now) request }
        ensures in_cluster { IfSome result.changed (λ c. IsNumber self.now.shape.nodes c.node) }
    {
        let host = request.call.host();
        let moved = self.enqueued(request);
        let begin = before_epoch(self.epoch);
        Sketch::of(host.node, KnownChange::Asked { host, begin }, moved, None)
    }

    // The outstanding command to the holder, if there is one and the node's row is of that incarnation.
    fn command_to(&self, holder: Host) -> Option<ServerCommand>
        ensures { MatchOption (row_of_host (server_state self.now) holder) (result ≡ None) (λ row. result ≡ row.outstanding) }
    {
        self.known_nodes.row_of(holder)?.commands.outstanding
    }

    // The mode that the outstanding command to the holder revokes, if it is the Revoke with that number.
    fn revoked_mode(&self, number: u64, holder: Host) -> Option<Mode>
        ensures { MatchOption (row_of_host (server_state self.now) holder) (result ≡ None) (λ row. result ≡ revoked_mode number row.outstanding) }
    {
        self.command_to(holder)?.revoked_mode(number)
    }

    // Takes Taken, a node's answer to a Grant: the call's request is not active any more. `None` where the answer
    // doesn't count.
    fn on_taken(&self, number: u64, call: CallId) -> Option<Sketch>
        requires { IsNumber self.now.shape.nodes call.node }
        ensures state { taken (server_state self.now) number call (row_of_host (server_state self.now) (host_of_call call)) ≡ option_map (λ k. (sketched self.now k, [])) result }
        ensures in_cluster { IfSome result (λ k. IfSome k.changed (λ c. IsNumber self.now.shape.nodes c.node)) }
    {
        if !self.command_to(call.host())?.is_grant(number) {
            return None;
        }
        let answered = KnownChange::Answered;
        Some(Sketch::of(call.node, answered, Moved::Nothing, Some(call)))
    }

    // Takes Released, a holder's answer that it gave up a span. `None` where the answer doesn't count.
    fn on_released(&self, number: u64, holder: Host, span: Span) -> Option<Sketch>
        requires { IsNumber self.now.shape.nodes holder.node }
        ensures state { released (server_state self.now) number holder span (row_of_host (server_state self.now) holder) ≡ option_map (λ k. (sketched self.now k, [])) result }
        ensures in_cluster { IfSome result (λ k. IfSome k.changed (λ c. IsNumber self.now.shape.nodes c.node)) }
    {
        let mode = self.revoked_mode(number, holder)?;
        let relieved = KnownChange::Relieved { span, mode };
        Some(Sketch::of(holder.node, relieved, Moved::Nothing, None))
    }

    // Takes Conflict, a holder's answer that a lock blocks the request: the call's request is not active any more,
    // and is denied or waits. Gives what is sent too, or `None` where the answer doesn't count.
    fn on_conflict(
        &self,
        number: CommandNumber,
        holder: Host,
        call: CallId,
        lock: LockInfo,
    ) -> Option<(Sketch, Option<Message>)>
        requires { IsNumber self.now.shape.nodes holder.node }
        ensures state { in_conflict (server_state self.now) number holder call lock (row_of_host (server_state self.now) holder) ≡ option_map (λ d. (sketched self.now d.0, option_to_list d.1)) result }
        ensures in_cluster { IfSome result (λ d. IfSome d.0.changed (λ c. IsNumber self.now.shape.nodes c.node)) }
    {
        self.revoked_mode(number.get(), holder)?;
        let own = self.active.find(call);
        let (moved, denial) = match own {
            Some(request) if request.blocking == Blocking::Yes => (Moved::PutOff(request), None),
            Some(_) => {
                let deny = Message::Deny {
                    file: self.file,
                    call,
                    holder,
                    number,
                    lock,
                };
                (Moved::Nothing, Some(deny))
            }
            None => (Moved::Nothing, None),
        };
        let sketch = Sketch::of(holder.node, KnownChange::Answered, moved, Some(call));
        Some((sketch, denial))
    }

    // Takes a Report of the token that a node has, as these runs. `None` where no Hello with that number is
    // outstanding.
    fn on_report(
        &self,
        alloc: Global,
        number: u64,
        holder: Host,
        runs: &TokenRuns,
    ) -> Result<Option<Sketch>, AllocError>
        requires { IsNumber self.now.shape.nodes holder.node }
        ensures state { IfOk result (λ r. heard (server_state self.now) number holder runs.now (row_of_host (server_state self.now) holder) ≡ option_map (λ k. (sketched self.now k, [])) r) }
        ensures in_cluster { IfOk result (λ r. IfSome r (λ k. IfSome k.changed (λ c. IsNumber self.now.shape.nodes c.node))) }
    {
        match self.command_to(holder) {
            Some(command) if command.asks_token(number) => {}
            _ => return Ok(None),
        }
        let reported = KnownChange::Reported {
            runs: runs.copy(alloc)?,
        };
        Ok(Some(Sketch::of(holder.node, reported, Moved::Nothing, None)))
    }

    // Takes Freed: locks of the holder may be gone. If its row is of that incarnation, the waiting requests are
    // queued again.
    fn on_freed(&self, holder: Host) -> Sketch
        ensures state { sketched self.now result ≡ freed (server_state self.now) (row_of_host (server_state self.now) holder) }
        ensures in_cluster { IfSome result.changed (λ c. IsNumber self.now.shape.nodes c.node) }
    {
        match self.known_nodes.row_of(holder) {
            Some(_) => Sketch::moving(Moved::Waiting),
            None => Sketch::moving(Moved::Nothing),
        }
    }

    // What an answer to a command changes before the server serves, and what is sent for it. `None` where the answer
    // doesn't count.
    fn on_answer(&self, message: &Message) -> Option<(Sketch, Option<Message>)>
        requires answer { is_answer message.now ≡ true }
        requires in_cluster { IsNumber self.now.shape.nodes (host_of message.now).node }
        ensures state { delivered (server_state self.now) message.now ≡ option_map (λ d. (sketched self.now d.0, option_to_list d.1)) result }
        ensures in_cluster { IfSome result (λ d. IfSome d.0.changed (λ c. IsNumber self.now.shape.nodes c.node)) }
    {
        match message {
            Message::Taken { number, call, .. } => silent(self.on_taken(number.get(), *call)),
            Message::Released {
                number,
                holder,
                span,
                ..
            } => silent(self.on_released(number.get(), *holder, *span)),
            Message::Conflict {
                number,
                holder,
                call,
                lock,
                ..
            } => self.on_conflict(*number, *holder, *call, *lock),
            _ => unreachable!(),
        }
    }

    // What a message changes before the server serves, and what is sent for it. `None` where it changes nothing.
    pub(super) fn deliver(
        &self,
        alloc: Global,
        message: &Message,
    ) -> Result<Option<(Sketch, Option<Message>)>, AllocError>
        requires { IsNumber self.now.shape.nodes (host_of message.now).node }
        ensures state { IfOk result (λ r. delivered (server_state self.now) message.now ≡ option_map (λ d. (sketched self.now d.0, option_to_list d.1)) r) }
        ensures in_cluster { IfOk result (λ r. IfSome r (λ d. IfSome d.0.changed (λ c. IsNumber self.now.shape.nodes c.node))) }
    {
        match message {
            Message::Request {
                call,
                blocking,
                mode,
                wanted,
                ..
            } => {
                let request = TokenRequest::new(*call, *blocking, *mode, *wanted);
                Ok(silent(Some(self.ask(request))))
            }
            Message::Taken { .. } => Ok(self.on_answer(message)),
            Message::Released { .. } => Ok(self.on_answer(message)),
            Message::Conflict { .. } => Ok(self.on_answer(message)),
            Message::Freed { holder, .. } => Ok(silent(Some(self.on_freed(*holder)))),
            Message::Report {
                number,
                holder,
                runs,
                ..
            } => Ok(silent(self.on_report(alloc, number.get(), *holder, runs)?)),
            _ => Ok(None),
        }
    }

    // Whether the message is for this server and from a node of the cluster.
    pub(super) fn is_addressed_by(&self, message: &Message) -> bool
        ensures { result ≡ (is_server self.now.file (addressee message.now) && is_within self.now.shape.nodes (host_of message.now).node) }
    {
        if message.addressee() != Actor::Server(self.file.get()) {
            return false;
        }
        message.host().node <= self.shape.nodes()
    }
}

// The sketch of an event for which nothing is sent before the server serves.
fn silent(sketch: Option<Sketch>) -> Option<(Sketch, Option<Message>)>
    ensures { result ≡ option_map (λ k. (k, None)) sketch }
{
    Some((sketch?, None))
}
