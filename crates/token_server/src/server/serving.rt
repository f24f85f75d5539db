//! How a token server serves its active requests: which commands it sends.
ghost use Rattle.std.specs.Prelude.{◌≡◌, ◌==◌, ◌≢◌, ℕ, ◌+◌, ◌<◌, ◌≤◌, ◌++◌, true, false, length, IfSome, All, IfOk, IfErr, OnOk, OnSome, slice_index_or, Some, None, Ok, Err};
ghost use Rattle.std.specs.Option.{option_map, option_to_list};
ghost use Rattle.messages.specs.rule.Shapes.{before_epoch};
ghost use Rattle.token_server.specs.rule.Serve.{narrowed, granted_span, served, each_served, serve};
ghost use Rattle.token_server.specs.code.Edits.{row_told, with_told, commands_told, AreOfEpoch, commands_of, sketched, keeps, held_after, drafted, with_given, IsDrafted, IsServed, kept_of, IsTurn, AreServed};
ghost use Rattle.token_server.specs.rule.Obstacles.{obstacle, are_apart, is_idle};
ghost use Rattle.token_server.specs.rule.RowParts.{known_node_at};
ghost use Rattle.token_server.specs.rule.Parts.{server_state};
ghost use Rattle.token_server.specs.code.Rows.{rows_overlaid, given_to_known_node, given_of};

use super::{Server, commands_told};
use crate::change::ServerEdit;
use crate::known_nodes::commands::Commands;
use crate::known_nodes::new_row::NewRow;
use crate::known_nodes::server_command::{Order, ServerCommand};
use crate::sent_command::{SentCommand, told_to};
use crate::sketch::Sketch;
use crate::token_queue::active_request::ActiveRequest;
use crate::token_queue::token_request::TokenRequest;
use messages::{CommandNumber, Sends, StepError, Wanted};
use model::Host;
use std::alloc::{AllocError, Global};

mod spans;

impl Server {
    // The commands to the node after those of `told` were sent, if it has a row.
    fn commands_to<'a>(
        &'a self,
        draft: &'a ServerEdit,
        told: &[SentCommand],
        node: u8,
    ) -> Option<Commands>
        requires { AreOfEpoch (drafted self.now draft.now) }
        ensures value { result ≡ option_map commands_of ((with_told told.now (drafted self.now draft.now)).rows node) }
        ensures counted { IfSome result (λ c. c.outstanding ≡ None → before_epoch self.now.epoch ≤ c.number) }
        ensures node_in { OnSome result (1 ≤ node) }
    {
        let Some(row) = self.known_nodes.row_after(&draft.rows, node) else {
            return None;
        };
        match told_to(told, node) {
            Some(told) => Some(told.commands.awaiting(told.command)),
            None => Some(*row.commands),
        }
    }

    // The command that the request leads to, for the node whose row it waits for. There is none while a command to
    // that node is outstanding.
    fn command(
        &self,
        draft: &ServerEdit,
        told: &[SentCommand],
        request: &TokenRequest,
        at: u8,
    ) -> Result<Option<SentCommand>, StepError>
        requires waits { obstacle (with_told told.now (drafted self.now draft.now)) request.now ≡ at }
        requires counted { AreOfEpoch (drafted self.now draft.now) }
        ensures ok { IfOk result (λ o. served (with_told told.now (drafted self.now draft.now)) request.now ≡ Ok (with_told (told.now ++ option_to_list o) (drafted self.now draft.now), commands_told (option_to_list o))) }
        ensures node { IfOk result (λ o. IfSome o (λ t. 1 ≤ t.node)) }
        ensures err { IfErr result (λ e. served (with_told told.now (drafted self.now draft.now)) request.now ≡ Err e) }
    {
        let Some(commands) = self.commands_to(draft, told, at) else {
            return Ok(None);
        };
        let Some(number) = commands.next_number(self.epoch)? else {
            return Ok(None);
        };
        let order = self.order(draft, told, request, at, number, commands.incarnation());
        let command = ServerCommand::of(self.file, order);
        Ok(Some(SentCommand {
            node: at,
            commands: commands.told(number, command),
            command,
        }))
    }

    // The order for the node whose row the request waits for: a Grant, if that is its own node, or else a Revoke of
    // the required bytes.
    fn order(
        &self,
        draft: &ServerEdit,
        told: &[SentCommand],
        request: &TokenRequest,
        at: u8,
        number: CommandNumber,
        incarnation: u16,
    ) -> Order
        requires waits { obstacle (with_told told.now (drafted self.now draft.now)) request.now ≡ at }
        requires counted { 1 ≤ incarnation }
        ensures own { (at == request.now.call.node) ≡ true → result ≡ Order.Grant number request.now.call request.now.mode (granted_span (with_told told.now (drafted self.now draft.now)) request.now) }
        ensures other { (at == request.now.call.node) ≡ false → result ≡ Order.Revoke number (record { node = at; incarnation = incarnation }) request.now.call request.now.mode (record { required = request.now.wanted.required; desired = narrowed (drafted self.now draft.now).active request.now }) }
    {
        let _ = self.shape.nodes(); // tells the proof how many nodes there may be
        if request.is_of_node(at) {
            return Order::Grant {
                number,
                call: request.call,
                mode: request.mode,
                span: self.granted_span(draft, told, request),
            };
        }
        Order::Revoke {
            number,
            holder: Host {
                node: at,
                incarnation,
            },
            call: request.call,
            mode: request.mode,
            wanted: Wanted::new(request.required(), self.narrowed(draft, request)),
        }
    }

    // Serves one active request: puts the command that it leads to behind `told`.
    fn serve_one(
        &self,
        draft: &ServerEdit,
        told: &mut Vec<SentCommand>,
        held: &ActiveRequest,
    ) -> Result<(), StepError>
        requires waits { obstacle (with_told told.old.items (drafted self.now draft.now)) held.now.request ≡ held.now.at }
        requires counted { AreOfEpoch (drafted self.now draft.now) }
        ensures ok { OnOk result (IsTurn (drafted self.now draft.now) held.now told.old.items told.new.items) }
        ensures err { IfErr result (λ e. e ≢ StepError.NoMemory → served (with_told told.old.items (drafted self.now draft.now)) held.now.request ≡ Err e) }
    {
        let request = &held.request;
        let _ = (request.required(), request.desired()); // tells the proof how the spans lie
        if let Some(next) = self.command(draft, told.as_slice(), request, held.at)? {
            told.push(next)?;
        }
        Ok(())
    }

    // The commands for the active requests that stay active, in order. Where only the row of the node `touched`
    // changed, only requests that wait for that row, or for another row than before, can lead to a command, and after
    // one command to that node no other request for its row can.
    fn commands_kept(
        &self,
        draft: &ServerEdit,
        touched: Option<u8>,
        alloc: Global,
    ) -> Result<Vec<SentCommand>, StepError>
        requires waits { All (λ h. obstacle (drafted self.now draft.now) h.request ≡ h.at) (held_after draft.now self.now.active.held) }
        requires apart { are_apart (drafted self.now draft.now).active ≡ true }
        requires untouched { (n : ℕ) → touched ≢ Some n → (drafted self.now draft.now).rows n ≡ (server_state self.now).rows n }
        requires counted { AreOfEpoch (drafted self.now draft.now) }
        ensures ok { IfOk result (λ told. AreServed (drafted self.now draft.now) (held_after draft.now self.now.active.held) (kept_of draft.now self.now.active.held) told.items) }
        ensures err { IfErr result (λ e. e ≢ StepError.NoMemory → each_served (drafted self.now draft.now).active (drafted self.now draft.now) ≡ Err e) }
    {
        let mut told = Vec::new(alloc);
        let active = self.active.as_slice();
        let ats = draft.ats.as_slice();
        if none_may_come(ats, touched) {
            return Ok(told);
        }
        for place in 0..active.len() {
            let held = &active[place];
            let at = awaited(ats, place, held.at);
            if !may_come(held.at, at, touched) {
                continue;
            }
            if told_to(told.as_slice(), at).is_some() {
                if ats.len() <= place {
                    return Ok(told);
                }
                continue;
            }
            if draft.gone.keeps(&held.request) {
                let request = held.request;
                self.serve_one(draft, &mut told, &ActiveRequest { request, at })?;
            }
        }
        Ok(told)
    }

    // The commands for all active requests in order: first those that stay active, then those that are admitted.
    fn commands(
        &self,
        draft: &ServerEdit,
        touched: Option<u8>,
        alloc: Global,
    ) -> Result<Vec<SentCommand>, StepError>
        requires waits { All (λ h. obstacle (drafted self.now draft.now) h.request ≡ h.at) (held_after draft.now self.now.active.held) }
        requires apart { are_apart (drafted self.now draft.now).active ≡ true }
        requires untouched { (n : ℕ) → touched ≢ Some n → (drafted self.now draft.now).rows n ≡ (server_state self.now).rows n }
        requires counted { AreOfEpoch (drafted self.now draft.now) }
        ensures ok { IfOk result (λ told. each_served (drafted self.now draft.now).active (drafted self.now draft.now) ≡ Ok (with_told told.items (drafted self.now draft.now), commands_told told.items)) }
        ensures nodes { IfOk result (λ told. All (λ t. 1 ≤ t.node) told.items) }
        ensures waits { IfOk result (λ told. All (λ h. obstacle (with_told told.items (drafted self.now draft.now)) h.request ≡ h.at) (held_after draft.now self.now.active.held)) }
        ensures quiet { IfOk result (λ told. All (λ h. is_idle ((with_told told.items (drafted self.now draft.now)).rows h.at) ≡ false) (held_after draft.now self.now.active.held)) }
        ensures err { IfErr result (λ e. e ≢ StepError.NoMemory → each_served (drafted self.now draft.now).active (drafted self.now draft.now) ≡ Err e) }
    {
        let mut told = self.commands_kept(draft, touched, alloc)?;
        for held in draft.fresh.as_slice() {
            self.serve_one(draft, &mut told, held)?;
        }
        Ok(told)
    }

    // Serves the requests of a draft: the new rows that the commands make, and the commands.
    pub(super) fn serve_draft(
        &self,
        draft: &ServerEdit,
        sketch: &Sketch,
        alloc: Global,
    ) -> Result<(Vec<NewRow>, Sends), StepError>
        requires { IsDrafted self.now sketch.now draft.now }
        ensures ok { IfOk result (λ r. IsServed self.now sketch.now draft.now r.0.items r.1) }
        ensures err { IfErr result (λ e. e ≢ StepError.NoMemory → serve (sketched self.now sketch.now) ≡ Err e) }
    {
        let touched = self.touched(&draft.rows, sketch);
        let told = self.commands(draft, touched, alloc)?;
        let given = self.given(draft, alloc, told.as_slice())?;
        Ok((given, commands_told(alloc, told.as_slice())?))
    }

    // The new rows that the commands make.
    fn given(
        &self,
        draft: &ServerEdit,
        alloc: Global,
        told: &[SentCommand],
    ) -> Result<Vec<NewRow>, AllocError>
        requires { All (λ t. 1 ≤ t.node) told.now }
        ensures { IfOk result (λ given. with_given (given.items ++ given_of draft.now.rows) self.now.known_nodes (drafted self.now draft.now) ≡ with_told told.now (drafted self.now draft.now)) }
    {
        let mut given = Vec::new(alloc);
        for next in told {
            let one = self.given_one(draft, next)?;
            given.push(one)?;
        }
        Ok(given)
    }

    // The new row that one command makes.
    fn given_one(&self, draft: &ServerEdit, told: &SentCommand) -> Result<NewRow, AllocError>
        requires { 1 ≤ told.now.node }
        ensures place { IfOk result (λ given. given.place + 1 ≡ told.now.node) }
        ensures row { IfOk result (λ given. given_to_known_node given (known_node_at self.now.known_nodes told.now.node) ≡ row_told (Some told.now) (rows_overlaid self.now.known_nodes draft.now.rows told.now.node)) }
    {
        let commands = told.commands.awaiting(told.command);
        self.known_nodes
            .given(&draft.rows, told.node, commands, &told.command)
    }
}

// The node whose row the request at an index waits for: `ats` names it for the first requests, and any other waits
// for the row of `before`, as it did.
fn awaited(ats: &[u8], place: usize, before: u8) -> u8
    ensures { result ≡ slice_index_or ats.now place before }
{
    ats.get(place).copied().unwrap_or(before)
}

// Whether a command may go to the node `at`, whose row a request waits for. None could go to the node `before`, whose
// row it waited for, and no row has changed but that of `touched`.
fn may_come(before: u8, at: u8, touched: Option<u8>) -> bool
    ensures same { result ≡ false → at ≡ before }
    ensures untouched { result ≡ false → touched ≢ Some at }
    ensures only { result ≡ true → at ≡ before → touched ≡ Some at }
{
    match touched {
        Some(node) if node == at => true,
        _ => at != before,
    }
}

// Whether no command may go to a node whose row an active request waits for: each waits for the same row as before,
// and no row has changed.
fn none_may_come(ats: &[u8], touched: Option<u8>) -> bool
    ensures same { result ≡ true → length ats.now ≡ 0 }
    ensures untouched { result ≡ true → touched ≡ None }
{
    ats.is_empty() && touched.is_none()
}
