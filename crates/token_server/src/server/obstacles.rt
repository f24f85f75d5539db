//! The nodes whose rows the active requests of a token server wait for.
ghost use Rattle.std.specs.Prelude.{◌≡◌, ◌≤◌, ◌↔◌, true, false, not, ◌&&◌, ◌||◌, ◌==◌, All, length, drop, IsSome, IfOk, IfSome, Option, Some};
ghost use Rattle.intervals.specs.rule.Bytes.{Range};
ghost use Rattle.model.specs.rule.Limits.{IsNumber, most_nodes};
ghost use Rattle.token_server.specs.rule.Requests.{meets};
ghost use Rattle.token_server.specs.rule.Actives.{requests_of, waiting_for};
ghost use Rattle.token_server.specs.rule.Rows.{Row, row_conflicts};
ghost use Rattle.token_server.specs.rule.Serve.{conflicting_node};
ghost use Rattle.token_server.specs.rule.RowParts.{rows_of};
ghost use Rattle.token_server.specs.rule.Parts.{server_state};
ghost use Rattle.token_server.specs.code.Rows.{may_bar, rows_after, NoneExclusive, rows_overlaid};
ghost use Rattle.token_server.specs.code.Admissions.{is_dropped, frees, may_turn};
ghost use Rattle.token_server.specs.rule.Obstacles.{obstacle};
ghost use Rattle.token_server.specs.code.Edits.{reached};

use super::Server;
use super::admitting::needs_all_of;
use crate::known_nodes::known_change::{Changed, KnownChange};
use crate::known_nodes::row_edit::RowEdit;
use crate::token_queue::active_request::ActiveRequest;
use crate::token_queue::token_request::TokenRequest;
use model::Mode;
use std::alloc::{AllocError, Global};

impl Server {
    // Whether the row of another node conflicts with the bytes that the request needs.
    fn stands_in_way(&self, rows: &Option<RowEdit>, node: u8, request: &TokenRequest) -> bool
        requires { IsNumber self.now.shape.nodes node }
        ensures { result ≡ (not (node == request.now.call.node) && row_conflicts ((reached self.now rows.now).rows node) request.now.wanted.required request.now.mode) }
    {
        if request.is_of_node(node) {
            return false;
        }
        self.known_nodes
            .conflicts(rows, node, request.required(), request.mode)
    }

    // The least other node whose row conflicts with the bytes that the request needs, if there is one.
    fn conflicting_node(&self, rows: &Option<RowEdit>, request: &TokenRequest) -> Option<u8>
        ensures node_in { IfSome result (λ node. IsNumber self.now.shape.nodes node × IsNumber most_nodes node) }
        ensures within { IsSome result ↔ (conflicting_node (reached self.now rows.now) request.now ≤ self.now.shape.nodes) }
        ensures value { IfSome result (λ node. node ≡ conflicting_node (reached self.now rows.now) request.now) }
    {
        for place in 0..self.shape.nodes() {
            if self.stands_in_way(rows, place + 1, request) {
                return Some(place + 1);
            }
        }
        None
    }

    // The node whose row the request waits for: the node that blocks it, or else its own. `readable` says that no row
    // has an exclusive byte, so that none blocks a reader.
    fn obstacle(&self, rows: &Option<RowEdit>, readable: bool, request: &TokenRequest) -> u8
        requires { readable ≡ true → NoneExclusive (reached self.now rows.now).rows }
        ensures { result ≡ obstacle (reached self.now rows.now) request.now }
    {
        let required = request.required();
        let _ = &required.lo; // tells the proof that the span has a byte
        if readable && request.mode == Mode::Read {
            return request.call.node;
        }
        self.conflicting_node(rows, request)
            .unwrap_or(request.call.node)
    }

    // Whether the row of the node is of that incarnation or an older one.
    fn is_dropped(&self, node: u8, incarnation: u16) -> bool
        requires { IsNumber self.now.shape.nodes node }
        ensures { result ≡ is_dropped incarnation (rows_of self.now.known_nodes node) }
    {
        self.known_nodes
            .row(node)
            .is_some_and(|row| row.commands.incarnation() <= incarnation)
    }

    // Whether a quick look says that every active request waits for the same row after the change. `false` says
    // nothing.
    fn frees_none(&self, changed: &Changed) -> bool
        requires { IsNumber self.now.shape.nodes changed.now.node }
        ensures { result ≡ true → (s : Range) → frees changed.now.change (rows_of self.now.known_nodes changed.now.node) s ≡ false }
    {
        match &changed.change {
            KnownChange::Forgotten { incarnation } => !self.is_dropped(changed.node, *incarnation),
            KnownChange::Asked { host, .. } => !self.is_dropped(changed.node, host.incarnation - 1),
            KnownChange::Answered => true,
            KnownChange::Relieved { .. } | KnownChange::Reported { .. } => false,
        }
    }

    // The number of active requests up to the last one that may wait for another row after the change.
    fn freed_up_to(&self, changed: &Changed) -> usize
        requires { IsNumber self.now.shape.nodes changed.now.node }
        ensures within { result ≤ length self.now.active.held }
        ensures rest { All (λ h. may_turn changed.now (rows_of self.now.known_nodes changed.now.node) h ≡ false) (drop result self.now.active.held) }
    {
        if self.frees_none(changed) {
            return 0;
        }
        let mut many = 0;
        let active = self.active.as_slice();
        for place in 0..active.len() {
            let held = &active[place];
            if may_be_freed(changed, held) {
                many = place + 1;
                if takes_all(&changed.change, &held.request) {
                    return many;
                }
            }
        }
        many
    }

    // The nodes whose rows the active requests wait for after the rows changed, in order, up to the last request that
    // may wait for another row than before.
    pub(super) fn awaited(
        &self,
        alloc: Global,
        rows: &Option<RowEdit>,
        changed: &Option<Changed>,
    ) -> Result<Vec<u8>, AllocError>
        requires rows { rows_overlaid self.now.known_nodes rows.now ≡ rows_after changed.now (rows_of self.now.known_nodes) }
        requires in_cluster { IfSome changed.now (λ c. IsNumber self.now.shape.nodes c.node) }
        ensures { IfOk result (λ ats. All (λ h. obstacle (reached self.now rows.now) h.request ≡ h.at) (waiting_for ats.items self.now.active.held)) }
    {
        let _ = &self.shape; // tells the proof what holds between two steps
        let Some(changed) = changed else {
            return Ok(Vec::new(alloc));
        };
        let many = self.freed_up_to(changed);
        let mut ats = Vec::with_capacity(alloc, many)?;
        let active = self.active.as_slice();
        let readable = self.known_nodes.excludes_none(rows);
        for place in 0..many {
            ats.push(self.at_after(rows, readable, changed, &active[place]))?;
        }
        Ok(ats)
    }

    // The node whose row the active request waits for after the rows changed.
    fn at_after(
        &self,
        rows: &Option<RowEdit>,
        readable: bool,
        changed: &Changed,
        held: &ActiveRequest,
    ) -> u8
        requires readable { readable ≡ true → NoneExclusive (reached self.now rows.now).rows }
        requires rows { rows_overlaid self.now.known_nodes rows.now ≡ rows_after (Some changed.now) (rows_of self.now.known_nodes) }
        requires in_cluster { IsNumber self.now.shape.nodes changed.now.node }
        requires waits { obstacle (server_state self.now) held.now.request ≡ held.now.at }
        ensures { obstacle (reached self.now rows.now) held.now.request ≡ result }
    {
        if may_be_freed(changed, held) {
            return self.obstacle(rows, readable, &held.request);
        }
        held.at
    }

    // The requests that become active, each with the node whose row it waits for.
    pub(super) fn hold(
        &self,
        alloc: Global,
        rows: &Option<RowEdit>,
        requests: &[TokenRequest],
    ) -> Result<Vec<ActiveRequest>, AllocError>
        ensures requests { IfOk result (λ fresh. requests_of fresh.items ≡ requests.now) }
        ensures waits { IfOk result (λ fresh. All (λ h. obstacle (reached self.now rows.now) h.request ≡ h.at) fresh.items) }
    {
        let mut fresh = Vec::new(alloc);
        let readable = self.known_nodes.excludes_none(rows);
        for request in requests {
            let at = self.obstacle(rows, readable, request);
            fresh.push(ActiveRequest {
                request: *request,
                at,
            })?;
        }
        Ok(fresh)
    }
}

// Whether the change may free bytes that the request needs. It is not asked here which row blocks the request.
fn may_free(change: &KnownChange, request: &TokenRequest) -> bool
    ensures { result ≡ false → (row : Option Row) → frees change.now row request.now.wanted.required ≡ false }
{
    match change {
        KnownChange::Forgotten { .. } | KnownChange::Asked { .. } | KnownChange::Reported { .. } =>
            true,
        KnownChange::Answered => false,
        KnownChange::Relieved { span, .. } => request.meets(*span),
    }
}

// Whether the active request may wait for another row after the change: the row that changes is the one that it waits
// for, or may come to block it.
fn may_be_freed(changed: &Changed, held: &ActiveRequest) -> bool
    ensures { result ≡ false → (row : Option Row) → may_turn changed.now row held.now ≡ false }
{
    (changed.change.may_bar() || held.at == changed.node)
        && may_free(&changed.change, &held.request)
}

// Whether the request needs all bytes that the node gave up: then no other active request needs any of them.
fn takes_all(change: &KnownChange, request: &TokenRequest) -> bool
    ensures { result ≡ true → (row : Option Row) → (s : Range) → meets request.now.wanted.required s ≡ false → frees change.now row s ≡ false }
{
    let KnownChange::Relieved { span, .. } = change else {
        return false;
    };
    needs_all_of(request, *span)
}
