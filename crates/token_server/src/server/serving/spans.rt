//! The spans that a token server grants.
ghost use Rattle.std.specs.Prelude.{◌≡◌, ◌==◌, ◌+◌, ◌<◌, ◌≤◌, false, Some, None};
ghost use Rattle.model.specs.rule.Limits.{IsNumber};
ghost use Rattle.intervals.specs.rule.Bytes.{largest_around};
ghost use Rattle.token_server.specs.rule.Rows.{row_conflicts, row_conflicts_at};
ghost use Rattle.token_server.specs.rule.Serve.{narrowed, granted_span, conflicting_node};
ghost use Rattle.token_server.specs.code.Edits.{with_told, drafted};

use super::super::Server;
use super::super::cuts::{cut_by, cut_by_all, cut_granted};
use crate::change::ServerEdit;
use crate::sent_command::{SentCommand, told_to};
use crate::token_queue::token_request::TokenRequest;
use intervals::span::Span;
use model::Mode;

impl Server {
    // The largest span within the desired one, around the required one, without bytes that another active request
    // needs.
    pub(super) fn narrowed(&self, draft: &ServerEdit, request: &TokenRequest) -> Span
        ensures value { result ≡ narrowed (drafted self.now draft.now).active request.now }
        ensures starts_before { result.lo ≤ request.now.wanted.required.lo }
        ensures ends_after { request.now.wanted.required.hi ≤ result.hi }
    {
        let required = request.required();
        let desired = request.desired();
        if desired == required {
            return desired;
        }
        let span = cut_by(request, self.active.as_slice(), draft);
        cut_by_all(required, span, draft.fresh.as_slice())
    }

    // The span that the request is granted: the largest within the narrowed desired span that no row of another node
    // conflicts with.
    pub(super) fn granted_span(
        &self,
        draft: &ServerEdit,
        told: &[SentCommand],
        request: &TokenRequest,
    ) -> Span
        requires { self.now.shape.nodes < conflicting_node (with_told told.now (drafted self.now draft.now)) request.now }
        ensures { result ≡ granted_span (with_told told.now (drafted self.now draft.now)) request.now }
    {
        let required = request.required();
        let mut span = self.narrowed(draft, request);
        if span == required {
            return span;
        }
        for place in 0..self.shape.nodes() {
            if !request.is_of_node(place + 1) {
                span = self.free_around(draft, told, place + 1, required, span, request.mode);
            }
        }
        span
    }

    // The largest span that contains `required`, lies in `within`, and has no byte at which another node's row
    // conflicts with the mode, after the commands of `told` were sent.
    fn free_around<'a>(
        &'a self,
        draft: &'a ServerEdit,
        told: &[SentCommand],
        node: u8,
        required: Span,
        within: Span,
        mode: Mode,
    ) -> Span
        requires node_in { IsNumber self.now.shape.nodes node }
        requires starts_within { within.lo ≤ required.lo }
        requires ends_within { required.hi ≤ within.hi }
        requires free { row_conflicts ((with_told told.now (drafted self.now draft.now)).rows node) required mode ≡ false }
        ensures { result ≡ largest_around (λ b. row_conflicts_at ((with_told told.now (drafted self.now draft.now)).rows node) b mode) required within }
    {
        let _ = &required.lo; // tells the proof that the span has a byte
        let Some(row) = self.known_nodes.row_after(&draft.rows, node) else {
            return within;
        };
        let free = row.token.free_around(required, within, mode);
        match told_to(told, node) {
            Some(told) => cut_granted(told, required, free, mode),
            None => free,
        }
    }
}
