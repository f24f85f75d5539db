//! How a token server plans what an event changes: the draft of it, and then what serving adds.
ghost use Rattle.std.specs.Prelude.{◌≡◌, ◌≢◌, ℕ, ◌-◌, ◌<◌, false, ◌&&◌, IfSome, IfOk, IfErr, [], Option, Some, None, Ok, Err};
ghost use Rattle.model.specs.rule.Limits.{IsNumber};
ghost use Rattle.messages.specs.rule.Messages.{sending};
ghost use Rattle.token_server.specs.rule.Actives.{requests_of};
ghost use Rattle.token_server.specs.rule.State.{awaits};
ghost use Rattle.token_server.specs.rule.Serve.{serve};
ghost use Rattle.token_server.specs.rule.Resends.{sending_first};
ghost use Rattle.token_server.specs.rule.RowParts.{rows_of};
ghost use Rattle.token_server.specs.rule.Parts.{server_state};
ghost use Rattle.token_server.specs.code.Edits.{IsOrderly, dropped, without, sketched, reached, planned, IsDrafted, Fits};
ghost use Rattle.token_server.specs.code.Rows.{rows_after, rows_overlaid};

use super::Server;
use crate::change::{ServerChange, ServerEdit};
use crate::gone::Gone;
use crate::known_nodes::row_edit::RowEdit;
use crate::sketch::{Moved, Sketch};
use messages::{Outcome, Sends, StepError};
use std::alloc::{AllocError, Global};

impl Server {
    // The node, and the incarnation up to which its requests are dropped, if that drops any. Those that were known to
    // be dead already have no requests.
    fn newly_dead(&self, sketch: &Sketch) -> Option<(u8, u16)>
        requires { IfSome sketch.now.changed (λ c. IsNumber self.now.shape.nodes c.node) }
        ensures active { without result (requests_of self.now.active.held) ≡ without (dropped sketch.now.changed) (requests_of self.now.active.held) }
        ensures queue { without result self.now.queue.requests ≡ without (dropped sketch.now.changed) self.now.queue.requests }
        ensures waiting { without result self.now.waiting.requests ≡ without (dropped sketch.now.changed) self.now.waiting.requests }
    {
        match sketch.dropped() {
            Some((node, incarnation)) if incarnation > self.known_nodes.dead(node) => {
                Some((node, incarnation))
            }
            _ => None,
        }
    }

    // Whether a node has not reported its token after the edit. No event asks a node for its token.
    fn awaits_after(&self, rows: &Option<RowEdit>) -> bool
        requires { awaits (server_state self.now) ≡ false → awaits (reached self.now rows.now) ≡ false }
        ensures { result ≡ awaits (reached self.now rows.now) }
    {
        self.awaits && self.known_nodes.awaits(rows, self.shape.nodes())
    }

    // The node whose row the edit changes, if there is an edit.
    pub(super) fn touched(&self, rows: &Option<RowEdit>, sketch: &Sketch) -> Option<u8>
        requires { rows_overlaid self.now.known_nodes rows.now ≡ rows_after sketch.now.changed (rows_of self.now.known_nodes) }
        ensures { (n : ℕ) → result ≢ Some n → rows_overlaid self.now.known_nodes rows.now n ≡ rows_of self.now.known_nodes n }
    {
        rows.as_ref()?;
        Some(sketch.changed.as_ref()?.node)
    }

    // The draft of a step: what the event changes before the server serves. It is put into its box at once, so that
    // it isn't moved again.
    fn draft(&self, sketch: &Sketch, alloc: Global) -> Result<Box<ServerEdit>, AllocError>
        requires in_cluster { IfSome sketch.now.changed (λ c. IsNumber self.now.shape.nodes c.node) }
        requires orderly { IsOrderly (sketched self.now sketch.now) }
        ensures { IfOk result (λ draft. IsDrafted self.now sketch.now draft.value) }
    {
        let rows = self.known_nodes.edit(alloc, &sketch.changed)?;
        let awaits = self.awaits_after(&rows);
        let dropped = self.newly_dead(sketch);
        let gone = Gone {
            dropped,
            ended: sketch.ended,
        };
        let admitted = self.admit(alloc, awaits, &gone, &sketch.moved)?;
        let ats = self.awaited(alloc, &rows, &sketch.changed)?;
        let fresh = self.hold(alloc, &rows, admitted.as_slice())?;
        let draft = ServerEdit {
            rows,
            awaits,
            gone,
            ats,
            moved: sketch.moved,
            fresh,
            given: Vec::new(alloc),
            active_spare: None,
            queue_spare: None,
            waiting_spare: None,
        };
        Ok(Box::new(alloc, draft)?)
    }

    // Serves the active requests in order. A request is granted, unless another node's row conflicts: then the token
    // of the least such node is revoked first. Serves none before each node has reported its token.
    fn serve(&self, sketch: &Sketch, alloc: Global) -> Result<(Box<ServerEdit>, Sends), StepError>
        requires in_cluster { IfSome sketch.now.changed (λ c. IsNumber self.now.shape.nodes c.node) }
        requires orderly { IsOrderly (sketched self.now sketch.now) }
        ensures ok { IfOk result (λ r. serve (sketched self.now sketch.now) ≡ Ok (planned self.now r.0, r.1)) }
        ensures fits { IfOk result (λ r. Fits self.now r.0) }
        ensures err { IfErr result (λ e. e ≢ StepError.NoMemory → serve (sketched self.now sketch.now) ≡ Err e) }
    {
        let mut draft = self.draft(sketch, alloc)?;
        let (given, commands) = self.serve_draft(&draft, sketch, alloc)?;
        let active_spare = self.active.spare_for(draft.fresh.as_slice())?;
        let queue_spare = self.queue.spare_for(draft.moved.many(&self.waiting))?;
        let waiting_spare = self.waiting.spare_for(draft.moved.put_off())?;
        draft.complete(given, active_spare, queue_spare, waiting_spare);
        Ok((draft, commands))
    }

    // Serves, and puts these messages before those that serving sends.
    pub(super) fn serve_after(
        &self,
        sketch: &Sketch,
        alloc: Global,
        first: Sends,
    ) -> Result<ServerChange, StepError>
        requires in_cluster { IfSome sketch.now.changed (λ c. IsNumber self.now.shape.nodes c.node) }
        requires orderly { IsOrderly (sketched self.now sketch.now) }
        ensures fits { IfOk result (λ change. Fits self.now change.edit) }
        ensures ok { IfOk result (λ change. sending_first first (serve (sketched self.now sketch.now)) ≡ Ok (planned self.now change.edit, change.outcome)) }
        ensures err { IfErr result (λ e. e ≢ StepError.NoMemory → sending_first first (serve (sketched self.now sketch.now)) ≡ Err e) }
    {
        let (edit, served) = self.serve(sketch, alloc)?;
        let mut sends = first;
        sends.append(alloc, served)?;
        Ok(ServerChange {
            edit,
            outcome: Outcome::sending(sends),
        })
    }

    // The step that changes nothing and sends nothing.
    pub(super) fn no_change(&self, alloc: Global) -> Result<ServerChange, StepError>
        ensures state { IfOk result (λ change. planned self.now change.edit ≡ server_state self.now) }
        ensures fits { IfOk result (λ change. Fits self.now change.edit) }
        ensures outcome { IfOk result (λ change. change.outcome ≡ sending []) }
        ensures err { IfErr result (λ e. e ≡ StepError.NoMemory) }
    {
        let _ = &self.shape; // tells the proof what holds between two steps
        self.serve_after(&Sketch::moving(Moved::Nothing), alloc, Sends::nothing())
    }
}
