//! The readers of a token server: what it holds, as lists. A function here that gives a `Result` answers `AllocError`
//! where a request for memory was refused.
ghost use Rattle.std.specs.Prelude.{◌≡◌, false, All, IfOk, MatchOption, map, is_some, None};
ghost use Rattle.token_server.specs.rule.Requests.{requests_in};
ghost use Rattle.token_server.specs.rule.Actives.{requests_of};
ghost use Rattle.token_server.specs.rule.Rows.{is_awaited};
ghost use Rattle.token_server.specs.rule.Obstacles.{obstacle, is_idle};
ghost use Rattle.token_server.specs.rule.RowParts.{row_state};
ghost use Rattle.token_server.specs.rule.Parts.{server_state};
ghost use Rattle.token_server.specs.code.Rows.{nodes_where, Shows, IsRow};

use super::Server;
use crate::known_nodes::token_holder::TokenHolder;
use crate::shown_row::ShownRow;
use crate::token_queue::active_request::ActiveRequest;
use crate::token_queue::token_request::TokenRequest;
use std::alloc::{AllocError, Global};

impl Server {
    /// The active requests, in the order in which they became active, each with the node whose row it waits for: the
    /// least other node whose token conflicts, which is to give up bytes, or else its own node, which is to take the
    /// grant. Takes no memory.
    pub fn served(&self) -> &[ActiveRequest]
        ensures requests { requests_of result.now ≡ (server_state self.now).active }
        ensures rows { All (λ h. obstacle (server_state self.now) h.request ≡ h.at) result.now }
        ensures busy { All (λ h. is_idle ((server_state self.now).rows h.at) ≡ false) result.now }
    {
        let _ = &self.shape; // tells the proof what holds between two steps
        self.active.as_slice()
    }

    /// The queued requests, in the order in which they are to become active.
    pub fn queued(&self, alloc: Global) -> Result<Vec<TokenRequest>, AllocError>
        ensures { IfOk result (λ requests. requests.items ≡ (server_state self.now).queue) }
    {
        listed(alloc, self.queue.slots())
    }

    /// The waiting requests, which wait for a lock of another node to go, in the order in which they are to be queued
    /// again.
    pub fn waiting(&self, alloc: Global) -> Result<Vec<TokenRequest>, AllocError>
        ensures { IfOk result (λ requests. requests.items ≡ (server_state self.now).waiting) }
    {
        listed(alloc, self.waiting.slots())
    }

    /// The row of the node, if the node asked in an incarnation that is not known to be dead.
    pub fn row(&self, alloc: Global, node: u8) -> Result<Option<ShownRow>, AllocError>
        ensures { IfOk result (λ shown. MatchOption shown ((server_state self.now).rows node ≡ None) (λ r. IsRow (server_state self.now) r × (r.node ≡ node))) }
    {
        match self.known_nodes.row(node) {
            Some(row) => Ok(Some(shown(alloc, node, row)?)),
            None => Ok(None),
        }
    }

    /// The rows of the nodes that asked, by rising node.
    pub fn rows(&self, alloc: Global) -> Result<Vec<ShownRow>, AllocError>
        ensures nodes { let s = server_state self.now in IfOk result (λ rows. map (λ r. r.node) rows.items ≡ nodes_where (λ n. is_some (s.rows n)) s.shape.nodes) }
        ensures each { IfOk result (λ rows. All (IsRow (server_state self.now)) rows.items) }
    {
        let mut rows = Vec::new(alloc);
        for place in 0..self.shape.nodes() {
            if let Some(row) = self.row(alloc, place + 1)? {
                rows.push(row)?;
            }
        }
        Ok(rows)
    }

    /// The greatest incarnation of the node that is known to be dead, 0 where none is.
    pub fn dead(&self, node: u8) -> u16
        ensures { result ≡ (server_state self.now).dead node }
    {
        self.known_nodes.dead(node)
    }

    /// The nodes that a rebuilt server still awaits, by rising node: each has not reported its token and is not known
    /// to be dead. While there is one, the server serves no request.
    pub fn awaited_nodes(&self, alloc: Global) -> Result<Vec<u8>, AllocError>
        ensures { let s = server_state self.now in IfOk result (λ nodes. nodes.items ≡ nodes_where (λ n. is_awaited (s.rows n)) s.shape.nodes) }
    {
        let mut nodes = Vec::new(alloc);
        for place in 0..self.shape.nodes() {
            if self.known_nodes.is_awaited(&None, place + 1) {
                nodes.push(place + 1)?;
            }
        }
        Ok(nodes)
    }
}

// The requests in the slots of a line, in their order.
fn listed(alloc: Global, slots: &[Option<TokenRequest>]) -> Result<Vec<TokenRequest>, AllocError>
    ensures { IfOk result (λ requests. requests.items ≡ requests_in slots.now) }
{
    let mut requests = Vec::new(alloc);
    for slot in slots {
        if let Some(request) = slot {
            requests.push(*request)?;
        }
    }
    Ok(requests)
}

// The row of a node as it is shown.
fn shown(alloc: Global, node: u8, row: &TokenHolder) -> Result<ShownRow, AllocError>
    ensures shows { IfOk result (λ shown. Shows (row_state row.now) shown) }
    ensures node { IfOk result (λ shown. shown.node ≡ node) }
{
    Ok(ShownRow {
        node,
        incarnation: row.commands.incarnation(),
        token: row.token.runs(alloc)?,
        number: row.commands.number,
        command: row.commands.outstanding.map(|command| command.message()),
    })
}
