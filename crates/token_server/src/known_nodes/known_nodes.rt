//! The nodes of a cluster, as the token server of a file knows them. A function here that gives a `Result` answers
//! `AllocError` where a request for memory was refused.
ghost use Rattle.std.specs.Prelude.{◌≡◌, ◌+◌, ◌<◌, ◌≤◌, ◌↔◌, true, length, IsTrue, IfOk, IfSome, OnSome, MatchOption, ◌==◌, Some, None};
ghost use Rattle.std.specs.Option.{option_copied};
ghost use Rattle.intervals.specs.rule.Search.{some_passes};
ghost use Rattle.model.specs.rule.Limits.{IsNumber, most_nodes};
ghost use Rattle.messages.specs.rule.Shapes.{before_epoch};
ghost use Rattle.messages.specs.rule.Members.{members_state};
ghost use Rattle.token_server.specs.rule.Rows.{is_awaited, outstanding_to, row_of_incarnation};
ghost use Rattle.token_server.specs.code.Rows.{rebuilt_rows, rebuilt_dead, AreRebuilt, rows_after, deaths_after, seen, rows_overlaid, deaths_overlaid, NoneExclusive};
ghost use Rattle.token_server.specs.rule.RowParts.{row_seen, row_state, known_node_at, rows_of, deaths_of, SameKnownNodes};

use crate::known_nodes::known_change::Changed;
use crate::known_nodes::known_node::KnownNode;
use crate::known_nodes::new_row::NewRow;
use crate::known_nodes::row_edit::RowEdit;
use crate::known_nodes::token_holder::{RowView, TokenHolder};
use messages::{EpochNumber, FileNumber, Members, Sends, Shape};
use model::Host;
use std::alloc::{AllocError, Global};
use std::marker::Model;

mod conflicts;
mod giving;

/// The nodes of a cluster, from node 1 on, as the server of a file knows them.
#[derive(Drop)]
pub struct KnownNodes {
    nodes: Vec<KnownNode>,
    // Whether a row may have an exclusive byte. Where none has, no row blocks a reader.
    may_exclude: bool,
}

impl Model for KnownNodes {
    ghost use Rattle.std.specs.Prelude.{List};
    ghost use Rattle.token_server.specs.declared.known_nodes.known_node.KnownNode.{KnownNode};

    ghost Value = { List KnownNode };

    ghost view = { λ c. c.nodes.items };

    ghost use Rattle.std.specs.Prelude.{◌≡◌, false};
    ghost use Rattle.token_server.specs.rule.RowParts.{rows_of};
    ghost use Rattle.token_server.specs.code.Rows.{NoneExclusive};

    ghost invariant = { λ c. c.may_exclude ≡ false → NoneExclusive (rows_of c.nodes.items) };
}

// Nodes 1 to `nodes`, as a server of the file that was rebuilt knows them.
fn rebuilt(
    alloc: Global,
    nodes: u8,
    file: FileNumber,
    number: EpochNumber,
    members: &Members,
) -> Result<Vec<KnownNode>, AllocError>
    requires few { nodes ≤ most_nodes }
    requires of_shape { (members_state members.now.nodes).nodes ≡ nodes }
    ensures rebuilt { IfOk result (λ known_nodes. AreRebuilt file number members.now nodes known_nodes.items) }
    ensures len { IfOk result (λ known_nodes. length known_nodes.items ≡ nodes) }
{
    let mut known_nodes = Vec::new(alloc);
    for place in 0..nodes {
        known_nodes.push(KnownNode::rebuilt(alloc, file, number, place + 1, members))?;
    }
    Ok(known_nodes)
}

// Whether the same is known of each two nodes at equal indexes.
fn same_each(one: &[KnownNode], other: &[KnownNode]) -> bool
    requires { length one.now ≡ length other.now }
    ensures { IsTrue result ↔ SameKnownNodes one.now other.now }
{
    for i in 0..one.len() {
        if !one[i].same(&other[i]) {
            return false;
        }
    }
    true
}

impl KnownNodes {
    /// That many nodes, none of which has a row or a dead incarnation.
    pub fn new(alloc: Global, nodes: u8) -> Result<KnownNodes, AllocError>
        ensures rows { IfOk result (λ known_nodes. rows_of known_nodes ≡ (λ node. None)) }
        ensures deaths { IfOk result (λ known_nodes. deaths_of known_nodes ≡ (λ node. 0)) }
        ensures len { IfOk result (λ known_nodes. length known_nodes ≡ nodes) }
    {
        let mut known_nodes = Vec::new(alloc);
        for _node in 0..nodes {
            known_nodes.push(KnownNode { dead: 0, row: None })?;
        }
        Ok(KnownNodes {
            nodes: known_nodes,
            may_exclude: false,
        })
    }

    /// The nodes of a cluster, as a server of the file that was rebuilt in that epoch knows them. The row of each
    /// node that is alive has an outstanding Hello.
    pub fn rebuilt(
        alloc: Global,
        shape: Shape,
        file: FileNumber,
        epoch: u16,
        members: &Members,
    ) -> Result<KnownNodes, AllocError>
        requires later { 2 ≤ epoch }
        requires of_shape { (members_state members.now.nodes).nodes ≡ shape.nodes }
        ensures rows { IfOk result (λ known_nodes. rows_of known_nodes ≡ rebuilt_rows shape.nodes file (before_epoch epoch) members.now) }
        ensures deaths { IfOk result (λ known_nodes. deaths_of known_nodes ≡ rebuilt_dead members.now) }
        ensures len { IfOk result (λ known_nodes. length known_nodes ≡ shape.nodes) }
    {
        let number = EpochNumber::of(epoch);
        Ok(KnownNodes {
            nodes: rebuilt(alloc, shape.nodes(), file, number, members)?,
            may_exclude: false,
        })
    }

    // The node with that number, if the cluster has one.
    fn get(&self, node: u8) -> Option<&KnownNode>
        ensures value { option_copied result ≡ known_node_at self.now node }
        ensures within { OnSome result (IsNumber (length self.now) node) }
    {
        self.nodes.get(usize::from(node).checked_sub(1)?)
    }

    // The node with that number, which the cluster has.
    fn at(&self, node: u8) -> &KnownNode
        requires { IsNumber (length self.now) node }
        ensures { known_node_at self.now node ≡ Some result.now }
    {
        &self.nodes[usize::from(node) - 1]
    }

    /// The greatest incarnation of the node that is known to be dead; 0 where none is, or the cluster has no such
    /// node.
    pub fn dead(&self, node: u8) -> u16
        ensures { result ≡ deaths_of self.now node }
    {
        match self.get(node) {
            Some(known_node) => known_node.dead,
            None => 0,
        }
    }

    /// The row of the node, if it has one.
    pub fn row(&self, node: u8) -> Option<&TokenHolder>
        ensures { row_seen (option_copied result) ≡ rows_of self.now node }
    {
        self.get(node)?.row.as_ref()
    }

    /// The row of the node, if it is of the host's incarnation.
    pub fn row_of(&self, host: Host) -> Option<&TokenHolder>
        ensures row { row_seen (option_copied result) ≡ row_of_incarnation host.incarnation (rows_of self.now host.node) }
        ensures same { IfSome result (λ row. rows_of self.now host.node ≡ Some (row_state row.now)) }
    {
        match self.row(host.node) {
            Some(row) if row.commands.incarnation() == host.incarnation => Some(row),
            _ => None,
        }
    }

    /// The edit by which the change is made. There is none where nothing changes.
    pub fn edit(
        &self,
        alloc: Global,
        changed: &Option<Changed>,
    ) -> Result<Option<RowEdit>, AllocError>
        requires { IfSome changed.now (λ c. IsNumber (length self.now) c.node) }
        ensures rows { IfOk result (λ edit. rows_overlaid self.now edit ≡ rows_after changed.now (rows_of self.now)) }
        ensures deaths { IfOk result (λ edit. deaths_overlaid self.now edit ≡ deaths_after changed.now (deaths_of self.now)) }
    {
        let Some(changed) = changed else {
            return Ok(None);
        };
        let known_node = self.at(changed.node);
        if known_node.stays(&changed.change) {
            return Ok(None);
        }
        let given = NewRow {
            place: usize::from(changed.node) - 1,
            row: known_node.row_after(alloc, &changed.change)?,
        };
        Ok(Some(RowEdit {
            given,
            dead: changed.change.dead_after(known_node.dead),
        }))
    }

    /// The row of the node after the edit, if it has one then.
    pub fn row_after<'a>(&'a self, edit: &'a Option<RowEdit>, node: u8) -> Option<RowView<'a>>
        ensures row { MatchOption result (rows_overlaid self.now edit.now node ≡ None) (λ row. rows_overlaid self.now edit.now node ≡ Some (seen row)) }
        ensures within { OnSome result (IsNumber (length self.now) node) }
    {
        let known_node = self.get(node)?;
        match edit {
            Some(edit) if edit.given.place == usize::from(node) - 1 => {
                edit.given.row_over(known_node)
            }
            _ => known_node.row_view(),
        }
    }

    /// Whether the node was asked for its token and has not answered, after the edit.
    pub fn is_awaited<'a>(&'a self, edit: &'a Option<RowEdit>, node: u8) -> bool
        ensures { result ≡ is_awaited (rows_overlaid self.now edit.now node) }
    {
        match self.row_after(edit, node) {
            Some(row) => row.commands.is_asked(),
            None => false,
        }
    }

    /// Whether one of nodes 1 to `nodes` was asked for its token and has not answered, after the edit.
    pub fn awaits(&self, edit: &Option<RowEdit>, nodes: u8) -> bool
        ensures { result ≡ some_passes (λ node. is_awaited (rows_overlaid self.now edit.now node)) 1 nodes }
    {
        for place in 0..nodes {
            if self.is_awaited(edit, place + 1) {
                return true;
            }
        }
        false
    }

    /// The outstanding commands, by rising number of the node.
    pub fn outstanding(&self, alloc: Global) -> Result<Sends, AllocError>
        ensures { IfOk result (λ commands. commands ≡ outstanding_to (rows_of self.now) (length self.now)) }
    {
        let mut commands = Sends::nothing();
        for known_node in &self.nodes {
            if let Some(command) = known_node.outstanding() {
                commands.push(alloc, command)?;
            }
        }
        Ok(commands)
    }

    /// A copy: the same is known of each node.
    pub fn copy(&self) -> Result<KnownNodes, AllocError>
        ensures { IfOk result (λ copy. copy ≡ self.now) }
    {
        let mut nodes = Vec::new(*self.nodes.allocator());
        for known_node in &self.nodes {
            nodes.push(known_node.copy()?)?;
        }
        Ok(KnownNodes {
            nodes,
            may_exclude: self.may_exclude,
        })
    }

    /// Whether the same is known of each node. Both are of clusters of equal size.
    pub fn same(&self, other: &KnownNodes) -> bool
        requires { length self.now ≡ length other.now }
        ensures { IsTrue result ↔ ((rows_of self.now ≡ rows_of other.now) × (deaths_of self.now ≡ deaths_of other.now)) }
    {
        same_each(&self.nodes, &other.nodes)
    }
}
