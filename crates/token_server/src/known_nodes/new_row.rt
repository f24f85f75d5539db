//! The new row of a node, as a server plans it in a step.
ghost use Rattle.std.specs.Prelude.{◌≡◌, false, Option};
ghost use Rattle.intervals.specs.rule.Bytes.{whole};
ghost use Rattle.model.specs.declared.mode.Mode.TheVariants.{Read};
ghost use Rattle.token_server.specs.rule.Rows.{row_conflicts};
ghost use Rattle.token_server.specs.rule.RowParts.{row_seen};
ghost use Rattle.token_server.specs.declared.known_nodes.token_holder.TokenHolder.{TokenHolder};
ghost use Rattle.token_server.specs.code.Rows.{seen_row, row_kept};

use crate::known_nodes::known_node::KnownNode;
use crate::known_nodes::row_edit::RowAfter;
use crate::known_nodes::token_holder::RowView;

/// The new row of the node at an index, 0 for node 1; `None` where the node has no row any more.
#[derive(Drop)]
pub struct NewRow {
    pub place: usize,
    pub row: Option<RowAfter>,
}

impl NewRow {
    /// The new row of the node, over the row that the node had.
    pub(crate) fn row_over<'a>(&'a self, known_node: &'a KnownNode) -> Option<RowView<'a>>
        ensures { seen_row result ≡ row_kept self.now.row known_node.now.row }
    {
        self.row.as_ref()?.over(&known_node.row)
    }

    /// Whether the new row may have an exclusive byte where the old row had none.
    pub(crate) fn may_exclude(&self) -> bool
        ensures { result ≡ false → (row : Option TokenHolder) → row_conflicts (row_seen row) whole Read ≡ false → row_conflicts (row_kept self.now.row row) whole Read ≡ false }
    {
        match &self.row {
            Some(row) => row.may_exclude(),
            None => false,
        }
    }
}
