//! The rows that are in the way of a request.
ghost use Rattle.std.specs.Prelude.{◌≡◌, ◌+◌, ◌<◌, ◌≤◌, true, ◌==◌, Some, None};
ghost use Rattle.token_server.specs.rule.Rows.{row_conflicts};
ghost use Rattle.token_server.specs.code.Rows.{rows_overlaid, NoneExclusive};

use super::KnownNodes;
use crate::known_nodes::row_edit::RowEdit;
use intervals::span::Span;
use model::Mode;

impl KnownNodes {
    /// Whether the row of the node (from 1) conflicts, after the edit, with a lock of the mode that another node wants on
    /// the span.
    pub fn conflicts(&self, edit: &Option<RowEdit>, node: u8, span: Span, mode: Mode) -> bool
        requires { 1 ≤ node }
        ensures { result ≡ row_conflicts (rows_overlaid self.now edit.now node) span mode }
    {
        match edit {
            Some(edit) if edit.given.place == usize::from(node) - 1 => self.conflicts_after(
                edit, span, mode,
            ),
            _ => match self.row(node) {
                Some(row) => row.token.conflicts(span, mode),
                None => false,
            },
        }
    }

    // Whether the row that the edit makes conflicts with a lock of the mode that another node wants on the span.
    fn conflicts_after(&self, edit: &RowEdit, span: Span, mode: Mode) -> bool
        ensures { result ≡ row_conflicts (rows_overlaid self.now (Some edit.now) (edit.now.given.place + 1)) span mode }
    {
        let Some(known_node) = self.nodes.get(edit.given.place) else {
            return false;
        };
        match edit.given.row_over(known_node) {
            Some(row) => row.token.conflicts(span, mode),
            None => false,
        }
    }

    /// Whether a quick look says that no row has an exclusive byte after the edit. `false` says nothing.
    pub fn excludes_none(&self, edit: &Option<RowEdit>) -> bool
        ensures { result ≡ true → NoneExclusive (rows_overlaid self.now edit.now) }
    {
        if self.may_exclude {
            return false;
        }
        match edit {
            Some(edit) => !edit.given.may_exclude(),
            None => true,
        }
    }
}
