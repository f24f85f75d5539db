//! Rows as they will stand after a planned step of a token server.
ghost use Rattle.std.specs.Prelude.{◌≡◌, false, Option, IfOk};
ghost use Rattle.intervals.specs.rule.Bytes.{whole};
ghost use Rattle.model.specs.declared.mode.Mode.TheVariants.{Read};
ghost use Rattle.token_server.specs.rule.Rows.{row_conflicts};
ghost use Rattle.token_server.specs.rule.RowParts.{row_seen};
ghost use Rattle.token_server.specs.declared.known_nodes.token_holder.TokenHolder.{TokenHolder};
ghost use Rattle.token_server.specs.code.Rows.{seen_row, row_with, row_kept, row_promised};

use crate::known_nodes::commands::Commands;
use crate::known_nodes::new_row::NewRow;
use crate::known_nodes::server_command::ServerCommand;
use crate::known_nodes::token_holder::{RowView, TokenHolder, excludes};
use std::alloc::AllocError;
use token_set::edit::TokenEdit;

/// A row as it will stand after a planned step.
#[derive(Drop)]
pub enum RowAfter {
    /// The row that the node has, if it has one, with these commands and with its token changed so.
    Kept {
        commands: Commands,
        token: TokenEdit,
    },
    /// This row, in place of the one that the node has.
    New(TokenHolder),
}

/// The edit of one node: its new row, and its greatest dead incarnation.
#[derive(Drop)]
pub struct RowEdit {
    pub given: NewRow,
    pub dead: u16,
}

impl RowAfter {
    /// The row as it will stand, where the node has `row` now.
    pub(crate) fn over<'a>(&'a self, row: &'a Option<TokenHolder>) -> Option<RowView<'a>>
        ensures { seen_row result ≡ row_with self.now row.now }
    {
        match self {
            RowAfter::Kept { commands, token } => {
                let row = row.as_ref()?;
                Some(RowView {
                    commands,
                    token: row.token.view(token),
                })
            }
            RowAfter::New(row) => Some(row.view()),
        }
    }

    /// Whether the row may have an exclusive byte where the node's row had none.
    pub(crate) fn may_exclude(&self) -> bool
        ensures { result ≡ false → (row : Option TokenHolder) → row_conflicts (row_seen row) whole Read ≡ false → row_conflicts (row_with self.now row) whole Read ≡ false }
    {
        match self {
            RowAfter::Kept { token, .. } => token.may_exclude(),
            RowAfter::New(row) => excludes(&row.token),
        }
    }

    /// The row as it will stand after the command is sent too, where the node has `row` now: `commands` stand in it,
    /// and its token is as the command promises. There is none where the node has none before the command either.
    ///
    /// # Errors
    /// `AllocError` where a request for memory was refused.
    pub(crate) fn promised(
        &self,
        row: &Option<TokenHolder>,
        commands: Commands,
        command: &ServerCommand,
    ) -> Result<Option<RowAfter>, AllocError>
        ensures { IfOk result (λ after. row_kept after row.now ≡ row_promised commands command.now (row_with self.now row.now)) }
    {
        match self {
            RowAfter::Kept { token, .. } => {
                let Some(row) = row else {
                    return Ok(None);
                };
                let token = command.promised_after(&row.token, token)?;
                Ok(Some(RowAfter::Kept { commands, token }))
            }
            RowAfter::New(row) => {
                let mut token = row.token.copy()?;
                token.apply(command.promised(&row.token)?);
                Ok(Some(RowAfter::New(TokenHolder { commands, token })))
            }
        }
    }
}
