//! The row of a node at a token server.
ghost use Rattle.std.specs.Prelude.{◌≡◌, ◌↔◌, IsTrue, IfOk};
ghost use Rattle.intervals.specs.rule.Bytes.{whole};
ghost use Rattle.token_set.specs.rule.Tokens.{conflicts, token_of};
ghost use Rattle.token_server.specs.rule.RowParts.{SameRow, row_state};
ghost use Rattle.token_server.specs.code.Rows.{seen};

use crate::known_nodes::commands::Commands;
use intervals::span::{GREATEST, Span};
use model::Mode;
use std::alloc::AllocError;
use token_set::set::TokenSet;
use token_set::view::TokenView;

/// The row of a node that asked for a token: the commands to the node, and the token that the server notes for it.
#[derive(Drop)]
pub struct TokenHolder {
    pub commands: Commands,
    pub token: TokenSet,
}

/// A row to be read, as it stands or as it will stand after a planned step.
#[derive(Clone, Copy)]
pub struct RowView<'a> {
    pub commands: &'a Commands,
    pub token: TokenView<'a>,
}

/// Whether a byte of the token is exclusive.
pub fn excludes(token: &TokenSet) -> bool
    ensures { result ≡ conflicts (token_of token.now) whole Mode.Read }
{
    let every_byte = Span {
        lo: 0,
        hi: GREATEST,
    };
    token.conflicts(every_byte, Mode::Read)
}

impl TokenHolder {
    /// The row as it stands.
    pub(crate) fn view(&self) -> RowView<'_>
        ensures { seen result ≡ row_state self.now }
    {
        RowView {
            commands: &self.commands,
            token: TokenView::Now(&self.token),
        }
    }

    /// A copy, equal to this row.
    ///
    /// # Errors
    /// `AllocError` where a request for memory was refused.
    pub fn copy(&self) -> Result<TokenHolder, AllocError>
        ensures { IfOk result (λ copy. copy ≡ self.now) }
    {
        Ok(TokenHolder {
            commands: self.commands,
            token: self.token.copy()?,
        })
    }

    /// Whether both rows are equal: commands, and level of each byte.
    pub fn same(&self, other: &TokenHolder) -> bool
        ensures { IsTrue result ↔ SameRow self.now other.now }
    {
        self.commands.same(&other.commands) && self.token.same(&other.token)
    }
}
