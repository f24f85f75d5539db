//! Planned changes of tokens, with the memory that they take.
ghost use Rattle.std.specs.Prelude.{◌≡◌, false};
ghost use Rattle.intervals.specs.rule.Bytes.{whole};
ghost use Rattle.intervals.specs.declared.tree_map.TreeMap.{TreeMap};
ghost use Rattle.model.specs.declared.level.Level.{Level};
ghost use Rattle.model.specs.declared.mode.Mode.TheVariants.{Read};
ghost use Rattle.token_set.specs.rule.Tokens.{conflicts};
ghost use Rattle.token_set.specs.rule.Tokens.{token_of};
ghost use Rattle.token_set.specs.code.Edits.{edited};

use crate::set::{TokenSet, is_exclusive};
use intervals::span::{GREATEST, Span};
use intervals::span_edit::SpanEdit;
use model::{Level, Mode};

/// A planned change of a token. It holds the memory that it takes, for a token of at most as many
/// runs as the one that it was planned for.
#[derive(Drop)]
pub enum TokenEdit {
    /// The token stays as it is.
    Same,
    /// Each byte of a span gets the level, or none.
    Write(SpanEdit<Level>),
    /// The token is replaced by this one.
    Whole(TokenSet),
}

impl TokenEdit {
    /// Whether the token may have an exclusive byte after the change if it has none before.
    pub fn may_exclude(&self) -> bool
        ensures { result ≡ false → (levels : TreeMap Level) → conflicts (token_of levels) whole Read ≡ false → conflicts (edited self.now levels) whole Read ≡ false }
    {
        let every_byte = Span {
            lo: 0,
            hi: GREATEST,
        };
        match self {
            TokenEdit::Same => false,
            TokenEdit::Write(write) => is_exclusive(write.value),
            TokenEdit::Whole(token) => token.conflicts(every_byte, Mode::Read),
        }
    }
}
