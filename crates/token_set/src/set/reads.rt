//! What is read of a token.
ghost use Rattle.std.specs.Prelude.{◌≡◌, ◌≤◌, ◌<◌, ℕ, true, false, Some, None, IfOk};
ghost use Rattle.intervals.specs.rule.Bytes.{greatest, IsLargest, NoneIn, largest_around};
ghost use Rattle.token_set.specs.rule.Tokens.{covers, conflicts, level_conflicts, holds_nothing, token_of};
ghost use Rattle.token_set.specs.code.Sets.{bar_of, ListsRuns};
ghost use Rattle.token_set.specs.code.Edits.{edited};
ghost use Rattle.token_set.specs.code.Views.{viewed};

use super::{TokenSet, bar_of, has_levels, run_from};
use crate::edit::TokenEdit;
use crate::view::TokenView;
use intervals::span::Span;
use intervals::span_map::SpanMap;
use model::{Level, Mode};
use std::alloc::{AllocError, Global};

impl TokenSet {
    // Whether it is known, without reading bytes, that no byte conflicts with a lock of the mode on
    // another node.
    fn excludes_none(&self, mode: Mode) -> bool
        ensures { result ≡ true → (b : ℕ) → level_conflicts (token_of self.now b) mode ≡ false }
    {
        match mode {
            Mode::Read => !self.may_exclude,
            Mode::Write => self.levels.is_empty(),
        }
    }

    /// The token after the change, for reading. Takes no memory.
    pub fn view<'a>(&'a self, edit: &'a TokenEdit) -> TokenView<'a>
        ensures { viewed result ≡ edited edit.now self.now }
    {
        match edit {
            TokenEdit::Same => TokenView::Now(self),
            TokenEdit::Write(write) if self.levels.fits(write) => TokenView::With {
                token: self,
                span: write.span,
                level: write.value,
            },
            TokenEdit::Write(_) => TokenView::Now(self),
            TokenEdit::Whole(token) => TokenView::Now(token),
        }
    }

    /// Whether the node may lock each byte of the span in the mode without asking: for read each
    /// byte has a level, for write each is exclusive.
    pub fn covers(&self, span: Span, mode: Mode) -> bool
        ensures { result ≡ covers (token_of self.now) span mode }
    {
        match mode {
            Mode::Read => has_levels(&self.levels, span),
            Mode::Write => self.levels.covers(span, Level::Exclusive),
        }
    }

    /// Whether no byte has a level.
    pub fn holds_nothing(&self) -> bool
        ensures { result ≡ holds_nothing (token_of self.now) }
    {
        self.levels.is_empty()
    }

    /// Whether some byte of the span conflicts with a lock of the mode on another node: an
    /// exclusive byte with a lock of either mode, a shared byte with a write lock.
    pub fn conflicts(&self, span: Span, mode: Mode) -> bool
        ensures { result ≡ conflicts (token_of self.now) span mode }
    {
        if self.excludes_none(mode) {
            return false;
        }
        self.levels.first_where(span, bar_of(mode)).is_some()
    }

    /// The largest span that contains `required`, lies in `within`, and has no byte that conflicts
    /// with a lock of the mode on another node.
    pub fn free_around(&self, required: Span, within: Span, mode: Mode) -> Span
        requires starts_within { within.lo ≤ required.lo }
        requires ends_within { required.hi ≤ within.hi }
        requires free { NoneIn (λ b. level_conflicts (token_of self.now b) mode ≡ true) required }
        ensures largest { IsLargest (λ b. level_conflicts (token_of self.now b) mode ≡ true) required within result }
        ensures value { result ≡ largest_around (λ b. level_conflicts (token_of self.now b) mode) required within }
    {
        let _ = &required.lo; // tells the proof that the span has a byte
        if self.excludes_none(mode) {
            return within;
        }
        self.levels.largest_around(required, within, bar_of(mode))
    }

    /// The longest runs of bytes at one level, each with its level, in ascending order.
    pub fn runs(&self, alloc: Global) -> Result<Vec<(Span, Level)>, AllocError>
        ensures listed { IfOk result (λ runs. ListsRuns (token_of self.now) runs.items) }
        ensures bounded { IfOk result (λ runs. (b : ℕ) → greatest < b → token_of self.now b ≡ None) }
    {
        let mut runs = Vec::new(alloc);
        let mut from = 0;
        while let Some(next) = run_from(&self.levels, from) {
            let span = next.0;
            runs.push(next)?;
            from = span.hi + 1;
        }
        Ok(runs)
    }
}
