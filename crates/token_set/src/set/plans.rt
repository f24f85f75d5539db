//! The planned changes of a token, and the token after one.
ghost use Rattle.std.specs.Prelude.{◌≡◌, ◌<◌, true, Some, None, IfOk};
ghost use Rattle.intervals.specs.code.Edits.{written};
ghost use Rattle.token_set.specs.rule.Tokens.{covers, raised, conflicts, token_of, lowered, after_giving_up};
ghost use Rattle.token_set.specs.code.Edits.{edited};

use super::{TokenSet, is_served, shared, unexclusive};
use crate::edit::TokenEdit;
use crate::gave_up::GaveUp;
use intervals::span::Span;
use intervals::span_edit::SpanEdit;
use intervals::span_map::SpanMap;
use model::{Level, Mode};
use std::alloc::AllocError;

impl TokenSet {
    // Plans to raise each byte of the span without a level to shared. If no byte of the span is
    // exclusive the span is written, else the levels are made anew.
    fn plan_shared(&self, span: Span) -> Result<TokenEdit, AllocError>
        ensures { IfOk result (λ edit. edited edit self.now ≡ raised (token_of self.now) span Mode.Read) }
    {
        if self.conflicts(span, Mode::Read) {
            let levels = shared(&self.levels, span)?;
            return Ok(TokenEdit::Whole(TokenSet::of(levels)));
        }
        Ok(TokenEdit::Write(self.levels.plan(span, Some(Level::Shared))?))
    }

    // Plans to lower each exclusive byte of the span to shared. If all bytes of the span are
    // exclusive it is written, else the levels are made anew, if some byte is exclusive.
    fn plan_unexclusive(&self, span: Span) -> Result<TokenEdit, AllocError>
        ensures { IfOk result (λ edit. edited edit self.now ≡ lowered (token_of self.now) span Mode.Read) }
    {
        if self.levels.covers(span, Level::Exclusive) {
            return Ok(TokenEdit::Write(self.levels.plan(span, Some(Level::Shared))?));
        }
        if !self.conflicts(span, Mode::Read) {
            return Ok(TokenEdit::Same);
        }
        let levels = unexclusive(&self.levels, span)?;
        Ok(TokenEdit::Whole(TokenSet::of(levels)))
    }

    /// The change that `grant` makes.
    pub fn plan_grant(&self, span: Span, mode: Mode) -> Result<TokenEdit, AllocError>
        ensures { IfOk result (λ edit. edited edit self.now ≡ raised (token_of self.now) span mode) }
    {
        match mode {
            Mode::Read => self.plan_shared(span),
            Mode::Write => Ok(TokenEdit::Write(self.levels.plan(span, Some(Level::Exclusive))?)),
        }
    }

    /// The change that lowers each byte of the span: for write to none; for read from exclusive to
    /// shared, so that a byte without a level stays without one.
    pub fn plan_lower(&self, span: Span, mode: Mode) -> Result<TokenEdit, AllocError>
        ensures { IfOk result (λ edit. edited edit self.now ≡ lowered (token_of self.now) span mode) }
    {
        match mode {
            Mode::Read => self.plan_unexclusive(span),
            Mode::Write => Ok(TokenEdit::Write(self.levels.plan(span, None)?)),
        }
    }

    /// The change that `give_up` makes where its answer is `gives`.
    pub fn plan_give_up(&self, mode: Mode, gives: &GaveUp) -> Result<TokenEdit, AllocError>
        ensures { IfOk result (λ edit. edited edit self.now ≡ after_giving_up (token_of self.now) mode gives.now) }
    {
        match *gives {
            GaveUp::Released(span) => self.plan_lower(span, mode),
            GaveUp::Conflict(_) => Ok(TokenEdit::Same),
        }
    }

    /// The change that makes of this token what `edit` makes of it. If `edit` writes a span, no
    /// level is copied.
    pub fn plan_again(&self, edit: &TokenEdit) -> Result<TokenEdit, AllocError>
        ensures { IfOk result (λ again. edited again self.now ≡ edited edit.now self.now) }
    {
        match edit {
            TokenEdit::Same => Ok(TokenEdit::Same),
            TokenEdit::Write(write) if self.levels.fits(write) => {
                Ok(TokenEdit::Write(self.levels.plan(write.span, write.value)?))
            }
            TokenEdit::Write(_) => Ok(TokenEdit::Same),
            TokenEdit::Whole(token) => Ok(TokenEdit::Whole(token.copy()?)),
        }
    }

    /// The change that makes `edit` first and then the change of `grant`. If `edit` changes the
    /// token, the token is made anew.
    pub fn plan_grant_after(
        &self,
        edit: &TokenEdit,
        span: Span,
        mode: Mode,
    ) -> Result<TokenEdit, AllocError>
        ensures { IfOk result (λ both. edited both self.now ≡ raised (edited edit.now self.now) span mode) }
    {
        if let TokenEdit::Same = edit {
            return self.plan_grant(span, mode);
        }
        let mut token = self.after(edit)?;
        token.grant(span, mode)?;
        Ok(TokenEdit::Whole(token))
    }

    // A token of its own that has the levels of this one after the write.
    fn written(&self, write: &SpanEdit<Level>) -> Result<TokenSet, AllocError>
        ensures { IfOk result (λ token. token_of token ≡ written write.now self.now) }
    {
        let mut levels = self.levels.copy()?;
        if self.levels.fits(write) {
            match write.value {
                Some(level) => levels.set(write.span, level)?,
                None => levels.clear(write.span)?,
            }
        }
        Ok(TokenSet::of(levels))
    }

    /// A token of its own that has the levels of this one after the change; this token stays as it
    /// is.
    pub fn after(&self, edit: &TokenEdit) -> Result<TokenSet, AllocError>
        ensures { IfOk result (λ token. token_of token ≡ edited edit.now self.now) }
    {
        match edit {
            TokenEdit::Same => self.copy(),
            TokenEdit::Write(write) => self.written(write),
            TokenEdit::Whole(token) => token.copy(),
        }
    }

    /// Whether the token covers the span for the mode after the change. If the change gives each
    /// byte of the span a level that serves the mode, this takes no memory and no time.
    pub fn covers_after(&self, edit: &TokenEdit, span: Span, mode: Mode) -> Result<bool, AllocError>
        ensures { IfOk result (λ yes. yes ≡ covers (edited edit.now self.now) span mode) }
    {
        match edit {
            TokenEdit::Same => Ok(self.covers(span, mode)),
            TokenEdit::Write(write) => {
                if self.levels.fits(write) && is_served(write, span, mode) {
                    return Ok(true);
                }
                Ok(self.written(write)?.covers(span, mode))
            }
            TokenEdit::Whole(token) => Ok(token.covers(span, mode)),
        }
    }
}
