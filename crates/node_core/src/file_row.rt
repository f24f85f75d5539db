//! What a node knows of one file.
//!
//! Each function here that can fail errs with `AllocError`, where a request for memory was refused.
ghost use Rattle.std.specs.Prelude.{◌≡◌, ◌↔◌, false, IfOk, IsTrue};
ghost use Rattle.token_set.specs.rule.Tokens.{token_of};
ghost use Rattle.messages.specs.rule.Messages.{runs_of};
ghost use Rattle.node_core.specs.rule.State.{first_file};
ghost use Rattle.node_core.specs.rule.Answers.{answer_of};
ghost use Rattle.node_core.specs.rule.Commands.{is_conflict, renewed};
ghost use Rattle.node_core.specs.rule.Files.{state_of};
ghost use Rattle.node_core.specs.rule.Parts.{granted_file, revoked_file};
ghost use Rattle.node_core.specs.code.Plans.{first_row, file_after};

use crate::answer::Answer;
use crate::numbers::begin_of;
use crate::token_command::TokenCommand;
use intervals::span::Span;
use messages::TokenRuns;
use model::Host;
use std::alloc::{AllocError, Global};
use token_set::edit::TokenEdit;
use token_set::gave_up::GaveUp;
use token_set::set::TokenSet;

/// What a node knows of one file: its token; the number of the last command that it did (0 at
/// first; once it has heard of a later epoch, the number after which that epoch's commands begin);
/// its answer to that command; and whether it owes the server a Freed, since it named one of its
/// locks in the way and sent no Freed after that.
#[derive(Drop)]
pub struct FileRow {
    pub token: TokenSet,
    pub last: u64,
    pub answer: Option<Answer>,
    pub owes_freed: bool,
}

/// What a command changes at its file: the token, the number and the answer of the last command,
/// and whether a Freed is owed.
#[derive(Drop)]
pub struct FileEdit {
    pub file: u16,
    pub token: TokenEdit,
    pub last: u64,
    pub answer: Option<Answer>,
    pub owes_freed: bool,
}

// Whether both stand for the same message, or for none.
fn same_answers(one: Option<Answer>, other: Option<Answer>) -> bool
    ensures { IsTrue result ↔ (answer_of one ≡ answer_of other) }
{
    match (one, other) {
        (Some(answer), Some(next)) => answer.message().same(&next.message()),
        (None, None) => true,
        _ => false,
    }
}

// Whether the answer names a lock in the way.
fn is_conflict(gives: &GaveUp) -> bool
    ensures { result ≡ is_conflict gives.now }
{
    match gives {
        GaveUp::Released(_) => false,
        GaveUp::Conflict(_) => true,
    }
}

impl FileRow {
    /// The row of a file that the node knows nothing of: no token, and no command yet.
    pub fn new(alloc: Global) -> FileRow
        ensures state { state_of result ≡ first_file }
        ensures row { result ≡ first_row }
    {
        FileRow {
            token: TokenSet::new(alloc),
            last: 0,
            answer: None,
            owes_freed: false,
        }
    }

    /// The change by which the node enters the epoch of a command: if it is later than the one of
    /// the last command, older commands and the remembered answer don't count any longer. Takes no
    /// memory.
    pub fn plan_renewal(&self, file: u16, number: u64) -> FileEdit
        ensures file { result.file ≡ file }
        ensures state { file_after self.now result ≡ renewed (state_of self.now) number }
    {
        let begin = begin_of(number);
        let (last, answer) = if self.last < begin {
            (begin, None)
        } else {
            (self.last, self.answer)
        };
        FileEdit {
            file,
            token: TokenEdit::Same,
            last,
            answer,
            owes_freed: self.owes_freed,
        }
    }

    /// The change by a grant: the token is raised, and the answer is remembered.
    pub fn plan_grant(&self, command: &TokenCommand, span: Span) -> Result<FileEdit, AllocError>
        ensures file { IfOk result (λ edit. edit.file ≡ command.now.file) }
        ensures state { IfOk result (λ edit. file_after self.now edit ≡ granted_file (state_of self.now) command.now span) }
    {
        Ok(FileEdit {
            file: command.file.get(),
            token: self.token.plan_grant(span, command.mode)?,
            last: command.number.get(),
            answer: Some(command.taken()),
            owes_freed: self.owes_freed,
        })
    }

    /// The change by a revoke, with the holder's answer `gives`: a span that is given up is lowered
    /// in the token; the answer is remembered; and a Freed is owed if the answer names a lock.
    pub fn plan_revoke(
        &self,
        command: &TokenCommand,
        holder: Host,
        gives: &GaveUp,
    ) -> Result<FileEdit, AllocError>
        ensures file { IfOk result (λ edit. edit.file ≡ command.now.file) }
        ensures state { IfOk result (λ edit. file_after self.now edit ≡ revoked_file (state_of self.now) command.now holder gives.now) }
    {
        Ok(FileEdit {
            file: command.file.get(),
            token: self.token.plan_give_up(command.mode, gives)?,
            last: command.number.get(),
            answer: Some(command.answer(holder, *gives)),
            owes_freed: is_conflict(gives) || self.owes_freed,
        })
    }

    /// Makes a planned change. Takes no memory.
    pub fn apply(&mut self, edit: FileEdit)
        ensures { state_of self.new ≡ file_after self.old edit }
    {
        let FileEdit {
            token,
            last,
            answer,
            owes_freed,
            ..
        } = edit;
        self.token.apply(token);
        self.last = last;
        self.answer = answer;
        self.owes_freed = owes_freed;
    }

    /// Notes that no Freed is owed for the file any longer.
    pub fn clear_owed(&mut self)
        ensures { state_of self.new ≡ record (state_of self.old) { owes_freed = false } }
    {
        self.owes_freed = false;
    }

    /// An equal row.
    pub fn copy(&self) -> Result<FileRow, AllocError>
        ensures { IfOk result (λ copy. copy ≡ self.now) }
    {
        Ok(FileRow {
            token: self.token.copy()?,
            last: self.last,
            answer: self.answer,
            owes_freed: self.owes_freed,
        })
    }

    /// Whether both rows say the same of the file.
    pub fn same(&self, other: &FileRow) -> bool
        ensures { IsTrue result ↔ (state_of self.now ≡ state_of other.now) }
    {
        if self.last != other.last || self.owes_freed != other.owes_freed {
            return false;
        }
        if !same_answers(self.answer, other.answer) {
            return false;
        }
        self.token.same(&other.token)
    }
}

/// The longest runs of the token, as a report has them.
pub fn runs_of(alloc: Global, token: &TokenSet) -> Result<TokenRuns, AllocError>
    ensures { IfOk result (λ runs. runs ≡ runs_of (token_of token.now)) }
{
    let runs = token.runs(alloc)?;
    TokenRuns::of(alloc, &runs)
}
