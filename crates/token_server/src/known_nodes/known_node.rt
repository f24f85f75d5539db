//! A node, as the token server of a file knows it. A function here that gives a `Result` answers `AllocError` where a
//! request for memory was refused.
ghost use Rattle.std.specs.Prelude.{◌≡◌, ◌-◌, ◌≤◌, ◌↔◌, ◌||◌, true, IsTrue, IfOk, Some, None};
ghost use Rattle.std.specs.Option.{option_map};
ghost use Rattle.intervals.specs.rule.Bytes.{whole};
ghost use Rattle.model.specs.rule.Limits.{IsNumber, most_nodes};
ghost use Rattle.messages.specs.rule.Members.{members_state};
ghost use Rattle.token_server.specs.rule.Rows.{row_above, row_conflicts, outstanding_of};
ghost use Rattle.token_server.specs.rule.RowParts.{row_seen, SameKnown};
ghost use Rattle.token_server.specs.code.Rows.{answering, relieved, row_or_empty, row_after, dead_after, rebuilt_row, rebuilt_dead, seen_row, row_with, row_kept, row_promised};

use crate::known_nodes::commands::Commands;
use crate::known_nodes::known_change::KnownChange;
use crate::known_nodes::reports::token_told;
use crate::known_nodes::row_edit::RowAfter;
use crate::known_nodes::server_command::ServerCommand;
use crate::known_nodes::token_holder::{RowView, TokenHolder, excludes};
use intervals::span::Span;
use messages::{EpochNumber, FileNumber, Members, Message};
use model::{Host, Mode};
use std::alloc::{AllocError, Global};
use token_set::edit::TokenEdit;
use token_set::set::TokenSet;

/// A node, as the server of a file knows it: the greatest incarnation known to be dead (0 where none is), and the row
/// of a later incarnation, if that one asked for a token.
#[derive(Drop)]
pub struct KnownNode {
    pub dead: u16,
    pub row: Option<TokenHolder>,
}

impl KnownNode {
    /// A node, as a server that was rebuilt knows it. If the node is alive, its row has an outstanding Hello.
    pub fn rebuilt(
        alloc: Global,
        file: FileNumber,
        number: EpochNumber,
        node: u8,
        members: &Members,
    ) -> KnownNode
        requires { IsNumber (members_state members.now.nodes).nodes node × IsNumber most_nodes node }
        ensures row { row_seen result.row ≡ rebuilt_row file number members.now node }
        ensures dead { result.dead ≡ rebuilt_dead members.now node }
    {
        let row = match members.alive(node) {
            Some(incarnation) => Some(TokenHolder {
                commands: Commands::asking(file, number, Host { node, incarnation }),
                token: TokenSet::new(alloc),
            }),
            None => None,
        };
        KnownNode {
            dead: members.dead(node),
            row,
        }
    }

    /// The row of the node, if it has one.
    pub fn row_view(&self) -> Option<RowView<'_>>
        ensures { seen_row result ≡ row_seen self.now.row }
    {
        Some(self.row.as_ref()?.view())
    }

    /// Whether a quick look says that the change leaves the node as it is. `false` says nothing.
    pub fn stays(&self, change: &KnownChange) -> bool
        ensures row { result ≡ true → row_after change.now (row_seen self.now.row) ≡ row_seen self.now.row }
        ensures dead { result ≡ true → dead_after change.now self.now.dead ≡ self.now.dead }
    {
        match (change.dropped_to(), &self.row) {
            (Some(dropped), Some(row)) => {
                dropped <= self.dead && dropped < row.commands.incarnation()
            }
            _ => false,
        }
    }

    /// The row of the node after the change, or `None` where it has none then.
    pub fn row_after(
        &self,
        alloc: Global,
        change: &KnownChange,
    ) -> Result<Option<RowAfter>, AllocError>
        ensures { IfOk result (λ row. row_kept row self.now.row ≡ row_after change.now (row_seen self.now.row)) }
    {
        match change {
            KnownChange::Forgotten { incarnation } => Ok(self.row_above(*incarnation)),
            KnownChange::Asked { host, begin } => {
                Ok(Some(self.asking_row(alloc, host.incarnation, *begin)))
            }
            KnownChange::Answered => Ok(self.answered_row(None)),
            KnownChange::Relieved { span, mode } => self.relieved_row(*span, *mode),
            KnownChange::Reported { runs } => {
                Ok(self.answered_row(Some(token_told(alloc, runs)?)))
            }
        }
    }

    // The row, if it is of a later incarnation than this one.
    fn row_above(&self, incarnation: u16) -> Option<RowAfter>
        ensures { row_kept result self.now.row ≡ row_above incarnation (row_seen self.now.row) }
    {
        match &self.row {
            Some(row) if row.commands.incarnation() > incarnation => Some(RowAfter::Kept {
                commands: row.commands,
                token: TokenEdit::Same,
            }),
            _ => None,
        }
    }

    // The row, if it is of that incarnation (from 1) or a later one. Else an empty row of that incarnation, whose
    // commands begin after `begin`.
    fn asking_row(&self, alloc: Global, incarnation: u16, begin: u64) -> RowAfter
        requires { 1 ≤ incarnation }
        ensures { row_kept (Some result) self.now.row ≡ row_or_empty begin incarnation (row_above (incarnation - 1) (row_seen self.now.row)) }
    {
        match &self.row {
            Some(row) if row.commands.incarnation() >= incarnation => RowAfter::Kept {
                commands: row.commands,
                token: TokenEdit::Same,
            },
            _ => RowAfter::New(TokenHolder {
                commands: Commands::new(incarnation, begin),
                token: TokenSet::new(alloc),
            }),
        }
    }

    // The row after its command is answered, with that token if there is one.
    fn answered_row(&self, token: Option<TokenSet>) -> Option<RowAfter>
        ensures { row_kept result self.now.row ≡ option_map (answering token) (row_seen self.now.row) }
    {
        let commands = self.row.as_ref()?.commands.answered();
        let token = match token {
            Some(token) => TokenEdit::Whole(token),
            None => TokenEdit::Same,
        };
        Some(RowAfter::Kept { commands, token })
    }

    // The row after its command is answered by giving up the span for the mode.
    fn relieved_row(&self, span: Span, mode: Mode) -> Result<Option<RowAfter>, AllocError>
        ensures { IfOk result (λ after. row_kept after self.now.row ≡ option_map (relieved span mode) (row_seen self.now.row)) }
    {
        let Some(row) = &self.row else {
            return Ok(None);
        };
        Ok(Some(RowAfter::Kept {
            commands: row.commands.answered(),
            token: row.token.plan_lower(span, mode)?,
        }))
    }

    /// The row after the command is sent: `commands` stand in it, and its token is as the command promises.
    pub(crate) fn promised(
        &self,
        commands: Commands,
        command: &ServerCommand,
    ) -> Result<Option<RowAfter>, AllocError>
        ensures { IfOk result (λ after. row_kept after self.now.row ≡ row_promised commands command.now (row_seen self.now.row)) }
    {
        let Some(row) = &self.row else {
            return Ok(None);
        };
        let token = command.promised(&row.token)?;
        Ok(Some(RowAfter::Kept { commands, token }))
    }

    /// The row `after`, and then with the command sent: `commands` stand in it, and its token is as the command
    /// promises.
    pub(crate) fn promised_after(
        &self,
        after: &Option<RowAfter>,
        commands: Commands,
        command: &ServerCommand,
    ) -> Result<Option<RowAfter>, AllocError>
        ensures { IfOk result (λ both. row_kept both self.now.row ≡ row_promised commands command.now (row_kept after.now self.now.row)) }
    {
        match after {
            Some(after) => after.promised(&self.row, commands, command),
            None => Ok(None),
        }
    }

    /// Makes `after` the row of the node. Takes no memory.
    pub(crate) fn put(&mut self, after: Option<RowAfter>)
        ensures row { row_seen self.new.row ≡ row_kept after self.old.row }
        ensures dead { self.new.dead ≡ self.old.dead }
    {
        match after {
            Some(after) => self.replace(after),
            None => self.row = None,
        }
    }

    // Makes `after` the row of the node.
    fn replace(&mut self, after: RowAfter)
        ensures row { row_seen self.new.row ≡ row_with after self.old.row }
        ensures dead { self.new.dead ≡ self.old.dead }
    {
        match after {
            RowAfter::Kept { commands, token } => self.change(commands, token),
            RowAfter::New(row) => self.row = Some(row),
        }
    }

    // Puts the commands into the row and changes its token, if there is a row.
    fn change(&mut self, commands: Commands, token: TokenEdit)
        ensures row { row_seen self.new.row ≡ row_with (RowAfter.Kept commands token) self.old.row }
        ensures dead { self.new.dead ≡ self.old.dead }
    {
        if let Some(row) = &mut self.row {
            row.commands = commands;
            row.token.apply(token);
        }
    }

    /// The outstanding command to the node, if there is one.
    pub fn outstanding(&self) -> Option<Message>
        ensures { result ≡ outstanding_of (row_seen self.now.row) }
    {
        Some(self.row.as_ref()?.commands.outstanding?.message())
    }

    /// Whether `noted`, or a byte of the row's token is exclusive.
    pub fn notes_exclusive(&self, noted: bool) -> bool
        ensures { result ≡ (noted || row_conflicts (row_seen self.now.row) whole Mode.Read) }
    {
        noted || self.row.as_ref().is_some_and(|row| excludes(&row.token))
    }

    /// A copy, equal to this node.
    pub fn copy(&self) -> Result<KnownNode, AllocError>
        ensures { IfOk result (λ copy. copy ≡ self.now) }
    {
        let row = match &self.row {
            Some(row) => Some(row.copy()?),
            None => None,
        };
        Ok(KnownNode {
            dead: self.dead,
            row,
        })
    }

    /// Whether the server knows the same of both: equal rows and equal dead incarnations.
    pub fn same(&self, other: &KnownNode) -> bool
        ensures { IsTrue result ↔ SameKnown (Some self.now) (Some other.now) }
    {
        if self.dead != other.dead {
            return false;
        }
        match (&self.row, &other.row) {
            (Some(row), Some(next)) => row.same(next),
            (None, None) => true,
            _ => false,
        }
    }
}
