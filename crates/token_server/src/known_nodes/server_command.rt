//! The commands of a token server: grants, revokes and hellos, as the server keeps them while they have no answer. A
//! function here that gives a `Result` answers `AllocError` where a request for memory was refused.
ghost use Rattle.std.specs.Prelude.{◌≡◌, ◌≤◌, IfOk, IfSome, Some};
ghost use Rattle.token_set.specs.rule.Tokens.{token_of};
ghost use Rattle.token_set.specs.code.Edits.{edited as edited_token};
ghost use Rattle.token_server.specs.rule.Rows.{is_hello, is_grant, revoked_mode, asks_token};
ghost use Rattle.token_server.specs.code.Orders.{message_of};
ghost use Rattle.token_server.specs.code.Rows.{promised, bars};

use intervals::span::Span;
use messages::{CommandNumber, EpochNumber, FileNumber, Message, Wanted};
use model::{CallId, Host, Mode};
use std::alloc::AllocError;
use std::marker::Model;
use token_set::edit::TokenEdit;
use token_set::set::TokenSet;

/// The order of a command: what the node is to do.
#[derive(Clone, Copy)]
pub enum Order {
    /// Raise the node's token on the span to the level of the mode: grants the call's request.
    Grant {
        number: CommandNumber,
        call: CallId,
        mode: Mode,
        span: Span,
    },
    /// Give up the bytes that the call needs.
    Revoke {
        number: CommandNumber,
        holder: Host,
        call: CallId,
        mode: Mode,
        wanted: Wanted,
    },
    /// Report the token that the node has to a server that was rebuilt.
    Hello {
        number: EpochNumber,
        holder: Host,
    },
}

/// A command of the server of a file. Contracts see it as the message that is sent. Copying it takes no memory,
/// unlike copying a message.
#[derive(Clone, Copy)]
pub struct ServerCommand {
    file: FileNumber,
    order: Order,
}

impl Model for ServerCommand {
    ghost use Rattle.messages.specs.declared.message.Message.{Message};

    ghost Value = { Message };

    ghost use Rattle.messages.specs.rule.Messages.{file_of};
    ghost use Rattle.token_server.specs.code.Orders.{message_of, order_of};
    ghost use Rattle.std.proofs.Common.{rules};

    ghost view = { λ c. message_of c.file c.order };

    ghost inverse = { λ m. record { file = file_of m; order = order_of m } };

    ghost inverse_ok = { Prim.search rules };
}

impl ServerCommand {
    /// The command of the file's server that gives the order.
    pub fn of(file: FileNumber, order: Order) -> ServerCommand
        ensures { result ≡ message_of file order }
    {
        ServerCommand { file, order }
    }

    /// The command as a message. Takes no memory.
    pub fn message(self) -> Message
        ensures { result ≡ self }
    {
        message_of(self.file, self.order)
    }

    /// Whether the command is the Grant with that number.
    pub fn is_grant(&self, number: u64) -> bool
        ensures { result ≡ is_grant number (Some self.now) }
    {
        matches!(&self.order, Order::Grant { number: own, .. } if own.get() == number)
    }

    /// The mode that the command revokes, if it is the Revoke with that number.
    pub fn revoked_mode(&self, number: u64) -> Option<Mode>
        ensures { result ≡ revoked_mode number (Some self.now) }
    {
        match &self.order {
            Order::Revoke {
                number: own,
                mode,
                ..
            } if own.get() == number => Some(*mode),
            _ => None,
        }
    }

    /// Whether the command is the Hello with that number, which asks a node for its token.
    pub fn asks_token(&self, number: u64) -> bool
        ensures { result ≡ asks_token number (Some self.now) }
    {
        matches!(&self.order, Order::Hello { number: own, .. } if own.get() == number)
    }

    /// Whether the command is a Hello, which asks a node for its token.
    pub fn is_hello(&self) -> bool
        ensures { result ≡ is_hello (Some self.now) }
    {
        matches!(&self.order, Order::Hello { .. })
    }

    /// The span that the command grants, if it is a Grant and its mode conflicts with this one.
    pub fn granted(&self, mode: Mode) -> Option<Span>
        ensures value { result ≡ bars self.now mode }
        ensures ordered { IfSome result (λ s. s.lo ≤ s.hi) }
    {
        match &self.order {
            Order::Grant {
                mode: own,
                span,
                ..
            } if own.excludes(mode) => {
                let _ = &span.lo; // tells the proof that the span has a byte
                Some(*span)
            }
            _ => None,
        }
    }

    /// The change that sending the command makes of the token that the server notes for the node: a Grant raises it,
    /// any other leaves it.
    pub fn promised(&self, token: &TokenSet) -> Result<TokenEdit, AllocError>
        ensures { IfOk result (λ edit. edited_token edit token.now ≡ promised self.now (token_of token.now)) }
    {
        match &self.order {
            Order::Grant { mode, span, .. } => token.plan_grant(*span, *mode),
            _ => Ok(TokenEdit::Same),
        }
    }

    /// The change of `edit` and then that of sending the command, as one change of the token.
    pub(crate) fn promised_after(
        &self,
        token: &TokenSet,
        edit: &TokenEdit,
    ) -> Result<TokenEdit, AllocError>
        ensures { IfOk result (λ both. edited_token both token.now ≡ promised self.now (edited_token edit.now token.now)) }
    {
        match &self.order {
            Order::Grant { mode, span, .. } => token.plan_grant_after(edit, *span, *mode),
            _ => token.plan_again(edit),
        }
    }
}

// The message of the command of the file's server that gives the order.
fn message_of(file: FileNumber, order: Order) -> Message
    ensures { result ≡ message_of file order }
{
    match order {
        Order::Grant {
            number,
            call,
            mode,
            span,
        } => Message::Grant {
            file,
            number,
            call,
            mode,
            span,
        },
        Order::Revoke {
            number,
            holder,
            call,
            mode,
            wanted,
        } => Message::Revoke {
            file,
            number,
            holder,
            call,
            mode,
            wanted,
        },
        Order::Hello { number, holder } => Message::Hello {
            file,
            number,
            holder,
        },
    }
}
