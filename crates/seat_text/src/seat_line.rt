//! The lines that a seat reads.
ghost use Rattle.std.specs.Prelude.{◌≡◌, IfOk};
ghost use Rattle.seat_text.specs.rule.SeatLines.{IsServedLine, column_of, has_operands, line_text, order_of, tag_of};
ghost use Rattle.texts.specs.rule.Reads.{Reads};

use lockscript::Operation;
use message_text::{FileField, NodeField, PidField, WrittenMessage, message_of};
use messages::{Event, MemberEvent, NodeInput, ServerInput, SharedMessage, Version};
use model::Op;
use seats::order::Order;
use std::alloc::{AllocError, Global};
use texts::number::Within;
use texts::text::{Text, split_field};

/// A line that a seat reads.
#[derive(Drop)]
pub enum SeatLine<'a> {
    /// A process of the node makes a call.
    Call {
        node: u8,
        pid: u16,
        op: Op,
    },
    /// The same, with a number that comes back with the reply.
    Tagged {
        tag: u64,
        node: u8,
        pid: u16,
        op: Op,
    },
    /// The message comes to the actor.
    Deliver(WrittenMessage<'a>),
    /// The open wait of the process is interrupted.
    Interrupt {
        node: u8,
        pid: u16,
    },
    /// The open call of the process is tried again.
    Retry {
        node: u8,
        pid: u16,
    },
    /// The token server sends again what has no answer.
    Resend {
        file: u16,
    },
    /// The node is declared failed.
    Declare {
        node: u8,
    },
    /// The node begins again.
    Restart {
        node: u8,
    },
    /// The token server of the file is declared failed.
    FailServer {
        file: u16,
    },
    /// The token server of the file begins again.
    StartServer {
        file: u16,
    },
    /// A tick goes by.
    Tick,
}

impl SeatLine<'_> {
    /// The number that comes back with the reply, where the line has one.
    pub fn tag(&self) -> Option<u64>
        ensures { result ≡ tag_of self.now }
    {
        match self {
            SeatLine::Tagged { tag, .. } => Some(*tag),
            _ => None,
        }
    }

    /// What the line tells the seat.
    ///
    /// # Errors
    /// `AllocError` where a request for memory was refused.
    pub fn order(self, alloc: Global) -> Result<Order, AllocError>
        ensures { IfOk result (λ order. order ≡ order_of self.entry) }
    {
        Ok(match self {
            SeatLine::Tick => Order::Tick,
            SeatLine::Deliver(message) => {
                Order::Happens(Event::Deliver(SharedMessage::new(alloc, message.message(alloc)?)?))
            }
            SeatLine::Call { node, pid, op } | SeatLine::Tagged { node, pid, op, .. } => {
                Order::Happens(Event::AtNode(node, NodeInput::Call { pid, op }))
            }
            SeatLine::Interrupt { node, pid } => {
                Order::Happens(Event::AtNode(node, NodeInput::Interrupt { pid }))
            }
            SeatLine::Retry { node, pid } => {
                Order::Happens(Event::AtNode(node, NodeInput::Retry { pid }))
            }
            SeatLine::Resend { file } => {
                Order::Happens(Event::AtServer(file, ServerInput::Resend))
            }
            SeatLine::Declare { node } => {
                Order::Happens(Event::Member(MemberEvent::Declare { node }))
            }
            SeatLine::Restart { node } => {
                Order::Happens(Event::Member(MemberEvent::Restart { node }))
            }
            SeatLine::FailServer { file } => {
                Order::Happens(Event::Member(MemberEvent::FailServer { file }))
            }
            SeatLine::StartServer { file } => {
                Order::Happens(Event::Member(MemberEvent::StartServer { file }))
            }
        })
    }
}

/// A number of 64 bits, from 1: a tag, or a column.
pub(crate) type WideField = Within<u64, 1, 18_446_744_073_709_551_615>;

/// The operands of `call`: `N PID OP`.
type CallFields = (NodeField, (PidField, Operation));

/// The operands of `tagged`: `TAG N PID OP`.
type TaggedFields = (WideField, CallFields);

/// The operands of `interrupt` and `retry`: `N PID`.
type ProcessFields = (NodeField, PidField);

/// The line whose text this is; `None` if it is none that a seat reads.
pub fn seat_line_of(line: &str) -> Option<SeatLine<'_>>
    ensures { Reads line_text IsServedLine line.now result }
{
    match split_field(line) {
        Some((word, operands)) => match word {
            "call" => CallFields::read(operands).map(|(node, (pid, op))| SeatLine::Call {
                node,
                pid,
                op,
            }),
            "tagged" => TaggedFields::read(operands).map(|(
                tag,
                (node, (pid, op)),
            )| SeatLine::Tagged { tag, node, pid, op }),
            "deliver" => message_of(Version::Second, operands).map(|message| SeatLine::Deliver(
                message,
            )),
            "interrupt" => ProcessFields::read(operands).map(|(node, pid)| SeatLine::Interrupt {
                node,
                pid,
            }),
            "retry" => ProcessFields::read(operands).map(|(node, pid)| SeatLine::Retry {
                node,
                pid,
            }),
            "resend" => FileField::read(operands).map(|file| SeatLine::Resend { file }),
            "declare" => NodeField::read(operands).map(|node| SeatLine::Declare { node }),
            "restart" => NodeField::read(operands).map(|node| SeatLine::Restart { node }),
            "fail-server" => FileField::read(operands).map(|file| SeatLine::FailServer { file }),
            "start-server" => FileField::read(operands).map(|file| SeatLine::StartServer { file }),
            _ => None,
        },
        None => match line {
            "tick" => Some(SeatLine::Tick),
            _ => None,
        },
    }
}

/// The byte of the line, from 1, at which what may not stand there begins: the operands behind its first word, or that word.
#[tactic(auto, using(crate::proofs::SeatLines::column_behind, crate::proofs::SeatLines::column_alone))]
pub(crate) fn bad_column(line: &str) -> usize
    ensures { result ≡ column_of line.now }
{
    match split_field(line) {
        Some((word, _)) if has_operands(word) => word.len() + 2,
        _ => 1,
    }
}

// Whether lines with operands begin with the word.
fn has_operands(word: &str) -> bool
    ensures { result ≡ has_operands word.now }
{
    matches!(
        word,
        "call"
            | "tagged"
            | "deliver"
            | "interrupt"
            | "retry"
            | "resend"
            | "declare"
            | "restart"
            | "fail-server"
            | "start-server"
    )
}
