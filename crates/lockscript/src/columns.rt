//! The columns of listings: texts that are filled up with spaces to a width.
ghost use Rattle.std.specs.Prelude.{◌≡◌, ◌≤◌, ◌-◌, ◌++◌, codes, decimal, replicate, string_bytes, string_len, OnOk};
ghost use Rattle.lockscript.specs.rule.Layout.{left_in, right_in};
ghost use Rattle.texts.specs.rule.Layout.{space};
ghost use Rattle.lockscript.specs.rule.Listing.{placed, span_columns};
ghost use Rattle.message_text.specs.rule.Texts.{call_text, host_text};

use intervals::span::Span;
use itoa::Buffer;
use message_text::{CallName, push_host};
use model::CallId;
use std::alloc::AllocError;
use std::fmt::Write;
use texts::text::Text;

/// The width of a column of positions.
const POSITION_WIDTH: usize = 7;

/// The width of a column of calls, or of owners.
const NAME_WIDTH: usize = 16;

/// The width of a column of nodes with their incarnations.
const HOST_WIDTH: usize = 8;

/// The width of a column of files.
const FILE_WIDTH: usize = 3;

/// The width of a column of bytes of files, the widest of all.
const BYTE_WIDTH: usize = 19;

/// A text of as many spaces as the widest column has.
const SPACES: &str = "                   ";

// Adds `count` spaces.
fn push_spaces(out: &mut String, count: usize) -> Result<(), AllocError>
    requires { count ≤ 19 }
    ensures { OnOk result (string_bytes out.new ≡ string_bytes out.old ++ replicate count space) }
{
    out.push_str(&SPACES[..count])
}

// Fills up with spaces the column of this width that begins at byte `start` of the text.
fn fill_column(out: &mut String, start: usize, width: usize) -> Result<(), AllocError>
    requires begun { start ≤ string_len out.old }
    requires width { width ≤ 19 }
    ensures { OnOk result (string_bytes out.new ≡ string_bytes out.old ++ replicate (width - (string_len out.old - start)) space) }
{
    let written = out.len() - start;
    push_spaces(out, width.saturating_sub(written))
}

// Adds a number at the right end of a column of this width.
#[tactic(auto, unfolding(crate::specs::rule::Layout::right_in))]
fn push_right(out: &mut String, number: u64, width: usize) -> Result<(), AllocError>
    requires { width ≤ 19 }
    ensures { OnOk result (string_bytes out.new ≡ string_bytes out.old ++ right_in width (decimal number)) }
{
    let mut buffer = Buffer::new();
    let digits = buffer.format(number);
    push_spaces(out, width.saturating_sub(digits.len()))?;
    out.push_str(digits)
}

/// Adds the name of a call or of an owner, at the left end of its column.
#[tactic(auto, unfolding(crate::specs::rule::Layout::left_in))]
pub(crate) fn push_name_column<F: Text>(out: &mut String, name: &F::Value) -> Result<(), AllocError>
    ensures { OnOk result (string_bytes out.new ≡ string_bytes out.old ++ left_in 16 (F.text_of name.now)) }
{
    let start = out.len();
    F::write(name, out)?;
    fill_column(out, start, NAME_WIDTH)
}

/// Adds a node with its incarnation, at the left end of its column.
#[tactic(auto, unfolding(crate::specs::rule::Layout::left_in))]
pub(crate) fn push_host_column(
    out: &mut String,
    node: u8,
    incarnation: u16,
) -> Result<(), AllocError>
    ensures { OnOk result (string_bytes out.new ≡ string_bytes out.old ++ left_in 8 (host_text node incarnation)) }
{
    let start = out.len();
    push_host(out, node, incarnation)?;
    fill_column(out, start, HOST_WIDTH)
}

/// Adds a position at the right end of its column, and a space.
pub(crate) fn push_position(out: &mut String, position: u64) -> Result<(), AllocError>
    ensures { OnOk result (string_bytes out.new ≡ string_bytes out.old ++ right_in 7 (decimal position) ++ codes " ") }
{
    push_right(out, position, POSITION_WIDTH)?;
    out.push_str(" ")
}

/// Adds a position and the name of a call, each in its column with a space behind it.
pub(crate) fn push_placed(out: &mut String, position: u64, call: &CallId) -> Result<(), AllocError>
    ensures { OnOk result (string_bytes out.new ≡ string_bytes out.old ++ placed position (call_text call.now)) }
{
    push_position(out, position)?;
    push_name_column::<CallName>(out, call)?;
    out.push_str(" ")
}

/// Adds the columns of a file and of the first and the last byte of a span in it, and then a word
/// and the end of the line.
pub(crate) fn push_span_line(
    out: &mut String,
    file: u16,
    span: Span,
    word: &str,
) -> Result<(), AllocError>
    ensures { OnOk result (string_bytes out.new ≡ string_bytes out.old ++ codes " " ++ span_columns file span ++ word.now ++ codes "\n") }
{
    out.push_str(" ")?;
    push_right(out, u64::from(file), FILE_WIDTH)?;
    out.push_str(" ")?;
    push_right(out, span.lo, BYTE_WIDTH)?;
    out.push_str(" ")?;
    push_right(out, span.hi, BYTE_WIDTH)?;
    writeln!(out, " {word}")
}
