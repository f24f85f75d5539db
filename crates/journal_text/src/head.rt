//! The first line of a journal.
ghost use Rattle.std.specs.Prelude.{◌≡◌};
ghost use Rattle.messages.specs.rule.Shapes.{IsShape};
ghost use Rattle.texts.specs.rule.Reads.{Reads};
ghost use Rattle.journal_text.specs.rule.Journals.{head_front, head_text};

use lockscript::shape_operands;
use messages::{Shape, Version};
use texts::text::after;

/// The text with which the first line of a journal of this version begins.
pub(crate) fn head_front(version: Version) -> &'static str
    ensures { result.now ≡ head_front version }
{
    match version {
        Version::First => "journal 1 nodes ",
        Version::Second => "journal 2 nodes ",
    }
}

/// The shape that the line `journal V nodes N files F policy P` names; its version is V. `None` if
/// the line isn't one of these, V is neither 1 nor 2, or no cluster may have that shape.
pub fn head_of(line: &str) -> Option<Shape>
    ensures { Reads head_text IsShape line.now result }
{
    if let Some(operands) = after(line, head_front(Version::First)) {
        return shape_operands(Version::First, operands);
    }
    let operands = after(line, head_front(Version::Second))?;
    shape_operands(Version::Second, operands)
}
