//! The cluster line of a script, which names the shape of a cluster.
ghost use Rattle.std.specs.Prelude.{codes};
ghost use Rattle.texts.specs.rule.Reads.{Reads};
ghost use Rattle.lockscript.specs.rule.Scripts.{IsScriptShape, IsShapeOf, counts_text, shape_text};

use message_text::{FileField, NodeField};
use messages::{Shape, Version};
use model::Policy;
use texts::front::{After, Front};
use texts::text::{Text, after};

struct FilesWord;

impl Front for FilesWord {
    ghost front = { codes "files " };

    fn front_text() -> &'static str {
        "files "
    }
}

struct PolicyWord;

impl Front for PolicyWord {
    ghost front = { codes "policy " };

    fn front_text() -> &'static str {
        "policy "
    }
}

/// The operands of the cluster line: `N files F policy P`.
type ClusterCounts = (
    NodeField,
    After<FilesWord, (FileField, After<PolicyWord, Policy>)>,
);

/// The shape, of version 2, that the line `cluster nodes N files F policy P` names; `None` if the
/// line isn't one of these, or no cluster may have that shape.
pub fn shape_of(line: &str) -> Option<Shape>
    ensures { Reads shape_text IsScriptShape line.now result }
{
    let operands = after(line, "cluster nodes ")?;
    shape_operands(Version::Second, operands)
}

/// The shape, of this version, that the text `N files F policy P` names; `None` if the text isn't
/// one of these, or no cluster may have that shape.
pub fn shape_operands(version: Version, text: &str) -> Option<Shape>
    ensures { Reads counts_text (IsShapeOf version) text.now result }
{
    let (nodes, (files, policy)) = ClusterCounts::read(text)?;
    Shape::of(version, nodes, files, policy).ok()
}
