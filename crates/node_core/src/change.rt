//! A planned step of a node: its change and its outcome.
ghost use Rattle.std.specs.Prelude.{◌≡◌};

use crate::node_edit::NodeEdit;
use messages::Outcome;

/// A planned step of a node: what it changes, in a box, because many calls hand it up by value, and its outcome.
#[derive(Drop)]
pub struct NodeChange {
    pub edit: Box<NodeEdit>,
    pub outcome: Outcome,
}

impl NodeChange {
    /// The outcome of the step.
    pub fn outcome(&self) -> &Outcome
        ensures { result.now ≡ self.now.outcome }
    {
        &self.outcome
    }
}
