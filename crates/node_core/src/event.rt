//! The events of a node: what can happen to it.
use messages::{Message, NodeInput};

/// An event of a node.
#[derive(PartialEq, Eq, Drop)]
pub enum NodeEvent {
    /// What comes to the node beside messages.
    Input(NodeInput),
    /// A message for the node is delivered.
    Deliver(Message),
}
