//! The change that a step makes of its actor's state.
use node_core::NodeEdit;
use token_server::ServerEdit;

/// The change that a step makes of the state of a node or a token server. It fits the state from which it was
/// planned. (It is in a box, because it is handed on by value.)
#[derive(Drop)]
pub(crate) enum StateEdit {
    Node(Box<NodeEdit>),
    Server(Box<ServerEdit>),
}
