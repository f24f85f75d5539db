//! The change that an event makes in a world, as it is planned.
use messages::Sends;
use node_core::{Node, NodeChange};
use token_server::{Server, ServerChange};

/// The change that an event makes in a world: the step of the one actor that takes it.
#[derive(Drop)]
pub(crate) enum WorldChange {
    /// A step of the node. The entry names this incarnation, 0 for none.
    OfNode {
        node: u8,
        incarnation: u16,
        change: NodeChange,
    },
    /// A step of the token server of the file.
    OfServer {
        file: u16,
        change: ServerChange,
    },
    /// The declaration that the node failed.
    Declared {
        node: u8,
    },
    /// The restart of the node, with the state in which it begins. (In a box, because a
    /// change is handed on for each event.)
    Restarted {
        node: u8,
        begun: Box<Node>,
    },
    /// The declaration that the token server of the file failed.
    Failed {
        file: u16,
    },
    /// The start of the token server of the file, with the state in which it begins, and the messages in which it
    /// asks the nodes for their tokens.
    Started {
        file: u16,
        begun: Box<Server>,
        sends: Sends,
    },
}
