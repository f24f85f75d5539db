//! The names of nodes and token servers.

/// An actor: a node, by its number from 1, or the token server of a file, by the file's number from
/// 1.
#[derive(Clone, Copy, Debug, PartialEq, Eq)]
pub enum Actor {
    Node(u8),
    Server(u16),
}
