//! A run of a token as the listing of a cluster's tokens shows it.
use intervals::span::Span;
use model::Level;

/// A longest run of bytes of a file that the token of a live node has at one level. Nodes, incarnations and files
/// count from 1.
#[derive(Clone, Copy, Debug, PartialEq, Eq)]
pub struct NodeTokenRun {
    pub node: u8,
    pub incarnation: u16,
    pub file: u16,
    pub span: Span,
    pub level: Level,
}
