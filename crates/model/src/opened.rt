//! The thing that a descriptor refers to.
use crate::access::Access;

/// What a descriptor refers to: an open file description, by its number on the node (1 to 16,384),
/// with its file and access mode.
#[derive(Clone, Copy, Debug, PartialEq, Eq)]
pub struct Opened {
    pub file: u16,
    pub description: u16,
    pub access: Access,
}
