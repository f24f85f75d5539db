//! A call of a client, as the client saw it.
use crate::act::Act;
use model::Owner;

/// A call of a client about a file: when it began and, where it has a reply, when it ended, by one clock. A call
/// without a reply may have happened at any time since it began, or never. The last call of an owner is its exit: no
/// other call of that owner stands behind it. What a lock manager does in two steps is two calls, of which the second
/// follows the first.
#[derive(Clone, Copy, Debug, PartialEq, Eq)]
pub struct ClientCall {
    pub owner: Owner,
    pub begin: u64,
    pub end: Option<u64>,
    pub act: Act,
    pub is_last: bool,
    /// The index of the call behind which this one stands, where it is the second of two steps.
    pub follows: Option<usize>,
}
