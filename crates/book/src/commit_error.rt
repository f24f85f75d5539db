//! The reasons why a step is not committed.
use thiserror::Error;

/// The reason why a commit is refused.
#[derive(Clone, Copy, Debug, PartialEq, Eq, Error)]
pub enum CommitError {
    /// A request for memory was refused.
    #[error("no memory")]
    NoMemory,
    /// The event names what the cluster doesn't have, a message that was never sent, or an incarnation that wasn't
    /// declared failed.
    #[error("not of this cluster")]
    Stranger,
    /// The incarnation of the seat's node, or the epoch of its token server, was declared failed.
    #[error("the node or the token server was declared failed")]
    Fenced,
    /// The journal has 1,048,576 entries, the most that it may have.
    #[error("the journal is full")]
    JournalFull,
    /// The step was not prepared from the seat as it is, the seat's state is not the book's copy, or the actor claims
    /// to have seen an entry that does not exist.
    #[error("the step is of another state")]
    Stale,
}
