//! Rules: the known ways in which lock managers differ from one table of record locks.
use std::alloc::{AllocError, Global};

/// The set of rules by which a lock manager may differ from one table: those whose fields are true.
#[derive(Clone, Copy, Debug, PartialEq, Eq)]
pub struct Allowed {
    /// A wait first gives back the caller's own locks on its span: a `wait` that is done is an unlock of its span and then a set,
    /// one that is interrupted is an unlock of its span, and one without a reply is both, in any order, if at all.
    pub wait_drops: bool,
    /// A `close F unused` says nothing.
    pub close_own_descriptor: bool,
    /// The reply to a query says nothing: queries are only counted.
    pub no_query: bool,
    /// A read that is denied, a `set` with `again` or a `query` with `blocked`, says nothing: locks that are gone may deny readers.
    pub stale_read_denial: bool,
    /// Where a line `lost BEGIN END F` stands, each owner that has a call in F loses all that it has there at some time of its own
    /// from BEGIN to END.
    pub lost_at: bool,
}

impl Allowed {
    /// The words of the rules that are allowed, in the order in which they are listed.
    ///
    /// # Errors
    /// `AllocError` where a request for memory was refused.
    pub(crate) fn words(&self, alloc: Global) -> Result<Vec<&'static str>, AllocError> {
        let mut words = Vec::new(alloc);
        for (is_allowed, word) in &[
            (self.wait_drops, "wait-drops"),
            (self.close_own_descriptor, "close-own-descriptor"),
            (self.no_query, "no-query"),
            (self.stale_read_denial, "stale-read-denial"),
            (self.lost_at, "lost-at"),
        ] {
            if *is_allowed {
                words.push(*word)?;
            }
        }
        Ok(words)
    }
}
