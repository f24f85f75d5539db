//! How many bytes a node requests beyond those that a call needs.

/// How much of a file a node requests beyond the bytes that a call needs: the desired range of a
/// token request, which contains the required range (Schmuck and Haskin, FAST 2002).
#[derive(Clone, Copy, Debug, PartialEq, Eq)]
pub enum Policy {
    /// The whole file where the node holds no token of it, else all bytes from the first one that
    /// the call needs.
    Wide,
    /// Only the bytes that the call needs.
    Exact,
}
