//! The verdict on a history.

/// The verdict on a history.
#[derive(Debug, Drop)]
pub enum Verdict {
    /// One table explains it: the calls happened in this order, each named by its index.
    Explained { order: Vec<usize> },
    /// No table explains it. No order of the calls explains them up to the end of the call with this index, and so
    /// none explains all calls; up to each time before that end one does. The ways, at most three, are orders that
    /// the search had reached before that end, of which none went on. No contract says what they are.
    Unexplained { call: usize, ways: Vec<Vec<usize>> },
    /// It is not known whether one table explains it. The search took all its steps before the end of the call with
    /// this index; or it found no order up to that end, but none of its ways explains the calls up to the times
    /// before. With the number of calls as the index: `explains` did not confirm the order that the search found; or
    /// the search did not begin, since some call ends before it begins, some exit is no drop, or some call follows
    /// none of the calls, one of another owner, or one with which it does not change locks.
    Unknown { call: usize },
}
