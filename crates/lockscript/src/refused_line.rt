//! The lines of a script whose events were refused.

/// A line of a script whose event was refused.
#[derive(Clone, Copy, Debug, PartialEq, Eq)]
pub struct RefusedLine {
    /// The number of the line, from 1.
    pub line: u32,
    /// The number of the refusal, as `Refused::number` gives it.
    pub code: u16,
}
