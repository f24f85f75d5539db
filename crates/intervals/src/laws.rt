//! Laws of spans and runs; each is the contract of a function that does nothing.
ghost use Rattle.intervals.specs.rule.Search.{FirstIsFirst};
ghost use Rattle.intervals.specs.rule.Bytes.{LargestIsLargest};
ghost use Rattle.intervals.specs.code.Laws.{RunsAreOne, FirstIsOne, LargestIsOne};

/// Two longest runs of one value that share a byte are one run.
pub fn runs_are_one<V>()
    ensures { RunsAreOne V }
{}

/// A span has at most one first byte with a barred value.
pub fn first_is_one<V>()
    ensures { FirstIsOne V }
{}

/// At most one span is the largest that contains the required span, lies within a given one, and
/// has no byte with a barred value.
pub fn largest_is_one<V>()
    ensures { LargestIsOne V }
{}

/// The search for the first of n numbers that passes a test gives the first such number, or the
/// number after the last one where none passes.
pub fn first_is_first()
    ensures { FirstIsFirst }
{}

/// The search for the largest span around a required one that has no barred byte gives the largest
/// such span.
pub fn largest_is_largest()
    ensures { LargestIsLargest }
{}
