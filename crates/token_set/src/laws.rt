//! Laws of tokens, each the contract of a function that does nothing.
ghost use Rattle.token_set.specs.rule.Tokens.{GaveUpIsGivenUp, GaveUpIsOne, ReleasedIsClear, LoweringLowers, LoweringKeepsLocks};

/// A holder answers a revoke with its lowest lock in the way of the required bytes, if it has one,
/// else with the largest span that contains these bytes, lies in the desired ones, and has no byte
/// of a lock in the way.
pub fn gave_up_is_given_up()
    ensures { GaveUpIsGivenUp }
{}

/// A holder's answer to a revoke is determined by its locks: an answer by the regions of its locks
/// is the answer of `gave_up`.
pub fn gave_up_is_one()
    ensures { GaveUpIsOne }
{}

/// On a span that is released, no lock of the holder excludes the mode of the revoke.
pub fn what_is_released_is_clear()
    ensures { ReleasedIsClear }
{}

/// A lowered token lets its node lock no more than before, at any byte.
pub fn lowering_lowers()
    ensures { LoweringLowers }
{}

/// If no lock on the span excludes the mode, a token that covers the node's locks still covers them
/// after it is lowered on the span.
pub fn lowering_keeps_locks()
    ensures { LoweringKeepsLocks }
{}
