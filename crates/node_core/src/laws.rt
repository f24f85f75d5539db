//! Laws of a node's rule, each the contract of a function that does nothing.
ghost use Rattle.node_core.specs.rule.Laws.{CoveredLockIsDone, InterruptChangesNothing, ClearRevokeGivesUp};

/// A set or a wait that no lock of another owner of the node blocks, whose bytes the node's token covers,
/// and that leaves its owner within the limit of regions, is answered Done in its own step.
pub fn a_covered_lock_is_done()
    ensures { CoveredLockIsDone }
{}

/// An interrupt leaves processes, locks and tokens as they were, and sends nothing: it only changes
/// which calls are open.
pub fn an_interrupt_changes_nothing()
    ensures { InterruptChangesNothing }
{}

/// A revoke that is next in order, and whose mode no lock of the node excludes on the required
/// bytes, is answered once, by giving up a span around these bytes; none of them is in the way of
/// the mode in the node's token from then on.
pub fn a_clear_revoke_gives_up()
    ensures { ClearRevokeGivesUp }
{}
