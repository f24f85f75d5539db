//! Laws of the one table: what calls leave of locks and descriptors, and what the searches for
//! locks find.
ghost use Rattle.model.specs.rule.Locks.{LowestIsLowest, LowestInWayIsLowest, LowestInWayIsOne};
ghost use Rattle.model.specs.rule.Laws.{ClosedFileHasNoLock, LastCloseDropsLocks, ExitLeavesNothing, ForkSharesDescriptions, CallsKeepAnchors, OnlyDoneCallsChange, WaitsAreNotDenied};
ghost use Rattle.model.specs.code.Equality.{SameModeIsEquality, SameOwnerIsEquality};

/// The search for the lowest lock that blocks an owner finds that lock, and finds none exactly
/// where no other owner's lock on the span excludes the mode.
pub fn the_lowest_blocker_is_the_lowest()
    ensures { LowestIsLowest }
{}

/// The search among all locks of a node for the lowest one in the way of a mode finds that lock,
/// and finds none exactly where no lock on the span excludes the mode.
pub fn the_lowest_in_the_way_is_the_lowest()
    ensures { LowestInWayIsLowest }
{}

/// At most one region is the lowest in the way of a mode on a span.
pub fn the_lowest_in_the_way_is_one()
    ensures { LowestInWayIsOne }
{}

/// A process that closes any descriptor of a file holds no lock on that file afterwards, whichever
/// descriptor made the lock (POSIX.1-2017 `fcntl()`).
pub fn a_closed_file_has_no_lock()
    ensures { ClosedFileHasNoLock }
{}

/// An open file description keeps its locks until the last descriptor of its node that refers to it
/// is closed (Linux `fcntl(2)`, F_OFD_SETLK).
pub fn the_last_close_drops_locks()
    ensures { LastCloseDropsLocks }
{}

/// A process that exits leaves neither descriptors nor locks of its own, and its number is free
/// (POSIX.1-2017 `_exit()`).
pub fn an_exit_leaves_nothing()
    ensures { ExitLeavesNothing }
{}

/// A child has its parent's descriptors, on the same descriptions, and none of its process locks
/// (POSIX.1-2017 `fork()`).
pub fn a_fork_shares_descriptions()
    ensures { ForkSharesDescriptions }
{}

/// No call of a node's processes leaves a lock without the descriptors that it depends on.
pub fn no_lock_outlives_its_descriptors()
    ensures { CallsKeepAnchors }
{}

/// A call that is answered neither `Done` nor with a descriptor leaves the table as it was.
pub fn only_done_calls_change()
    ensures { OnlyDoneCallsChange }
{}

/// A call that waits is never answered with a lock in its way, and a call that is interrupted has
/// changed nothing (POSIX.1-2017 `fcntl()`, F_SETLKW and EINTR).
pub fn waits_are_not_denied()
    ensures { WaitsAreNotDenied }
{}

/// The test `same_mode` of the definitions holds exactly of two equal modes.
pub fn same_mode_is_equality()
    ensures { SameModeIsEquality }
{}

/// The test `same_owner` of the definitions holds exactly of two equal owners.
pub fn same_owner_is_equality()
    ensures { SameOwnerIsEquality }
{}
