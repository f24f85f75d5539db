//! Laws of token servers, each the contract of a function that does nothing.
ghost use Rattle.token_server.specs.code.Admissions.{GrantsWhatIsFree, KeepsWhatWaits, ServesWhatMeetsNone};

/// An active request is granted at least its required bytes when its turn comes, if no other node's row conflicts
/// with it then, no command to its own node is outstanding, and a command number is left.
pub fn what_is_free_is_granted()
    ensures { GrantsWhatIsFree }
{}

/// A waiting request is not lost. After any step its call has a request at the server, which waits, is queued or is
/// active, or its node's incarnation is known to be dead.
pub fn what_waits_is_kept()
    ensures { KeepsWhatWaits }
{}

/// A request that needs no byte of an active or queued one is active after the step in which it comes.
pub fn what_meets_none_is_served()
    ensures { ServesWhatMeetsNone }
{}
