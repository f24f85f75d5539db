//! Laws: what holds of every run of the cluster, each as the contract of a function that does nothing.
ghost use Rattle.cluster_core.specs.rule.Answers.{EveryAnswerHasItsCommand};
ghost use Rattle.cluster_core.specs.rule.Evidence.{EveryDenialHasEvidence, EveryGrantServes, NoWaitIsDenied};
ghost use Rattle.cluster_core.specs.rule.Histories.{EveryRunHasAHistory, QuietItemsMayStandEarlier};
ghost use Rattle.cluster_core.specs.rule.Journals.{NoRunHasAWrongEntry};
ghost use Rattle.cluster_core.specs.rule.Plain.{EveryRunHasAPlainHistory};
ghost use Rattle.cluster_core.specs.rule.Numbers.{NoNumberIsUsedTwice};
ghost use Rattle.cluster_core.specs.rule.Rests.{EachProcessHasOneCall, RestsWithoutReply, TryAnswersOrAsks, GrantAnswers};
ghost use Rattle.cluster_core.specs.rule.Rounds.{EachServerRests, RestsWithoutAnswers, AnsweredStaysAnswered, EachRoundRests, NoCallIsStuck};
ghost use Rattle.cluster_core.specs.rule.Safe.{EveryRunIsSafe};
ghost use Rattle.cluster_core.specs.rule.Serving.{EachServerIsServing, RestsWithoutRequests, EachRowGoesOn, KeepsWhatIsInLine};

/// Whatever calls are made, and in whatever order messages are delivered, lost or repeated, a run has one history.
/// Each answered call stands in it once: at its reply, or, where a server denied it, where the holder of the lock
/// first did the revoke that the denial names. A single machine's table allows the history from the first call to the
/// last, and ends with the processes, descriptors and locks of the live nodes.
pub fn every_run_has_a_history()
    ensures { EveryRunHasAHistory }
{}

/// Whatever calls are made, and whatever becomes of messages, a run has a plain history: the answered calls whose
/// replies name no lock, each at the entry of its reply. A single machine's table allows it from the first call to
/// the last, and ends with the processes, descriptors and locks of the live nodes.
pub fn every_run_has_a_plain_history()
    ensures { EveryRunHasAPlainHistory }
{}

/// A legal list of items stays legal where one item moves earlier, if the item leaves every table as it was and the
/// table allows it there. A call that is denied is such an item: the replies `Again` and `Blocked` leave the table as
/// it was.
pub fn what_changes_nothing_may_stand_earlier()
    ensures { QuietItemsMayStandEarlier }
{}

/// After every run the tokens of two nodes don't conflict at any byte, the token of a lock's node covers each locked
/// byte, and locks of two nodes don't conflict.
pub fn every_run_is_safe()
    ensures { EveryRunIsSafe }
{}

/// Each conflict that a node sends or remembers, and each denial for it, has its evidence in the entries up to there.
/// After the call was made the holder did the revoke of that number for the first time, and answered it with this
/// conflict alone. In the world after that entry the lock was a region of the holder and blocked the call.
pub fn every_denial_has_evidence()
    ensures { EveryDenialHasEvidence }
{}

/// Whatever calls are made, and whatever becomes of messages, no server denies a call that waits (POSIX.1-2017
/// `fcntl()`, F_SETLKW): no denial of it is ever sent.
pub fn no_wait_is_denied()
    ensures { NoWaitIsDenied }
{}

/// After every run no two commands about one file to one incarnation of a node have one number. The number tells the
/// command, whatever was lost, repeated or sent again.
pub fn no_number_is_used_twice()
    ensures { NoNumberIsUsedTwice }
{}

/// Entries that have a first wrong one, as `Journal::check` reports it, are no run.
pub fn no_run_has_a_wrong_entry()
    ensures { NoRunHasAWrongEntry }
{}

/// After every run each grant that was sent is of the mode for which the call that it names asked, and of all bytes for
/// which it asked.
pub fn every_grant_serves_its_call()
    ensures { EveryGrantServes }
{}

/// After every run the command of each answer that was sent was sent, of its kind, with its number and its call: a
/// Grant of each Taken, a Revoke of each Released and Conflict, a Hello of each Report.
pub fn every_answer_has_its_command()
    ensures { EveryAnswerHasItsCommand }
{}

/// After every run a token server that has no outstanding command has no active request and none in its queue: the
/// requests that it keeps wait for a lock to go.
pub fn a_server_at_rest_has_no_request()
    ensures { EachServerRests }
{}

/// Where nothing fails, nobody calls and no call is answered, the table of all live nodes stays, and the same calls are
/// open, whatever becomes of messages.
pub fn what_answers_no_call_changes_no_table()
    ensures { RestsWithoutAnswers }
{}

/// In a stretch of a run in which nothing fails and nobody calls, a command that was sent before it and is outstanding
/// at its end was outstanding all along: a command that was answered is never outstanding again.
pub fn what_was_answered_stays_answered()
    ensures { AnsweredStaysAnswered }
{}

/// After a round about a file, whatever was lost before it, the file's server, if it works, has no outstanding command,
/// no active request and none in its queue.
pub fn a_round_ends_at_rest()
    ensures { EachRoundRests }
{}

/// No call is stuck. After any run, if the server of a file works, and two rounds about the file follow each other in
/// which nothing fails and nothing is lost, of which the second answers no call, each call about the file that is open
/// then at a live node is a wait, and a lock in the table of all nodes blocks it.
pub fn no_call_is_stuck()
    ensures { NoCallIsStuck }
{}

/// After every run a process has at most one open call, and no two open calls of a node have one number.
pub fn a_process_has_one_open_call()
    ensures { EachProcessHasOneCall }
{}

/// A step of a node that is no call and answers none leaves its processes, their locks and its open calls as they were.
pub fn what_answers_no_call_changes_no_lock()
    ensures { RestsWithoutReply }
{}

/// An open call that a node tries is answered, or it waits and a lock of its own node blocks it, or a request for its
/// bytes is sent to the server of its file.
pub fn a_try_answers_or_asks()
    ensures { TryAnswersOrAsks }
{}

/// A grant of an open call's mode, of bytes that hold the call's, answers it, or the call waits and a lock of its own
/// node blocks it.
pub fn a_grant_answers_its_call()
    ensures { GrantAnswers }
{}

/// No two active requests of a server need a byte in common. Once each node has reported its token, each active request
/// waits for a node to which a command is outstanding, and each queued one needs a byte of an active one or of one
/// before it. A server begins so, and is rebuilt so, and each step leaves it so.
pub fn each_server_is_serving()
    ensures { EachServerIsServing }
{}

/// A server that is serving and has no outstanding command has no active request and none in its queue.
pub fn a_serving_server_at_rest_has_no_request()
    ensures { RestsWithoutRequests }
{}

/// The number of a node's row at a server never falls while the row is of one incarnation, and a command that was
/// answered never comes back: a command that is outstanding after a step was so before, or has a greater number.
pub fn an_answered_command_never_comes_back()
    ensures { EachRowGoesOn }
{}

/// A call that has an active or a queued request at a server has one after any step too, unless its grant was taken, a
/// lock is in its way, or its node's incarnation is known to be dead.
pub fn what_is_in_line_is_kept()
    ensures { KeepsWhatIsInLine }
{}
