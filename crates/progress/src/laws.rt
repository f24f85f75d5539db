//! Laws: what comes of rounds after every run, each as the contract of a function that does nothing.
ghost use Rattle.progress.specs.rule.Bounds.{EveryReleaseHasWhatIsRequired};
ghost use Rattle.progress.specs.rule.Making.{AllOthersAreAnswered, AllOthersCanBeAnswered};
ghost use Rattle.progress.specs.rule.Making.{ARoundCanBeMade, EveryOrderMakesARound};
ghost use Rattle.progress.specs.rule.Rounds.{BlockedStaysBlocked, RoundsAnswerAllOthers};

/// In a stretch of a run in which nothing fails and nobody calls, waits about a file that locks block stay blocked,
/// where no other call about the file is open.
pub fn what_is_blocked_stays_blocked()
    ensures { BlockedStaysBlocked }
{}

/// Bounded progress. After any run, if the server of a file works and n calls are open, then after n + 2 rounds about
/// the file, in which nothing fails and nothing is lost, and after each later one, each call about the file that is
/// open at a live node is a wait, and a lock in the table of all nodes blocks it. All others are answered.
pub fn rounds_answer_all_others()
    ensures { RoundsAnswerAllOthers }
{}

/// After any run, if the server of a file works, a round about it is made in whatever order its events happen: what
/// the server learns, its resend, the retries of open calls, and, each once, the messages that are sent, and some older
/// ones. They end within (N + n + o + 2) * (R + n + o + 1) * 6 (N + 1) events, where the cluster has N nodes, the
/// server keeps R requests, n calls are open, and o older messages come. Each event that is left can happen next,
/// unless the server has spent the numbers of its epoch for a node.
pub fn every_order_makes_a_round()
    ensures { EveryOrderMakesARound }
{}

/// After any run a round about a file of the cluster can be made, if the file's server works, within so many events,
/// where no older message comes. Else some of these events happen, no more than that bound has, and then the server
/// refuses another of them: it has spent the numbers of its epoch for a node.
pub fn a_round_can_be_made()
    ensures { ARoundCanBeMade }
{}

/// Bounded progress. After any run, if the server of a file works and keeps R requests, and n calls are open, n + 2
/// rounds about the file, whose events happen in any order, answer each call about it but waits that a lock in the
/// table of all nodes blocks. They take at most n + 2 times as many events as one round with R + (n + 2) * (n + o)
/// requests, where o older messages come in each of them at most.
pub fn all_others_are_answered()
    ensures { AllOthersAreAnswered }
{}

/// After any run n + 2 such rounds about a file of the cluster can be made, where n calls are open, if the file's
/// server works, within their bound. Else fewer are made, and in the next one the server turns out to have spent the
/// numbers of its epoch for a node, all within that bound.
pub fn all_others_can_be_answered()
    ensures { AllOthersCanBeAnswered }
{}

/// After every run a span that a holder released has all bytes that the Revoke required: the command of each Released
/// was sent, and its required bytes are in the span.
pub fn every_release_has_what_is_required()
    ensures { EveryReleaseHasWhatIsRequired }
{}
