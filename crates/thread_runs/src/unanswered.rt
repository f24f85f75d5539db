//! The test whether calls have no reply in a journal.
ghost use Rattle.std.specs.Prelude.{◌≡◌, true, false, All, IfOk, IsTrue, Some};
ghost use Rattle.std.specs.HashSet.{contains};
ghost use Rattle.model.specs.declared.call.CallId.{CallId};
ghost use Rattle.model.specs.declared.reply.Reply.{Reply};
ghost use Rattle.model.specs.contracts.call.CallIdPartialEq.TheImpl as derived;
ghost use Rattle.thread_runs.specs.rule.Runs.{IsUnanswered};

use messages::Entry;
use model::CallId;
use std::alloc::{AllocError, Global};
use std::collections::HashSet;

/// Whether no entry replies to any of the calls.
pub(crate) fn are_unanswered(
    alloc: Global,
    entries: &[Entry],
    calls: &[CallId],
) -> Result<bool, AllocError>
    ensures { IfOk result (λ are. are ≡ true → All (IsUnanswered entries.now) calls.now) }
{
    let kept = set_of(alloc, calls)?;
    Ok(are_apart(entries, &kept))
}

// Whether no entry replies to any call of the set.
fn are_apart(entries: &[Entry], kept: &HashSet<CallId>) -> bool
    ensures { IsTrue result → All (λ e. (call : CallId) (reply : Reply) → e.reply ≡ Some (call, reply) → contains derived.ghosts.eq kept.now call ≡ false) entries.now }
{
    entries.iter().all(|entry| is_apart(entry, kept))
}

// The set of the calls.
fn set_of(alloc: Global, calls: &[CallId]) -> Result<HashSet<CallId>, AllocError>
    ensures { IfOk result (λ kept. All (λ c. contains derived.ghosts.eq kept c ≡ true) calls.now) }
{
    let mut kept = HashSet::new(alloc);
    for call in calls {
        kept.insert(*call)?;
    }
    Ok(kept)
}

// Whether the entry replies to no call of the set.
fn is_apart(entry: &Entry, kept: &HashSet<CallId>) -> bool
    ensures { IsTrue result → (call : CallId) (reply : Reply) → entry.now.reply ≡ Some (call, reply) → contains derived.ghosts.eq kept.now call ≡ false }
{
    match entry.reply() {
        Some((call, _)) => !kept.contains(&call),
        None => true,
    }
}
