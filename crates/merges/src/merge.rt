//! Logs of single actors, made one journal.
ghost use Rattle.std.specs.Prelude.{◌≡◌, ℕ, Err, IfOk, OnOk};
ghost use Rattle.messages.specs.declared.actor.Actor.{Actor};
ghost use Rattle.cluster_core.specs.rule.Histories.{HasOneHistory};
ghost use Rattle.merges.specs.rule.Merges.{AreOfDifferent, log_of, AllAreTooLong, AreMerged, NoneMerges};
ghost use Rattle.merges.specs.declared.merge_error.MergeError.TheVariants.{JournalFull, NoOrder, TwoLogs};

use crate::{Changes, Log, MergeError, Merger, Stuck};
use cluster_core::Journal;
use messages::Shape;
use std::alloc::Global;

/// The journal of a cluster of that shape that has the entries of these logs, and these declarations and starts, in an
/// order in which they are a run and which no clock contradicts, where no two clocks ever differ by more than `skew`.
///
/// # Errors
/// `TwoLogs` where two logs are of one incarnation of an actor; `NoOrder` where there is no such order; `JournalFull`
/// where in each such order there are more entries than a journal may have; `NoMemory` where a request for memory was
/// refused. Behind `NoOrder`, `told` has what can't go on; it gets it as far as there is memory.
pub fn merge(
    alloc: Global,
    shape: Shape,
    skew: u64,
    logs: Vec<Log>,
    declared: Changes,
    told: &mut Vec<Stuck>,
) -> Result<Journal, MergeError>
    ensures shape { IfOk result (λ journal. journal.shape ≡ shape) }
    ensures merged { IfOk result (λ journal. AreMerged shape skew (log_of logs.items) declared journal.entries) }

    // One table explains every reply, and ends with what the nodes hold.
    ensures one_table { IfOk result (λ journal. HasOneHistory shape journal.entries) }

    // Each log is in the journal.
    ensures all { OnOk result (AreOfDifferent logs.items) }
    ensures none { result ≡ Err NoOrder → NoneMerges shape skew (log_of logs.items) declared }
    ensures full { result ≡ Err JournalFull → AllAreTooLong shape skew (log_of logs.items) declared }
    ensures two { (a : Actor) (incarnation : ℕ) → result ≡ Err (TwoLogs a incarnation) → ¬ AreOfDifferent logs.items }
{
    let mut merger = Merger::new(alloc, shape, skew, logs, declared)?;
    merger.put_all(alloc, told)?;
    if !merger.is_done() {
        return Err(MergeError::NoOrder);
    }
    let (journal, _) = merger.into_run().into_journal();
    Ok(journal)
}
