//! The result of running a script on threads.
ghost use Rattle.std.specs.Prelude.{◌≡◌, ◌↔◌, true, false, All, IfOk, IsTrue, filter_map, map};
ghost use Rattle.lockscript.specs.rule.Scripts.{LineFields};
ghost use Rattle.thread_runs.specs.rule.Runs.{AreBarred, IsUnanswered, is_cut, killed_by, open_by, MayAllCome, first_of, AreLinesOf, ArePhases, Fits, parts, receipt_in, refused_in, IsOfScript};

use crate::{Manner, PlayedLine, are_barred, are_made, are_phases, are_unanswered, may_all_come};
use book::Receipt;
use cluster_core::Journal;
use lockscript::{RefusedLine, Script, ScriptLine};
use messages::Entry;
use model::CallId;
use std::alloc::{AllocError, Global};
use std::marker::Model;

/// The result of running a script on threads: the journal, the script's lines with their outcomes, the receipts of
/// the calls that were answered, the lines that were refused, and the calls that are open where the run was ended as
/// stuck.
#[derive(Drop)]
pub struct ThreadRun {
    journal: Journal,
    lines: Vec<PlayedLine>,
    receipts: Vec<Receipt>,
    refused: Vec<RefusedLine>,
    open_calls: Vec<CallId>,
}

impl Model for ThreadRun {
    ghost use Rattle.thread_runs.specs.rule.Runs.{ThreadRunFields};

    ghost Value = { ThreadRunFields };

    ghost view = { λ r. record { journal = r.journal; lines = r.lines.items; receipts = r.receipts.items; refused = r.refused.items; open_calls = r.open_calls.items } };
}

impl ThreadRun {
    /// The result of the script with these lines.
    ///
    /// # Errors
    /// `AllocError` where a request for memory was refused, or the lines are not those of the script and the journal,
    /// in phases. Contracts know nothing of what a lock gives back, so all is tested here.
    pub(crate) fn new(
        alloc: Global,
        script: &Script,
        manner: Manner,
        lines: Vec<PlayedLine>,
        journal: Journal,
    ) -> Result<ThreadRun, AllocError>
        requires { journal.shape ≡ script.now.shape }
        ensures journal { IfOk result (λ run. run.journal ≡ journal) }
        ensures of_script { IfOk result (IsOfScript script.now manner.no_join manner.may_stop) }
    {
        let (told, entries) = (lines.as_slice(), journal.entries());
        let open_calls = open_in(alloc, entries, told)?;
        let calls = open_calls.as_slice();
        if !are_of_script(alloc, script, manner, entries, told, calls)? {
            return Err(AllocError);
        }
        let receipts = receipts_in(alloc, told)?;
        let refused = refused_in(alloc, told)?;
        Ok(ThreadRun {
            journal,
            lines,
            receipts,
            refused,
            open_calls,
        })
    }

    /// The journal of the run.
    pub fn journal(&self) -> &Journal
        ensures { result.now ≡ self.now.journal }
    {
        &self.journal
    }

    /// The journal of the run, without the rest.
    pub fn into_journal(self) -> Journal
        ensures { result ≡ self.journal }
    {
        self.journal
    }

    /// The lines of the script with their outcomes, in order.
    pub fn lines(&self) -> &[PlayedLine]
        ensures { result.now ≡ self.now.lines }
    {
        self.lines.as_slice()
    }

    /// The receipts of the calls that were answered, in order of their lines.
    pub fn receipts(&self) -> &[Receipt]
        ensures { result.now ≡ self.now.receipts }
    {
        self.receipts.as_slice()
    }

    /// The names of the calls that are open, in order of their lines. There are some only where the run was ended as
    /// stuck.
    pub fn open_calls(&self) -> &[CallId]
        ensures { result.now ≡ self.now.open_calls }
    {
        self.open_calls.as_slice()
    }

    /// The lines that were refused, with the numbers of their refusals, in order of lines.
    pub fn refused(&self) -> &[RefusedLine]
        ensures { result.now ≡ self.now.refused }
    {
        self.refused.as_slice()
    }
}

// Whether the lines are those of the script in a run of these entries, which may have been ended with these open
// calls.
fn are_of_script(
    alloc: Global,
    script: &Script,
    manner: Manner,
    entries: &[Entry],
    lines: &[PlayedLine],
    open_calls: &[CallId],
) -> Result<bool, AllocError>
    ensures lines { IfOk result (λ are. are ≡ true → AreLinesOf script.now.lines entries.now lines.now) }
    ensures fit { IfOk result (λ are. are ≡ true → All (λ l. Fits l.line.command l.outcome) lines.now) }
    ensures phases { IfOk result (λ are. are ≡ true → ArePhases (parts manner.no_join) lines.now) }
    ensures killed { IfOk result (λ are. are ≡ true → All (IsUnanswered entries.now) (filter_map (λ l. killed_by entries.now l.outcome) lines.now)) }
    ensures come { IfOk result (λ are. are ≡ true → MayAllCome (parts manner.no_join) script.now.shape (first_of script.now.shape) lines.now) }
    ensures unanswered { IfOk result (λ are. are ≡ true → All (IsUnanswered entries.now) open_calls.now) }
    ensures barred { IfOk result (λ are. are ≡ true → AreBarred (parts manner.no_join) lines.now) }
    ensures whole { IfOk result (λ are. are ≡ true → manner.may_stop ≡ false → All (λ l. is_cut l.outcome ≡ false) lines.now) }
{
    let are_lines = are_lines_of(alloc, script.lines(), entries, lines)?;
    if !are_lines || !all_fit(lines) || !are_phases(manner.no_join, lines) {
        return Ok(false);
    }
    if !may_all_come(alloc, script.shape(), manner.no_join, lines)? {
        return Ok(false);
    }
    let killed = killed_in(alloc, entries, lines)?;
    if !are_unanswered(alloc, entries, killed.as_slice())? {
        return Ok(false);
    }
    are_cut_so(alloc, manner, entries, lines, open_calls)
}

// Whether the run of these lines may have been ended with these open calls.
fn are_cut_so(
    alloc: Global,
    manner: Manner,
    entries: &[Entry],
    lines: &[PlayedLine],
    open_calls: &[CallId],
) -> Result<bool, AllocError>
    ensures unanswered { IfOk result (λ are. are ≡ true → All (IsUnanswered entries.now) open_calls.now) }
    ensures barred { IfOk result (λ are. are ≡ true → AreBarred (parts manner.no_join) lines.now) }
    ensures whole { IfOk result (λ are. are ≡ true → manner.may_stop ≡ false → All (λ l. is_cut l.outcome ≡ false) lines.now) }
{
    if !are_unanswered(alloc, entries, open_calls)? {
        return Ok(false);
    }
    if !are_barred(alloc, manner.no_join, lines)? {
        return Ok(false);
    }
    Ok(manner.may_stop || are_whole(lines))
}

// Whether no line has an outcome that only a run has which was ended as stuck.
fn are_whole(lines: &[PlayedLine]) -> bool
    ensures { IsTrue result → All (λ l. is_cut l.outcome ≡ false) lines.now }
{
    lines.iter().all(|line| !line.outcome.is_cut())
}

// The names of the open calls among the lines.
fn open_in(
    alloc: Global,
    entries: &[Entry],
    lines: &[PlayedLine],
) -> Result<Vec<CallId>, AllocError>
    ensures { IfOk result (λ calls. calls.items ≡ filter_map (λ l. open_by entries.now l.outcome) lines.now) }
{
    lines
        .iter()
        .filter_map(|line| line.outcome.open_call(entries))
        .collect(alloc)
}

// The names of the calls among the lines that ended without a reply.
fn killed_in(
    alloc: Global,
    entries: &[Entry],
    lines: &[PlayedLine],
) -> Result<Vec<CallId>, AllocError>
    ensures { IfOk result (λ calls. calls.items ≡ filter_map (λ l. killed_by entries.now l.outcome) lines.now) }
{
    lines
        .iter()
        .filter_map(|line| line.outcome.killed_call(entries))
        .collect(alloc)
}

// Whether each line may have its outcome.
fn all_fit(lines: &[PlayedLine]) -> bool
    ensures { IsTrue result → All (λ l. Fits l.line.command l.outcome) lines.now }
{
    lines.iter().all(|line| line.fits())
}

/// Whether the lines are those of the script, and made the entries that lines can ask for.
pub(crate) fn are_lines_of(
    alloc: Global,
    script: &[ScriptLine],
    entries: &[Entry],
    lines: &[PlayedLine],
) -> Result<bool, AllocError>
    ensures { IfOk result (λ are. are ≡ true → AreLinesOf script.now entries.now lines.now) }
{
    let bare = bare_lines(alloc, lines)?;
    if !same_lines(bare.as_slice(), script) {
        return Ok(false);
    }
    are_made(alloc, entries, lines)
}

// The lines without their outcomes.
fn bare_lines(alloc: Global, lines: &[PlayedLine]) -> Result<Vec<ScriptLine>, AllocError>
    ensures { IfOk result (λ bare. bare.items ≡ map (λ l. l.line) lines.now) }
{
    lines.iter().map(|played| played.line).collect(alloc)
}

// Whether both lists of lines are equal.
fn same_lines(one: &[ScriptLine], other: &[ScriptLine]) -> bool
    ensures { IsTrue result ↔ (one.now ≡ other.now) }
{
    one == other
}

// The receipts of the lines that have one.
fn receipts_in(alloc: Global, lines: &[PlayedLine]) -> Result<Vec<Receipt>, AllocError>
    ensures { IfOk result (λ receipts. receipts.items ≡ filter_map receipt_in lines.now) }
{
    lines
        .iter()
        .filter_map(|line| line.receipt())
        .collect(alloc)
}

// The lines that were refused.
fn refused_in(alloc: Global, lines: &[PlayedLine]) -> Result<Vec<RefusedLine>, AllocError>
    ensures { IfOk result (λ refused. refused.items ≡ filter_map refused_in lines.now) }
{
    lines
        .iter()
        .filter_map(|line| line.refused())
        .collect(alloc)
}
