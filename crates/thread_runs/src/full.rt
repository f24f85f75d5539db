//! The test whether a journal is that of a script and has no room for another entry.
ghost use Rattle.std.specs.Prelude.{◌≡◌, true, List, IfOk};
ghost use Rattle.thread_runs.specs.declared.played_line.PlayedLine.{PlayedLine};
ghost use Rattle.thread_runs.specs.rule.Runs.{AreLinesOf, IsFullJournal};
ghost use Rattle.cluster_core.specs.rule.Histories.{HasOneHistory};

use crate::{IndexedCommand, LineOutcome, PlayedLine, are_lines_of, asked_in, by_asker};
use actors::CallError;
use cluster_core::{JOURNAL_LIMIT, Journal};
use lockscript::{Script, ScriptCommand, ScriptLine};
use messages::Entry;
use std::alloc::{AllocError, Global};

/// Whether the journal is of a run of the script and has no room for another entry. Contracts know nothing of the
/// book that a lock gives back, so this is tested here. `false` also where memory is short for the test.
pub(crate) fn is_full(alloc: Global, script: &Script, journal: &Journal) -> bool
    requires shape { journal.now.shape ≡ script.now.shape }
    requires one_table { HasOneHistory journal.now.shape journal.now.entries }
    ensures { result ≡ true → IsFullJournal script.now journal.now }
{
    if journal.entries().len() < JOURNAL_LIMIT as usize {
        return false;
    }
    matches!(
        is_by_lines(alloc, script.lines(), journal.entries()),
        Ok(true)
    )
}

// Whether the entries that lines can ask for were made by lines of the script.
fn is_by_lines(alloc: Global, script: &[ScriptLine], entries: &[Entry]) -> Result<bool, AllocError>
    ensures { IfOk result (λ is. is ≡ true → (lines : List PlayedLine) × AreLinesOf script.now entries.now lines) }
{
    let lines = lines_behind(alloc, script, entries)?;
    are_lines_of(alloc, script, entries, lines.as_slice())
}

// The lines of the script, with the entries that some of them made. Each entry that a line can ask for goes to the
// next line of the same process with the same command.
fn lines_behind(
    alloc: Global,
    script: &[ScriptLine],
    entries: &[Entry],
) -> Result<Vec<PlayedLine>, AllocError> {
    let mut lines: Vec<PlayedLine> = script
        .iter()
        .map(|line| PlayedLine::new(*line))
        .collect(alloc)?;
    let asked = by_asker(asked_in(alloc, entries)?)?;
    let mut next = 0;
    for told in by_asker(commands_of(alloc, script)?)? {
        let (Some(one), Some(line)) = (asked.get(next), lines.get_mut(told.index)) else {
            continue;
        };
        if one.command == told.command {
            line.outcome = made_at(one);
            next += 1;
        }
    }
    Ok(lines)
}

// The commands of the lines, each with the index of its line in the place of an entry's.
fn commands_of(alloc: Global, script: &[ScriptLine]) -> Result<Vec<IndexedCommand>, AllocError> {
    let asked = |(index, line): (usize, &ScriptLine)| IndexedCommand {
        index,
        command: line.command(),
    };
    script.iter().enumerate().map(asked).collect(alloc)
}

// The outcome of a line that made this entry, of which nothing else is known.
fn made_at(one: &IndexedCommand) -> LineOutcome {
    let position = u32::try_from(one.index)
        .unwrap_or(u32::MAX)
        .saturating_add(1);
    match one.command {
        ScriptCommand::Call { .. } => LineOutcome::Denied(CallError::Killed { call_at: position }),
        _ => LineOutcome::Made(position),
    }
}
