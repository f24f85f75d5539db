//! The names of calls by their entries, and the lines that a run left when it was ended as stuck.
ghost use Rattle.std.specs.Prelude.{◌≡◌, ◌≢◌, ◌⊎◌, ◌↔◌, ◌++◌, ◌∷◌, [], true, IfOk, IsTrue, Some, if◌then◌else◌};
ghost use Rattle.std.specs.List.{Contains};
ghost use Rattle.thread_runs.specs.declared.line_outcome.LineOutcome.TheVariants.{Left};
ghost use Rattle.thread_runs.specs.rule.Runs.{AreBarred, is_open, name_at, asker, parts};

use crate::played_line::PlayedLine;
use messages::Entry;
use model::CallId;
use std::alloc::{AllocError, Global};

/// The name of the call that the entry at the position, from 1, makes.
pub(crate) fn name_at(entries: &[Entry], position: u32) -> Option<CallId>
    ensures { result ≡ name_at entries.now position }
{
    entries.get(position.saturating_sub(1) as usize)?.call()
}

// The reasons, among the lines so far, why later lines may be left: the processes that have an open call, and whether
// a call was open before a line that separates phases.
#[derive(Drop)]
struct Bars {
    askers: Vec<(u8, u16)>,
    is_over: bool,
}

impl Bars {
    // Passes the next line. `false` where the line was left without a reason.
    fn pass(&mut self, no_join: bool, line: &PlayedLine) -> Result<bool, AllocError>
        ensures over { IfOk result (λ may. self.new.is_over ≡ true ↔ ((self.old.is_over ≡ true) ⊎ ((parts no_join line.now.line.command ≡ true) × (self.old.askers.items ≢ [])))) }
        ensures left { IfOk result (λ may. may ≡ true ↔ (line.now.outcome ≡ Left → (self.new.is_over ≡ true) ⊎ Contains self.old.askers.items (asker line.now.line.command))) }
        ensures opened { IfOk result (λ may. may ≡ true → self.new.askers.items ≡ (if is_open line.now.outcome then self.old.askers.items ++ asker line.now.line.command ∷ [] else self.old.askers.items)) }
    {
        let has_open = !self.askers.is_empty();
        self.is_over = self.is_over || (line.parts(no_join) && has_open);
        if line.is_left() && !self.is_over && !has(self.askers.as_slice(), line.asker()) {
            return Ok(false);
        }
        if line.outcome.is_open() {
            self.askers.push(line.asker())?;
        }
        Ok(true)
    }
}

// Whether the process is in the list.
fn has(askers: &[(u8, u16)], asker: (u8, u16)) -> bool
    ensures { IsTrue result ↔ Contains askers.now asker }
{
    askers.contains(&asker)
}

/// Whether each line that was left stands behind an open call of its process, or behind one before a line that
/// separates phases.
pub(crate) fn are_barred(
    alloc: Global,
    no_join: bool,
    lines: &[PlayedLine],
) -> Result<bool, AllocError>
    ensures { IfOk result (λ are. are ≡ true → AreBarred (parts no_join) lines.now) }
{
    let mut bars = Bars {
        askers: Vec::new(alloc),
        is_over: false,
    };
    for line in lines {
        if !bars.pass(no_join, line)? {
            return Ok(false);
        }
    }
    Ok(true)
}
