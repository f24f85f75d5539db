//! The test whether lines of a script stand in phases.
ghost use Rattle.std.specs.Prelude.{◌≡◌, ◌<◌, ℕ, max, Some, unwrap_or, if◌then◌else◌, IfSome, IsTrue};
ghost use Rattle.thread_runs.specs.rule.Runs.{ArePhases, begins, ends, parts};

use crate::played_line::PlayedLine;

// The greatest position, from 1, of an entry of the lines so far, and that of the lines up to the last one that
// separates phases; 0 where there is none.
#[derive(Clone, Copy)]
struct PhasePositions {
    all: u32,
    earlier: u32,
}

impl PhasePositions {
    // The positions with the next line, which may separate phases. `None` where the line's entry stands before those
    // that have to precede it.
    fn with(&self, no_join: bool, played: &PlayedLine) -> Option<PhasePositions>
        ensures all { IfSome result (λ k. k.all ≡ max self.now.all (unwrap_or (ends played.now.outcome) 0)) }
        ensures earlier { IfSome result (λ k. k.earlier ≡ (if parts no_join played.now.line.command then k.all else self.now.earlier)) }
        ensures later { IfSome result (λ k. (at : ℕ) → begins played.now.outcome ≡ Some at → (if parts no_join played.now.line.command then self.now.all else self.now.earlier) < at) }
    {
        let parts = played.parts(no_join);
        let before = if parts { self.all } else { self.earlier };
        if played.outcome.begins().is_some_and(|at| at <= before) {
            return None;
        }
        let all = self.all.max(played.outcome.ends().unwrap_or(0));
        let earlier = if parts { all } else { self.earlier };
        Some(PhasePositions { all, earlier })
    }
}

/// Whether the lines stand in phases, each phase after the one before it.
pub(crate) fn are_phases(no_join: bool, lines: &[PlayedLine]) -> bool
    ensures { IsTrue result → ArePhases (parts no_join) lines.now }
{
    let mut known = PhasePositions { all: 0, earlier: 0 };
    for line in lines {
        match known.with(no_join, line) {
            Some(next) => known = next,
            None => return false,
        }
    }
    true
}
