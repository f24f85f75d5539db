//! The list of declarations and starts.
ghost use Rattle.std.specs.Prelude.{◌≡◌, ℕ, ◌+◌, ◌≤◌, ◌∷◌, [], All, List, MatchOption};
ghost use Rattle.merges.specs.declared.logged.LoggedChange.{LoggedChange};
ghost use Rattle.merges.specs.rule.Merges.{AreInOrder};
ghost use Rattle.merges.specs.code.Merging.{last_moment};

use crate::{LoggedChange, changes_are_in_order};
use std::marker::Model;

/// The declarations and starts of all nodes and token servers, in their order. None had ended before the one before it.
#[derive(Drop)]
pub struct Changes {
    changes: Vec<LoggedChange>,
    // How many a merge has put; what is left is the list.
    put: usize,
}

impl Model for Changes {
    ghost use Rattle.std.specs.Prelude.{List, drop};
    ghost use Rattle.merges.specs.declared.logged.LoggedChange.{LoggedChange};
    ghost use Rattle.merges.specs.rule.Merges.{AreInOrder};

    ghost Value = { List LoggedChange };

    ghost view = { λ c. drop c.put c.changes.items };

    ghost invariant = { λ c. AreInOrder (drop c.put c.changes.items) };
}

impl Changes {
    /// The list of these declarations and starts, or none where a clock went back: one had ended before the one before
    /// it.
    pub fn new(changes: Vec<LoggedChange>) -> Option<Changes>
        ensures { MatchOption result (¬ AreInOrder changes.items) (λ list. list ≡ changes.items) }
    {
        if !changes_are_in_order(changes.as_slice()) {
            return None;
        }
        Some(Changes { changes, put: 0 })
    }

    /// The first of them.
    pub fn first(&self) -> Option<LoggedChange>
        ensures { MatchOption result (self.now ≡ []) (λ c. (cs : List LoggedChange) × (self.now ≡ c ∷ cs)) }
    {
        self.changes.get(self.put).copied()
    }

    /// How many of them a merge has put.
    pub(crate) fn put(&self) -> usize {
        self.put
    }

    /// The list goes on behind the first.
    pub(crate) fn pass(&mut self)
        ensures { (c : LoggedChange) (cs : List LoggedChange) → self.old ≡ c ∷ cs → self.new ≡ cs }
    {
        if self.put < self.changes.len() {
            self.put += 1;
        }
    }

    /// The earliest moment at which one had ended; the last moment of all, where there is none.
    pub(crate) fn least_end(&self) -> u64
        ensures lower { All (λ (c : LoggedChange). result ≤ c.interval.ended) self.now }
        ensures exact { (moment skew : ℕ) → moment ≤ last_moment → All (λ (c : LoggedChange). moment ≤ c.interval.ended + skew) self.now → moment ≤ result + skew }
    {
        let _ = &self.changes; // tells the proof that they are in order
        match self.first() {
            Some(first) => first.interval.ended,
            None => u64::MAX,
        }
    }
}
