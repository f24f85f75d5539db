//! The log of an actor.
ghost use Rattle.std.specs.Prelude.{◌≡◌, ℕ, ◌+◌, ◌≤◌, ◌∷◌, [], All, List, MatchOption};
ghost use Rattle.merges.specs.declared.logged.LoggedEntry.{LoggedEntry};
ghost use Rattle.merges.specs.rule.Merges.{IsInOrder};
ghost use Rattle.merges.specs.code.Merging.{last_moment};

use crate::{LoggedEntry, entries_are_in_order};
use messages::Actor;
use std::marker::Model;

/// What an actor wrote of one incarnation; a token server, of one epoch. No entry ended before the one before it.
#[derive(Drop)]
pub struct Log {
    actor: Actor,
    incarnation: u16,
    entries: Vec<LoggedEntry>,
    // How many entries a merge has put; what is left is the log.
    put: usize,
}

impl Model for Log {
    ghost use Rattle.std.specs.Prelude.{drop};
    ghost use Rattle.merges.specs.rule.Merges.{LogFields, IsInOrder};

    ghost Value = { LogFields };

    ghost view = { λ l. record { actor = l.actor; incarnation = l.incarnation; entries = drop l.put l.entries.items } };

    ghost invariant = { λ l. IsInOrder (drop l.put l.entries.items) };
}

impl Log {
    /// The log of an actor in that incarnation, or none where a clock went back: an entry had ended before the one
    /// before it.
    pub fn new(actor: Actor, incarnation: u16, entries: Vec<LoggedEntry>) -> Option<Log>
        ensures { MatchOption result (¬ IsInOrder entries.items) (λ log. log ≡ record { actor = actor; incarnation = incarnation; entries = entries.items }) }
    {
        if !entries_are_in_order(entries.as_slice()) {
            return None;
        }
        Some(Log {
            actor,
            incarnation,
            entries,
            put: 0,
        })
    }

    pub fn actor(&self) -> Actor
        ensures { result ≡ self.now.actor }
    {
        self.actor
    }

    pub fn incarnation(&self) -> u16
        ensures { result ≡ self.now.incarnation }
    {
        self.incarnation
    }

    /// The first entry.
    pub fn first(&self) -> Option<&LoggedEntry>
        ensures { MatchOption result (self.now.entries ≡ []) (λ x. (xs : List LoggedEntry) × (self.now.entries ≡ x.now ∷ xs)) }
    {
        self.entries.get(self.put)
    }

    /// How many entries a merge has put.
    pub(crate) fn put(&self) -> usize {
        self.put
    }

    /// The log goes on behind its first entry.
    pub(crate) fn pass(&mut self)
        ensures { (x : LoggedEntry) (xs : List LoggedEntry) → self.old.entries ≡ x ∷ xs → self.new ≡ record self.old { entries = xs } }
    {
        if self.put < self.entries.len() {
            self.put += 1;
        }
    }

    /// The earliest moment at which an entry had ended; the last moment of all, where there is none.
    pub(crate) fn least_end(&self) -> u64
        ensures lower { All (λ (y : LoggedEntry). result ≤ y.interval.ended) self.now.entries }
        ensures exact { (moment skew : ℕ) → moment ≤ last_moment → All (λ (y : LoggedEntry). moment ≤ y.interval.ended + skew) self.now.entries → moment ≤ result + skew }
    {
        let _ = &self.entries; // tells the proof that they are in order
        match self.first() {
            Some(first) => first.interval.ended,
            None => u64::MAX,
        }
    }
}
