//! Names, numbered in the order in which they are first mentioned.
ghost use Rattle.std.specs.Prelude.{◌≡◌, ◌≤◌, ◌<◌, ◌+◌, [], length, max, slice_get, Some, IfOk, IfSome, MatchOption, OnOk};

use indexmap::IndexSet;
use std::alloc::{AllocError, Global};
use std::marker::Model;

/// Names, each once, numbered from 0 in the order in which they were first mentioned.
#[derive(Drop)]
pub struct Names {
    names: IndexSet<String>,
}

impl Model for Names {
    ghost use Rattle.std.specs.Prelude.{ℕ, List, map, string_bytes};
    ghost use Rattle.std.specs.String.{string_eq};
    ghost use Rattle.indexmap.specs.IndexSet.{IsUnique};

    ghost Value = { List (List ℕ) };

    ghost view = { λ n. map string_bytes n.names.keys };

    ghost invariant = { λ n. IsUnique string_eq n.names };
}

impl Names {
    ghost use Rattle.history_text.specs.rule.Owners.{AreDistinct};

    /// No names.
    pub(crate) fn new(alloc: Global) -> Names
        ensures empty { result ≡ [] }
        ensures distinct { AreDistinct result }
    {
        Names {
            names: IndexSet::new(alloc),
        }
    }

    /// The number of names.
    pub fn count(&self) -> usize
        ensures { result ≡ length self.now }
    {
        self.names.len()
    }

    /// The name of that number, if there are so many.
    pub fn get(&self, number: usize) -> Option<&str>
        ensures { MatchOption result (length self.now ≤ number) (λ name. slice_get self.now number ≡ Some name.now) }
    {
        match self.names.get_index(number) {
            Some(name) => Some(name.as_str()),
            None => None,
        }
    }

    /// The number of the name, if it is known.
    pub(crate) fn find(&self, name: &str) -> Option<usize>
        ensures { IfSome result (λ number. number < length self.now) }
    {
        self.names.get_index_of(name)
    }

    /// The number of the name. A new name comes last.
    ///
    /// # Errors
    /// `AllocError` where a request for memory was refused.
    pub(crate) fn number_of(&mut self, alloc: Global, name: &str) -> Result<usize, AllocError>
        ensures within { IfOk result (λ number. number ≤ length self.old) }
        ensures count { IfOk result (λ number. length self.new ≡ max (length self.old) (number + 1)) }
        ensures named { IfOk result (λ number. slice_get self.new number ≡ Some name.now) }
        ensures distinct { OnOk result (AreDistinct self.new) }
    {
        if let Some(number) = self.names.get_index_of(name) {
            return Ok(number);
        }
        let number = self.names.len();
        self.names.insert(String::from_str(alloc, name)?)?;
        Ok(number)
    }
}
