//! A history, as a text writes it.
ghost use Rattle.std.specs.Prelude.{◌≡◌, ℕ, List, All, IsTrue, ◌↔◌, MatchOption};
ghost use Rattle.history_text.specs.rule.Owners.{IsNamed};

use crate::{FileCalls, Machine, Names, number_of};
use model::Owner;

/// The numbers of lines of calls in a history: of calls that stand in a file, of exits, and of calls that say nothing
/// of locks, as those that were interrupted or refused, and queries without a reply.
#[derive(Clone, Copy, Debug, PartialEq, Eq)]
pub struct LineCounts {
    pub calls: u64,
    pub exits: u64,
    pub silent: u64,
}

/// What clients of a lock manager saw, as a text writes it: the machines that it declares; the
/// names of owners; the names of files, and at the same index the calls of each file, in the order in which files are
/// first mentioned; and the numbers of lines of calls. An owner of the calls stands for a name, as `name_of` says;
/// its fields say nothing else.
#[derive(Drop)]
pub struct WrittenHistory {
    pub machines: Vec<Machine>,
    pub owners: Names,
    pub names: Names,
    pub files: Vec<FileCalls>,
    pub counts: LineCounts,
}

impl WrittenHistory {
    /// The name that the owner stands for, if it stands for one.
    pub fn name_of(&self, owner: &Owner) -> Option<&str>
        ensures { MatchOption result ((name : List ℕ) → IsNamed self.now.owners owner.now name → ⊥) (λ name. IsNamed self.now.owners owner.now name.now) }
    {
        let number = number_of(owner)?;
        self.owners.get(number)
    }

    /// The name of the file with this index, or `?`.
    pub(crate) fn name_of_file(&self, file: usize) -> &str {
        self.names.get(file).unwrap_or("?")
    }

    /// Whether the times of the history are of one clock: no machine's clock is off.
    pub fn has_one_clock(&self) -> bool
        ensures { IsTrue result ↔ All (λ machine. machine.skew ≡ 0) self.now.machines.items }
    {
        self.machines.iter().all(|machine| machine.skew == 0)
    }
}
