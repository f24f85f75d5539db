//! Whether a clock went back.
ghost use Rattle.std.specs.Prelude.{◌≡◌, ◌↔◌, IsTrue};
ghost use Rattle.merges.specs.rule.Merges.{IsInOrder, AreInOrder};

use crate::logged::{LoggedChange, LoggedEntry};

/// Whether no entry had ended before the one before it.
pub(crate) fn entries_are_in_order(entries: &[LoggedEntry]) -> bool
    ensures { IsTrue result ↔ IsInOrder entries.now }
{
    for index in 1..entries.len() {
        if entries[index].interval.ended < entries[index - 1].interval.ended {
            return false;
        }
    }
    true
}

/// Whether no declaration or start had ended before the one before it.
pub(crate) fn changes_are_in_order(changes: &[LoggedChange]) -> bool
    ensures { IsTrue result ↔ AreInOrder changes.now }
{
    for index in 1..changes.len() {
        if changes[index].interval.ended < changes[index - 1].interval.ended {
            return false;
        }
    }
    true
}
