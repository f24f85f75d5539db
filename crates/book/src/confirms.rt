//! The trait of what can confirm a receipt.
ghost use Rattle.std.specs.Prelude.{MatchBool};

use crate::holds::holds;
use crate::receipt::Receipt;
use cluster_core::Journal;

/// A value with a list of entries, in which it looks receipts up.
pub trait Confirms {
    ghost use Rattle.std.specs.Prelude.{List};
    ghost use Rattle.messages.specs.declared.entry.Entry.{Entry};
    ghost use Rattle.book.specs.rule.Commits.{Holds};

    /// The entries, in the proofs alone.
    ghost list: { Self → List Entry };

    /// Whether the entries have the receipt's call and reply at its positions.
    fn holds(&self, receipt: &Receipt) -> bool
        ensures { MatchBool result (Holds (list self.now) receipt.now) (Holds (list self.now) receipt.now → ⊥) };
}

impl Confirms for Journal {
    ghost list = { λ j. j.entries };

    fn holds(&self, receipt: &Receipt) -> bool {
        holds(self.entries(), receipt)
    }
}
