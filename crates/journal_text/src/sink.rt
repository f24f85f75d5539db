//! The receivers of the entries that are read of a journal.
//!
//! Each function here that can fail errs with `AllocError`, where a request for memory was refused.
ghost use Rattle.std.specs.Prelude.{◌≡◌, ◌++◌, ◌∷◌, [], List, ⊤, OnOk};
ghost use Rattle.messages.specs.rule.Entries.{EntryFields};
ghost use Rattle.messages.specs.rule.Shapes.{ShapeFields};

use messages::Entry;
use std::alloc::{AllocError, Global};

/// A receiver of the entries of a journal, which takes them in order.
pub trait Sink {
    // The receiver has taken these entries, in order, of a journal of this shape, where that is
    // known.
    ghost took: { Self → ShapeFields → List EntryFields → Type 0 } = { λ _ _ _. ⊤ };

    /// Takes the next entry.
    fn take(&mut self, alloc: Global, entry: Entry) -> Result<(), AllocError>
        ensures { OnOk result ((s : ShapeFields) (es : List EntryFields) → took self.old s es → took self.new s (es ++ entry ∷ [])) };
}

/// A vector keeps the entries.
impl Sink for Vec<Entry> {
    ghost took = { λ v s es. v.items ≡ es };

    fn take(&mut self, _alloc: Global, entry: Entry) -> Result<(), AllocError> {
        self.push(entry)?;
        Ok(())
    }
}
