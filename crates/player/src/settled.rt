//! Which messages of a run are settled: delivered, lost or passed over.
ghost use Rattle.std.specs.Prelude.{◌≡◌, ◌≤◌, ◌<◌, ◌+◌, false, nat_lt, true, length, slice_index_or, slice_set, OnOk};
ghost use Rattle.player.specs.rule.Progress.{with_settled, IsLeastUnsettled};
ghost use Rattle.player.specs.code.Rounds.{settled_in};

use std::alloc::{AllocError, Global};
use std::marker::Model;

/// The settled messages of a run, each by its index in the order of sending, from 0: all messages
/// before the cursor, and the marked ones.
#[derive(Drop)]
pub(crate) struct Settled {
    cursor: usize,
    marks: Vec<bool>,
}

impl Model for Settled {
    ghost use Rattle.player.specs.code.Rounds.{SettledParts};

    ghost Value = { SettledParts };

    ghost view = { λ s. record { cursor = s.cursor; marks = s.marks.items } };
}

impl Settled {
    /// The settled messages of a run that begins: none.
    pub(crate) fn new(alloc: Global) -> Settled
        ensures { settled_in result ≡ (λ index. false) }
    {
        Settled {
            cursor: 0,
            marks: Vec::new(alloc),
        }
    }

    /// The settled messages of a run of which the first `count` are settled.
    pub(crate) fn first(alloc: Global, count: usize) -> Settled
        ensures { settled_in result ≡ (λ index. nat_lt index count) }
    {
        Settled {
            cursor: count,
            marks: Vec::new(alloc),
        }
    }

    // Whether the message at the cursor is marked.
    fn is_marked(&self) -> bool
        ensures value { result ≡ slice_index_or self.now.marks self.now.cursor false }
        ensures room { result ≡ true → self.now.cursor < usize.MAX }
    {
        match self.marks.get(self.cursor) {
            Some(mark) => *mark,
            None => false,
        }
    }

    /// Moves the cursor to the first message that isn't settled.
    pub(crate) fn advance(&mut self)
        ensures same { settled_in self.new ≡ settled_in self.old }
        ensures least { IsLeastUnsettled (settled_in self.new) self.new.cursor }
        ensures rises { self.old.cursor ≤ self.new.cursor }
    {
        while self.is_marked() {
            self.cursor += 1;
        }
    }

    /// The index of the message at the cursor.
    pub(crate) fn cursor(&self) -> usize
        ensures { result ≡ self.now.cursor }
    {
        self.cursor
    }

    /// Settles the message at the cursor, and moves the cursor to the next one.
    pub(crate) fn pass(&mut self)
        requires { self.old.cursor < usize.MAX }
        ensures value { settled_in self.new ≡ with_settled (settled_in self.old) self.old.cursor }
        ensures rises { self.new.cursor ≡ self.old.cursor + 1 }
    {
        self.cursor += 1;
    }

    /// Settles the message with this index.
    pub(crate) fn settle(&mut self, index: usize) -> Result<(), AllocError>
        ensures { OnOk result (settled_in self.new ≡ with_settled (settled_in self.old) index) }
    {
        while self.marks.len() <= index {
            self.marks.push(false)?;
        }
        mark(&mut self.marks, index);
        Ok(())
    }
}

// Marks the message with this index.
fn mark(marks: &mut Vec<bool>, index: usize)
    requires { index < length marks.old.items }
    ensures { marks.new.items ≡ slice_set marks.old.items index true }
{
    marks[index] = true;
}
