//! The changes of the table of a node, as they were planned.
ghost use Rattle.std.specs.Prelude.{◌≡◌};
ghost use Rattle.model.specs.rule.Locks.{with_lock};
ghost use Rattle.lock_table.specs.rule.Tables.{held};
ghost use Rattle.lock_table.specs.code.Rows.{Fits, HasRoom, IsGapIn, IsRowIn, RunsFit};

use super::{LockEdit, LockTable};
use crate::blocks::{RowRoom, insert_row, remove_row};
use crate::owner_locks::OwnerLocks;
use crate::owner_spans::OwnerSpans;
use crate::page_index::PageIndex;
use crate::place::Place;
use intervals::span_edit::SpanEdit;
use model::{Mode, Owner};

impl LockTable {
    // Begins an index in the given memory, or else renews an index that is due for it. Takes no
    // memory.
    fn refresh(&mut self, index: Option<Box<PageIndex>>)
        ensures { self.new ≡ self.old }
    {
        if let Some(index) = index {
            self.index = Box::into_inner(index);
            self.index.renew(&self.blocks);
        } else if self.index.is_stale() {
            self.index.renew(&self.blocks);
        }
    }

    // Makes the write in the owner's row, and removes the row if it then holds nothing. Takes no
    // memory.
    fn write_row(&mut self, place: Place, file: u16, owner: Owner, write: SpanEdit<Mode>)
        requires row { IsRowIn self.old.blocks place file owner }
        requires runs { RunsFit self.old.blocks place write.runs }
        ensures locks { held self.new ≡ with_lock (held self.old) file owner write.span write.value }
        ensures limit { self.new.limit ≡ self.old.limit }
    {
        self.index.note_write(file, owner, &write);
        if self.blocks[place.block].write(place.row, write) {
            remove_row(&mut self.blocks, place);
        }
    }

    // Makes the first write of an owner in a file: adds a row, if the owner then holds some byte.
    // Takes no memory.
    fn add_row(
        &mut self,
        place: Place,
        file: u16,
        owner: Owner,
        write: SpanEdit<Mode>,
        room: Option<Box<RowRoom>>,
    )
        requires gap { IsGapIn self.old.blocks place file owner }
        requires room { HasRoom self.old.blocks place room }
        ensures locks { held self.new ≡ with_lock (held self.old) file owner write.span write.value }
        ensures limit { self.new.limit ≡ self.old.limit }
    {
        self.index.note_write(file, owner, &write);
        let mut spans = OwnerSpans::new(*self.blocks.allocator());
        spans.apply(write);
        if spans.is_empty() {
            return;
        }
        insert_row(
            &mut self.blocks,
            place,
            OwnerLocks { file, owner, spans },
            room,
        );
    }

    /// Makes a planned change: only the regions of the owner from the span on are rewritten. Takes
    /// no memory.
    pub fn apply(&mut self, edit: LockEdit)
        requires { Fits self.old edit }
        ensures locks { held self.new ≡ with_lock (held self.old) edit.file edit.owner edit.write.span edit.write.value }
        ensures limit { self.new.limit ≡ self.old.limit }
    {
        let LockEdit {
            file,
            owner,
            write,
            place,
            room,
            index,
        } = edit;
        self.refresh(index);
        match place {
            Ok(place) => self.write_row(place, file, owner, write),
            Err(place) => self.add_row(place, file, owner, write, room),
        }
    }
}
