//! The planned changes of the table of a node.
ghost use Rattle.std.specs.Prelude.{◌≡◌, ◌≤◌, ◌<◌, ◌⊎◌, ⊤, ℕ, nat_le, length, get_or, [], IfOk, IfErr, IfSome, MatchResult, OnOk, Err};
ghost use Rattle.intervals.specs.rule.Bytes.{put};
ghost use Rattle.model.specs.rule.Locks.{with_lock, regions};
ghost use Rattle.model.specs.declared.owner.Owner.{Owner as SomeOwner};
ghost use Rattle.lock_table.specs.declared.error.LockError.TheVariants.{NoLocks};
ghost use Rattle.lock_table.specs.code.Rows.{bytes_in, runs_in, Fits, HasRoom, IsPlaced, IsRowOf, RunsFit};
ghost use Rattle.lock_table.specs.rule.Tables.{held};

use super::{LEAST_ROWS, LockEdit, LockTable, ROWS_OF_BLOCK};
use crate::blocks::{RowRoom, row_room};
use crate::error::LockError;
use crate::owner_spans::OwnerSpans;
use crate::page_index::PageIndex;
use crate::place::{Place, position, row_at};
use intervals::span::Span;
use intervals::span_edit::SpanEdit;
use model::{Mode, Owner};
use std::alloc::AllocError;

impl LockTable {
    // What the owner of a row at a place holds; `None` where there is only a place for a row.
    fn spans_at(&self, place: &Result<Place, Place>) -> Option<&OwnerSpans>
        requires { MatchResult place.now (IsRowOf self.now.blocks) (λ _. ⊤) }
        ensures held { (file : ℕ) (owner : SomeOwner) → IsPlaced self.now.blocks place.now file owner → bytes_in result ≡ held self.now file owner }
        ensures runs { MatchResult place.now (λ p. RunsFit self.now.blocks p (runs_in result)) (λ _. ⊤) }
    {
        match place {
            Ok(place) => Some(&row_at(&self.blocks, *place).spans),
            Err(_) => None,
        }
    }

    // Whether an owner with these spans in a file has no more regions there than the limit, with
    // the span set to the mode, or freed. Takes no memory.
    fn stays_within(&self, own: Option<&OwnerSpans>, span: Span, mode: Option<Mode>) -> bool
        ensures { result ≡ nat_le (regions (put (bytes_in own.entry) span mode)) self.now.limit }
    {
        match own {
            Some(own) => own.stays_within(span, mode, self.limit),
            None => {
                let nothing = OwnerSpans::new(*self.blocks.allocator());
                nothing.stays_within(span, mode, self.limit)
            }
        }
    }

    // The planned write to what an owner with these spans in a file holds there.
    fn plan_write(
        &self,
        own: Option<&OwnerSpans>,
        span: Span,
        mode: Option<Mode>,
    ) -> Result<SpanEdit<Mode>, AllocError>
        ensures span { IfOk result (λ write. write.span ≡ span) }
        ensures mode { IfOk result (λ write. write.value ≡ mode) }
        ensures runs { IfOk result (λ write. runs_in own.entry ≤ write.runs) }
    {
        match own {
            Some(own) => Ok(own.plan(span, mode)?),
            None => {
                let nothing = OwnerSpans::new(*self.blocks.allocator());
                Ok(nothing.plan(span, mode)?)
            }
        }
    }

    // Memory for one more block, if a row is to be inserted and its block is full, or there is none.
    fn room_for(&self, place: &Result<Place, Place>) -> Result<Option<Box<RowRoom>>, AllocError>
        requires { IfErr place.now (λ p. (p.block < length self.now.blocks) ⊎ (length self.now.blocks ≡ 0)) }
        ensures { IfOk result (λ room. IfErr place.now (λ p. HasRoom self.now.blocks p room)) }
    {
        let Err(place) = place else {
            return Ok(None);
        };
        let blocks = self.blocks.len();
        if place.block < blocks && !self.blocks[place.block].is_full() {
            return Ok(None);
        }
        Ok(Some(row_room(*self.blocks.allocator(), blocks)?))
    }

    // The number of rows for which an index is to have memory: those of the block where there is one,
    // and else as many as so many blocks have where rows come in order.
    fn row_count(&self) -> usize
        ensures { 32 ≤ result → (2 ≤ length self.now.blocks) ⊎ (32 ≤ length (get_or self.now.blocks 0 [])) }
    {
        match self.blocks.len() {
            0 => 0,
            1 => self.blocks[0].rows().len(),
            blocks => blocks.saturating_mul(ROWS_OF_BLOCK),
        }
    }

    // Memory for an index, if the table is to keep one and has none, or one that is small for it.
    fn index_for(&self) -> Result<Option<Box<PageIndex>>, AllocError>
        ensures { IfOk result (λ index. IfSome index (λ _. (2 ≤ length self.now.blocks) ⊎ (32 ≤ length (get_or self.now.blocks 0 [])))) }
    {
        let alloc = *self.blocks.allocator();
        let rows = self.row_count();
        if rows < LEAST_ROWS || !self.index.is_small(rows) {
            return Ok(None);
        }
        let index = self.index.with_memory(alloc, rows)?;
        Ok(Some(Box::new(alloc, index)?))
    }

    /// The change that `set` (with a mode) or `unlock` (with `None`) would make. It copies nothing.
    ///
    /// # Errors
    /// The errors of `set` or `unlock`, in the same cases.
    pub fn plan(
        &self,
        owner: Owner,
        file: u16,
        span: Span,
        mode: Option<Mode>,
    ) -> Result<LockEdit, LockError>
        ensures ok { IfOk result (λ e. with_lock (held self.now) e.file e.owner e.write.span e.write.value ≡ with_lock (held self.now) file owner span mode) }
        ensures few { OnOk result (regions (put (held self.now file owner) span mode) ≤ self.now.limit) }
        ensures many { result ≡ Err NoLocks → self.now.limit < regions (put (held self.now file owner) span mode) }
        ensures refused { self.now.limit < regions (put (held self.now file owner) span mode) → result ≡ Err NoLocks }
        ensures fits { IfOk result (Fits self.now) }
        ensures of_owner { IfOk result (λ e. e.owner ≡ owner) }
    {
        let place = position(&self.blocks, file, owner);
        let own = self.spans_at(&place);
        if !self.stays_within(own, span, mode) {
            return Err(LockError::NoLocks);
        }
        let write = self.plan_write(own, span, mode)?;
        let room = self.room_for(&place)?;
        let index = self.index_for()?;
        Ok(LockEdit {
            file,
            owner,
            write,
            place,
            room,
            index,
        })
    }
}
