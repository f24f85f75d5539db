//! The rows of a lock table: what one owner holds in one file.
ghost use Rattle.std.specs.Prelude.{◌≡◌, ℕ, ◌++◌, List, None, Some, false, IsTrue, ◌↔◌, IfOk, OnOk, MatchOption};
ghost use Rattle.intervals.specs.rule.Bytes.{IsBarred, IsRun, NoneIn};
ghost use Rattle.intervals.specs.rule.Runs.{value_at};
ghost use Rattle.lock_table.specs.code.Rows.{mark_cmp, IsSameRow, locks_of, IsBounded, NothingFrom, rest_from, IsFirstRegion, Has};
ghost use Rattle.lock_table.specs.code.Blockers.{IsLowestBut};
ghost use Rattle.lock_table.specs.rule.Tables.{ListsRegions};

use crate::owner_set::{OwnerSet, mark_of};
use crate::owner_spans::OwnerSpans;
use intervals::span::{GREATEST, Span};
use model::{LockInfo, Mode, Owner};
use std::alloc::AllocError;
use std::cmp::Ordering;

/// The bytes that one owner holds in one file. A row of a lock table holds at least one.
#[derive(Drop)]
pub struct OwnerLocks {
    pub(crate) file: u16,
    pub(crate) owner: Owner,
    pub(crate) spans: OwnerSpans,
}

// Whether the run that was found is this one.
fn is_found(found: Option<(Span, Mode)>, span: Span, mode: Mode) -> bool
    ensures { IsTrue result ↔ (found ≡ Some (span, mode)) }
{
    found == Some((span, mode))
}

// Whether the owner is `out`, whose regions don't count.
fn is_left_out(out: &Option<Owner>, owner: Owner) -> bool
    ensures { IsTrue result ↔ (out.now ≡ Some owner) }
{
    *out == Some(owner)
}

impl OwnerLocks {
    /// How the row stands to the place of an owner, of which the mark is given: by mark, then by
    /// owner.
    #[inline]
    pub(crate) fn cmp_place(&self, mark: usize, owner: Owner) -> Ordering
        ensures { result ≡ mark_cmp self.now mark owner }
    {
        match mark_of(self.file, self.owner).cmp(&mark) {
            Ordering::Equal => self.owner.cmp(&owner),
            Ordering::Less => Ordering::Less,
            Ordering::Greater => Ordering::Greater,
        }
    }

    /// An equal row.
    ///
    /// # Errors
    /// `AllocError` where a request for memory was refused.
    pub(crate) fn copy(&self) -> Result<Self, AllocError>
        ensures { IfOk result (λ copy. copy ≡ self.now) }
    {
        Ok(OwnerLocks {
            file: self.file,
            owner: self.owner,
            spans: self.spans.copy()?,
        })
    }

    /// Whether both rows are of one owner in one file, and hold the same bytes in the same modes.
    pub(crate) fn same(&self, other: &Self) -> bool
        ensures { IsTrue result ↔ IsSameRow self.now other.now }
    {
        self.file == other.file && self.owner == other.owner && self.spans.same(&other.spans)
    }

    /// Whether the span is a longest run of bytes that the row holds in the mode.
    pub(crate) fn has_run(&self, span: Span, mode: Mode) -> bool
        ensures { IsTrue result ↔ IsRun (value_at self.now.spans) span mode }
    {
        is_found(self.spans.run_at(span.lo), span, mode)
    }

    // The region with the lowest byte of the span that has the mode `bar`; with `bar` `None`, that
    // has any mode.
    fn first_region(&self, within: Span, bar: Option<Mode>) -> Option<LockInfo>
        ensures { MatchOption result (NoneIn (IsBarred (value_at self.now.spans) bar) within) (IsFirstRegion self.now within bar) }
    {
        let byte = self.spans.first_where(within, bar)?;
        let (span, mode) = self.spans.run_at(byte)?;
        Some(LockInfo {
            owner: self.owner,
            mode,
            span,
        })
    }

    // The first region with a byte from `from` on.
    fn region_from(&self, from: u64) -> Option<LockInfo>
        requires { IsBounded (value_at self.now.spans) }
        ensures { MatchOption result (NothingFrom (value_at self.now.spans) from) (IsFirstRegion self.now (rest_from from) None) }
    {
        if from > GREATEST {
            return None;
        }
        let rest = Span {
            lo: from,
            hi: GREATEST,
        };
        self.first_region(rest, None)
    }

    /// Whether the row may have a byte with the mode `bar` (with `None`: any mode), if only the
    /// owners in the set may have one. It says so without reading the row's bytes.
    pub(crate) fn may_bar(&self, owners: &OwnerSet, bar: Option<Mode>) -> bool
        ensures { result ≡ false → Has owners.now self.now.owner → (b : ℕ) → IsBarred (value_at self.now.spans) bar b → ⊥ }
    {
        !self.spans.is_free_of(bar) && owners.has(self.owner)
    }

    /// The lowest region of the row in the way of the mode in the span; none if the row's owner is
    /// `out`.
    pub(crate) fn lowest_but(&self, out: &Option<Owner>, span: Span, mode: Mode) -> Option<LockInfo>
        ensures { IsLowestBut (locks_of self.now) out.now span mode result }
    {
        if is_left_out(out, self.owner) {
            return None;
        }
        self.first_region(span, mode.bar())
    }

    /// Adds each region of the row, in ascending order.
    ///
    /// # Errors
    /// `AllocError` where a request for memory was refused; some regions may have been added then.
    pub(crate) fn push_regions(&self, locks: &mut Vec<LockInfo>) -> Result<(), AllocError>
        requires { IsBounded (value_at self.now.spans) }
        ensures { OnOk result ((more : List LockInfo) × (locks.new.items ≡ locks.old.items ++ more) × ListsRegions (locks_of self.now) more) }
    {
        let mut from = 0;
        while let Some(region) = self.region_from(from) {
            let span = region.span;
            locks.push(region)?;
            from = span.hi + 1;
        }
        Ok(())
    }
}
