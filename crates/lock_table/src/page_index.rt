//! An index of a lock table: which owners may hold bytes of which pages, and in which files.
//!
//! Each function here that can fail errs with `AllocError`, where a request for memory was refused.
ghost use Rattle.std.specs.Prelude.{◌≡◌, ℕ, ◌+◌, ◌-◌, ◌<◌, ◌≤◌, ◌^◌, ◌⊎◌, Option, Some, IfOk, IfSome, IsTrue, ◌↔◌};
ghost use Rattle.intervals.specs.rule.Bytes.{put};
ghost use Rattle.intervals.specs.rule.Runs.{value_at};
ghost use Rattle.model.specs.declared.mode.Mode.{Mode as SomeMode};
ghost use Rattle.model.specs.declared.owner.Owner.{Owner as SomeOwner};
ghost use Rattle.lock_table.specs.rule.Tables.{all_rows, rows_held};
ghost use Rattle.lock_table.specs.code.Rows.{Has, HasFlag, HasFile, MayHold, HasPage, IsKept, Covers, slot_of};

use crate::block::Block;
use crate::flag_set::FlagSet;
use crate::owner_locks::OwnerLocks;
use crate::owner_set::{OwnerSet, flag_of};
use intervals::span::Span;
use intervals::span_edit::SpanEdit;
use model::{Mode, Owner};
use std::alloc::{AllocError, Global};

// The least number of bytes in a page, and how many more a page has in an index without notes.
const LEAST_PAGE: u32 = 64;

const FIRST_EXTRA: u32 = 192;

// The greatest number of binary digits of a run's length that count for the size of pages.
const MOST_DIGITS: u32 = 20;

// The least and the greatest number of an index's sets of owners, for pages, and how many of them it
// has for each row of its table.
const LEAST_SETS: usize = 4096;

const MOST_SETS: usize = 32768;

const SETS_OF_ROW: usize = 128;

// The number of an index's sets of files, for the flags of owners.
const FILE_SETS: usize = 256;

// The greatest number of a file that has a flag.
const MOST_FILES: u16 = 256;

// A run of more pages than this is noted as a long one, and in a span of more pages all owners
// count as near.
const MOST_PAGES: u64 = 128;

// The number of notes after which an index is due to be renewed, since it doesn't forget what rows
// give up.
const MOST_NOTES: u32 = 4096;

/// Which owners may hold bytes of which pages, and in which files. Each page of each file has a set
/// of owners, which it shares with other pages; the owners of long runs have a set of their own.
/// Each flag of owners has a set of files; the owners in files past the 256th have a set of their
/// own. An index without memory isn't kept, and says that each owner may hold each byte. A wrong
/// hint only costs time.
///
/// A page has 64 bytes and `extra` more, which an index chooses anew when it is renewed: pages some
/// twice as long as the runs that were noted. By shorter pages a run has many sets, each with
/// owners of other pages; by longer ones many runs share a page.
#[derive(Drop)]
pub struct PageIndex {
    sets: Vec<OwnerSet>,
    files: Vec<FlagSet>,
    long: OwnerSet,
    wide: OwnerSet,
    notes: u32,
    extra: u32,
    runs: u32,
    digits: u32,
}

// The number of sets of owners for a table of so many rows.
fn sets_for(rows: usize) -> usize
    ensures some { 0 < result }
    ensures within { result ≤ 32768 }
{
    let sets = rows.min(MOST_SETS / SETS_OF_ROW) * SETS_OF_ROW;
    sets.max(LEAST_SETS)
}

// The place of a page's set of owners, of so many.
fn slot_of(sets: usize, file: u16, page: u64) -> usize
    requires page { page < 2 ^ 60 }
    requires sets { 0 < sets }
    ensures result { result ≡ slot_of sets file page }
    ensures within { result < sets }
{
    ((page + file as u64 * 1031) % sets as u64) as usize
}

impl PageIndex {
    /// An index without memory, which isn't kept.
    pub(crate) fn none(alloc: Global) -> Self
        ensures not_kept { IsKept result → ⊥ }
        ensures may { (f : ℕ) (o : SomeOwner) (b : ℕ) → MayHold result f o b }
    {
        PageIndex {
            sets: Vec::new(alloc),
            files: Vec::new(alloc),
            long: OwnerSet::none(),
            wide: OwnerSet::none(),
            notes: 0,
            extra: FIRST_EXTRA,
            runs: 0,
            digits: 0,
        }
    }

    /// An index with memory for a table of so many rows, whose sets have no owner, and whose pages
    /// are as this one's were next.
    pub(crate) fn with_memory(&self, alloc: Global, rows: usize) -> Result<Self, AllocError>
        ensures { IfOk result IsKept }
    {
        let many = sets_for(rows);
        let mut sets = Vec::with_capacity(alloc, many)?;
        sets.resize(many, OwnerSet::none())?;
        let mut files = Vec::with_capacity(alloc, FILE_SETS)?;
        files.resize(FILE_SETS, FlagSet::none())?;
        Ok(PageIndex {
            sets,
            files,
            long: OwnerSet::none(),
            wide: OwnerSet::none(),
            notes: 0,
            extra: self.extra_next(),
            runs: 0,
            digits: 0,
        })
    }

    // The number of bytes in a page.
    fn page_size(&self) -> u64
        ensures { result ≡ self.now.extra + 64 }
    {
        self.extra as u64 + LEAST_PAGE as u64
    }

    // The number of bytes beyond the least that a page is to have next, by the digits that the
    // lengths of the noted runs have on average.
    fn extra_next(&self) -> u32 {
        let Some(digits) = self.digits.checked_div(self.runs) else {
            return self.extra;
        };
        let page = 2u32 << digits.min(MOST_DIGITS);
        page.saturating_sub(LEAST_PAGE)
    }

    /// Whether the index is kept.
    pub(crate) fn is_kept(&self) -> bool
        ensures { IsTrue result ↔ IsKept self.now }
    {
        self.sets.len() > 0 && self.files.len() == FILE_SETS
    }

    /// Whether a table of so many rows wants twice as many sets as the index has, or more.
    pub(crate) fn is_small(&self, rows: usize) -> bool {
        self.sets.len() <= sets_for(rows) / 2
    }

    /// Whether the index is due to be renewed.
    pub(crate) fn is_stale(&self) -> bool
        ensures { IsTrue result ↔ 4096 ≤ self.now.notes }
    {
        self.notes >= MOST_NOTES
    }

    /// The owners that may hold a byte of the span in the file.
    pub(crate) fn near(&self, file: u16, span: Span) -> OwnerSet
        ensures { (o : SomeOwner) (b : ℕ) → span.lo ≤ b → b ≤ span.hi → MayHold self.now file o b → Has result o }
    {
        let size = self.page_size();
        let first = span.lo / size;
        let last = span.hi / size;
        if !self.is_kept() || last - first > MOST_PAGES {
            return OwnerSet::all();
        }
        let mut near = self.long;
        for page in first..last + 1 {
            near.join(&self.sets[slot_of(self.sets.len(), file, page)]);
        }
        near
    }

    /// The files in which the owner may hold bytes, where flag 0 is file 1; `None` where the index
    /// doesn't know.
    pub(crate) fn files_of(&self, owner: Owner) -> Option<FlagSet>
        ensures { IfSome result (λ files. (f b : ℕ) → MayHold self.now f owner b → (1 ≤ f) × (f ≤ 256) × HasFlag files (f - 1)) }
    {
        if !self.is_kept() || self.wide.has(owner) {
            return None;
        }
        Some(self.files[flag_of(owner)])
    }

    // Notes that the owner may hold bytes of the file.
    fn note_file(&mut self, file: u16, owner: Owner)
        requires kept { IsKept self.old }
        ensures kept { IsKept self.new }
        ensures keeps { (f : ℕ) (o : SomeOwner) (b : ℕ) → MayHold self.old f o b → MayHold self.new f o b }
        ensures noted { Has self.new.wide owner ⊎ HasFile self.new file owner }
    {
        if file == 0 || file > MOST_FILES {
            self.wide.add(owner);
            return;
        }
        let flag = flag_of(owner);
        let mut files = self.files[flag];
        files.add(file as usize - 1);
        self.files[flag] = files;
    }

    // Notes that the owner may hold bytes of the page.
    fn note_page(&mut self, file: u16, owner: Owner, page: u64)
        requires kept { IsKept self.old }
        requires page { page < 2 ^ 60 }
        ensures kept { IsKept self.new }
        ensures keeps { (f : ℕ) (o : SomeOwner) (b : ℕ) → MayHold self.old f o b → MayHold self.new f o b }
        ensures pages { (p : ℕ) → HasPage self.old file owner p → HasPage self.new file owner p }
        ensures noted { HasPage self.new file owner page }
        ensures files { self.new.files.items ≡ self.old.files.items }
        ensures wide { self.new.wide ≡ self.old.wide }
        ensures extra { self.new.extra ≡ self.old.extra }
    {
        let slot = slot_of(self.sets.len(), file, page);
        let mut set = self.sets[slot];
        set.add(owner);
        self.sets[slot] = set;
    }

    // Notes the length of a run, for the size of pages.
    fn note_length(&mut self, length: u64)
        ensures { self.new ≡ record self.old { runs = self.new.runs; digits = self.new.digits } }
    {
        let digits = u64::BITS.saturating_sub(length.leading_zeros());
        self.digits = self.digits.saturating_add(digits.min(MOST_DIGITS));
        self.runs = self.runs.saturating_add(1);
    }

    // Notes that the owner may hold the bytes from `lo` to `hi`.
    fn note_bytes(&mut self, file: u16, owner: Owner, lo: u64, hi: u64)
        requires kept { IsKept self.old }
        ensures kept { IsKept self.new }
        ensures keeps { (f : ℕ) (o : SomeOwner) (b : ℕ) → MayHold self.old f o b → MayHold self.new f o b }
        ensures noted { (b : ℕ) → lo ≤ b → b ≤ hi → MayHold self.new file owner b }
    {
        self.note_file(file, owner);
        self.note_length(hi.saturating_sub(lo));
        let size = self.page_size();
        let first = lo / size;
        let last = hi / size;
        if last.saturating_sub(first) > MOST_PAGES {
            self.long.add(owner);
            return;
        }
        for page in first..last + 1 {
            self.note_page(file, owner, page);
        }
    }

    /// Notes the bytes that the owner gets in a file by a write.
    pub(crate) fn note_write(&mut self, file: u16, owner: Owner, write: &SpanEdit<Mode>)
        ensures keeps { (f : ℕ) (o : SomeOwner) (b : ℕ) → MayHold self.old f o b → MayHold self.new f o b }
        ensures noted { (before : ℕ → Option SomeMode) (b : ℕ) (m : SomeMode) → put before write.now.span write.now.value b ≡ Some m → (before b ≡ Some m) ⊎ MayHold self.new file owner b }
    {
        if write.value.is_none() {
            return;
        }
        if !self.is_kept() {
            return;
        }
        self.notes = self.notes.saturating_add(1);
        self.note_bytes(file, owner, write.span.lo, write.span.hi);
    }

    // Notes the bytes that a row holds.
    fn note_row(&mut self, row: &OwnerLocks)
        requires kept { IsKept self.old }
        ensures kept { IsKept self.new }
        ensures keeps { (f : ℕ) (o : SomeOwner) (b : ℕ) → MayHold self.old f o b → MayHold self.new f o b }
        ensures noted { (b : ℕ) (m : SomeMode) → value_at row.now.spans b ≡ Some m → MayHold self.new row.now.file row.now.owner b }
    {
        let mut from = 0;
        while let Some(run) = row.spans.next(from) {
            self.note_bytes(row.file, row.owner, run.lo, run.hi);
            from = run.hi + 1;
        }
    }

    // Notes the bytes that the rows hold.
    fn note_rows(&mut self, rows: &[OwnerLocks])
        requires kept { IsKept self.old }
        ensures kept { IsKept self.new }
        ensures keeps { (f : ℕ) (o : SomeOwner) (b : ℕ) → MayHold self.old f o b → MayHold self.new f o b }
        ensures noted { Covers self.new (rows_held rows.now) }
    {
        for row in rows {
            self.note_row(row);
        }
    }

    /// Forgets all notes, chooses the size of pages anew, and notes what the rows of the blocks
    /// hold.
    pub(crate) fn renew(&mut self, blocks: &[Block])
        ensures { Covers self.new (rows_held (all_rows blocks.now)) }
    {
        if !self.is_kept() {
            return;
        }
        self.extra = self.extra_next();
        self.sets.fill(OwnerSet::none());
        self.files.fill(FlagSet::none());
        self.long = OwnerSet::none();
        self.wide = OwnerSet::none();
        self.notes = 0;
        self.runs = 0;
        self.digits = 0;
        for block in blocks {
            self.note_rows(block.rows());
        }
    }
}
