//! Places of rows in the blocks of a lock table, and the searches for them.
ghost use Rattle.std.specs.Prelude.{◌≡◌, ◌≤◌, ◌<◌, ◌+◌, ◌++◌, ◌∷◌, [], true, nat_lt, All, IfSome, IsTrue, ◌↔◌, MatchOption, length, get_or, take, drop};
ghost use Rattle.std.specs.List.{AllWithin, AllZip};
ghost use Rattle.lock_table.specs.code.Rows.{mark_of as mark_at, AllAfter, AreRows, ArePassed, IsSameRow, AllBefore, AreSome, IsPlaced, IsRowOf};
ghost use Rattle.lock_table.specs.rule.Tables.{all_rows, rows_held};

use crate::block::Block;
use crate::owner_locks::OwnerLocks;
use crate::owner_set::{OwnerSet, flag_of, mark_of};
use model::Owner;

/// A place of a row: the number of its block, and the place in it, each from 0.
#[derive(Clone, Copy)]
pub struct Place {
    pub(crate) block: usize,
    pub(crate) row: usize,
}

// The last block that doesn't begin behind the place of the owner in the file, or else the first.
fn block_of(blocks: &[Block], file: u16, owner: Owner) -> usize
    requires rows { AreRows (all_rows blocks.now) }
    requires some { AreSome blocks.now }
    ensures bound { result ≤ length blocks.now }
    ensures within { 0 < length blocks.now → result < length blocks.now }
    ensures below { AllBefore file owner (all_rows (take result blocks.now)) }
    ensures above { AllAfter file owner (all_rows (drop (result + 1) blocks.now)) }
{
    if blocks.len() <= 1 {
        return 0;
    }
    let mark = mark_of(file, owner);
    let begun = blocks.partition_point(|block| block.begins_to(mark, owner));
    begun.saturating_sub(1)
}

// The place of the owner's row in the file, or the place at which it belongs.
pub(crate) fn position(blocks: &[Block], file: u16, owner: Owner) -> Result<Place, Place>
    requires rows { AreRows (all_rows blocks.now) }
    requires some { AreSome blocks.now }
    ensures { IsPlaced blocks.now result file owner }
{
    let block = block_of(blocks, file, owner);
    if block == blocks.len() {
        return Err(Place { block, row: 0 });
    }
    let mark = mark_of(file, owner);
    match blocks[block]
        .rows()
        .binary_search_by(|row| row.cmp_place(mark, owner))
    {
        Ok(row) => Ok(Place { block, row }),
        Err(row) => Err(Place { block, row }),
    }
}

// The row at a place.
pub(crate) fn row_at(blocks: &[Block], place: Place) -> &OwnerLocks
    requires { IsRowOf blocks.now place }
    ensures { result.now ≡ get_or (get_or blocks.now place.block []) place.row result.now }
{
    &blocks[place.block].rows()[place.row]
}

// The blocks that may have rows of the file.
pub(crate) fn blocks_of(blocks: &[Block], file: u16) -> &[Block]
    requires rows { AreRows (all_rows blocks.now) }
    requires some { AreSome blocks.now }
    ensures rows { AreRows (all_rows result.now) }
    ensures held { rows_held (all_rows result.now) file ≡ rows_held (all_rows blocks.now) file }
{
    if blocks.len() <= 1 {
        return blocks;
    }
    let begun = blocks.partition_point(|block| block.first_file() < file);
    let end = blocks.partition_point(|block| block.first_file() <= file);
    &blocks[begun.saturating_sub(1)..end]
}

// Whether the first and the last of the rows are of the file, so that all are.
fn are_of_file(rows: &[OwnerLocks], file: u16) -> bool
    requires { AreRows rows.now }
    ensures { result ≡ true → All (λ row. row.file ≡ file) rows.now }
{
    match (rows.first(), rows.last()) {
        (Some(first), Some(last)) => first.file == file && last.file == file,
        _ => false,
    }
}

// The rows of a file.
pub(crate) fn rows_of(rows: &[OwnerLocks], file: u16) -> &[OwnerLocks]
    requires { AreRows rows.now }
    ensures rows { AreRows result.now }
    ensures file { All (λ row. row.file ≡ file) result.now }
    ensures held { rows_held result.now file ≡ rows_held rows.now file }
{
    if are_of_file(rows, file) {
        return rows;
    }
    let start = rows.partition_point(|row| row.file < file);
    let end = rows.partition_point(|row| row.file <= file);
    &rows[start..end]
}

// The number of rows whose marks are below a bound. Found by halving, unless all are.
fn marks_below(rows: &[OwnerLocks], bound: usize) -> usize
    requires { AreRows rows.now }
    ensures within { result ≤ length rows.now }
    ensures below { AllWithin (λ row. nat_lt (mark_at row.file row.owner) bound ≡ true) rows.now 0 result }
{
    match rows.last() {
        Some(row) if mark_of(row.file, row.owner) < bound => rows.len(),
        _ => rows.partition_point(|row| mark_of(row.file, row.owner) < bound),
    }
}

// The place of the first row, from place `from` on, whose owner may be in the set. Where none is, the
// last row tells so; else the place is found by halving.
pub(crate) fn next_near(rows: &[OwnerLocks], from: usize, near: &OwnerSet) -> usize
    requires rows { AreRows rows.now }
    requires from { from ≤ length rows.now }
    ensures from { from ≤ result }
    ensures within { result ≤ length rows.now }
    ensures passed { ArePassed rows.now near.now from result }
{
    if from == rows.len() {
        return from;
    }
    let row = &rows[from];
    if near.has(row.owner) {
        return from;
    }
    let next = near.next(flag_of(row.owner));
    let bound = row.file as usize * 256 + next;
    let (_, rest) = rows.split_at(from);
    from + marks_below(rest, bound)
}

// The first one of `rows` and then of the rows of `blocks`, with the rows and blocks behind it.
fn next_of<'a>(
    rows: &'a [OwnerLocks],
    blocks: &'a [Block],
) -> Option<(&'a OwnerLocks, &'a [OwnerLocks], &'a [Block])>
    requires { AreSome blocks.now }
    ensures next { MatchOption result (rows.now ++ all_rows blocks.now ≡ []) (λ x. rows.now ++ all_rows blocks.now ≡ x.0.now ∷ (x.1.now ++ all_rows x.2.now)) }
    ensures some { IfSome result (λ x. AreSome x.2.now) }
{
    if let Some((row, rest)) = rows.split_first() {
        return Some((row, rest, blocks));
    }
    let (block, later) = blocks.split_first()?;
    let (row, rest) = block.rows().split_first()?;
    Some((row, rest, later))
}

// Whether both lists of blocks have equal rows in the same order, in whichever blocks.
pub(crate) fn same_rows(blocks: &[Block], others: &[Block]) -> bool
    requires some { AreSome blocks.now }
    requires others { AreSome others.now }
    ensures { IsTrue result ↔ AllZip IsSameRow (all_rows blocks.now) (all_rows others.now) }
{
    let none: &[OwnerLocks] = &[];
    let (mut rows, mut left) = (none, blocks);
    let (mut twins, mut behind) = (none, others);
    while let Some((row, more, later)) = next_of(rows, left) {
        let Some((twin, rest, last)) = next_of(twins, behind) else {
            return false;
        };
        if !row.same(twin) {
            return false;
        }
        (rows, left) = (more, later);
        (twins, behind) = (rest, last);
    }
    next_of(twins, behind).is_none()
}
