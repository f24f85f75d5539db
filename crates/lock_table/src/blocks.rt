//! The blocks of rows of a lock table, and their changes.
ghost use Rattle.std.specs.Prelude.{◌≡◌, ◌≤◌, ◌<◌, ◌+◌, ◌-◌, ◌^◌, ◌⊎◌, not, [], length, get_or, take, insert, remove, filter, IfOk};
ghost use Rattle.std.specs.Vec.{vec_len, vec_capacity};
ghost use Rattle.model.specs.rule.Owners.{same_owner};
ghost use Rattle.lock_table.specs.rule.Tables.{all_rows};
ghost use Rattle.lock_table.specs.code.Rows.{AreSome, HasRoom, rows_before};

use crate::block::Block;
use crate::owner_locks::OwnerLocks;
use crate::place::Place;
use model::Owner;
use std::alloc::{AllocError, Global};

/// Memory for one more block of a table: a block without rows, and a list with places for all
/// blocks and one more.
#[derive(Drop)]
pub struct RowRoom {
    pub(crate) block: Block,
    pub(crate) places: Vec<Block>,
}

// Memory for one more block, where there are so many.
pub(crate) fn row_room(alloc: Global, blocks: usize) -> Result<Box<RowRoom>, AllocError>
    ensures empty { IfOk result (λ room. room.value.block ≡ []) }
    ensures places { IfOk result (λ room. blocks < vec_capacity room.value.places) }
{
    let block = Block::with_memory(alloc)?;
    let places = Vec::with_capacity(alloc, blocks.saturating_add(blocks / 2).saturating_add(4))?;
    Ok(Box::new(alloc, RowRoom { block, places })?)
}

// Equal blocks.
pub(crate) fn copies(alloc: Global, blocks: &[Block]) -> Result<Vec<Block>, AllocError>
    ensures { IfOk result (λ copies. copies.items ≡ blocks.now) }
{
    let mut copies = Vec::with_capacity(alloc, blocks.len())?;
    for block in blocks {
        copies.push(block.copy()?)?;
    }
    Ok(copies)
}

// Moves the blocks to `places`, which has more places than there are blocks, if their own list has
// none left.
fn make_room(blocks: &mut Vec<Block>, mut places: Vec<Block>)
    requires { vec_len blocks.old < vec_capacity places }
    ensures blocks { blocks.new.items ≡ blocks.old.items }
    ensures room { vec_len blocks.new < vec_capacity blocks.new }
{
    if blocks.len() < blocks.capacity() {
        return;
    }
    places.clear();
    let Ok(()) = places.append(blocks) else {
        unreachable!()
    };
    *blocks = places;
}

// Inserts a block, for which there is a place.
fn insert_block(blocks: &mut Vec<Block>, at: usize, block: Block)
    requires place { at ≤ vec_len blocks.old }
    requires room { vec_len blocks.old < vec_capacity blocks.old }
    ensures { blocks.new.items ≡ insert blocks.old.items at block }
{
    let Ok(()) = blocks.insert(at, block) else {
        unreachable!()
    };
}

// Inserts a row in a block that isn't full.
fn insert_in(blocks: &mut Vec<Block>, place: Place, row: OwnerLocks)
    requires block { place.block < vec_len blocks.old }
    requires within { place.row ≤ length (get_or blocks.old.items place.block []) }
    requires room { length (get_or blocks.old.items place.block []) < 64 }
    requires some { AreSome blocks.old.items }
    ensures rows { all_rows blocks.new.items ≡ insert (all_rows blocks.old.items) (rows_before blocks.old.items place) row }
    ensures some { AreSome blocks.new.items }
{
    blocks[place.block].insert(place.row, row);
}

// How many rows of a full block stay where one is to be inserted at this place: half of them; one
// eighth at their front, and seven eighths behind them, so that blocks are full where rows come in
// order.
fn kept_of(row: usize) -> usize
    ensures some { 0 < result }
    ensures within { result < 64 }
{
    match row {
        0 => 8,
        64 => 56,
        _ => 32,
    }
}

// Moves the rows behind the first `kept` ones of a block to a block of their own behind it.
fn cut(blocks: &mut Vec<Block>, at: usize, kept: usize, mut upper: Block)
    requires block { at < vec_len blocks.old }
    requires some_kept { 0 < kept }
    requires kept { kept < length (get_or blocks.old.items at []) }
    requires empty { upper ≡ [] }
    requires room { vec_len blocks.old < vec_capacity blocks.old }
    requires some { AreSome blocks.old.items }
    ensures few { length (get_or blocks.old.items at []) ≤ 64 }
    ensures rows { all_rows blocks.new.items ≡ all_rows blocks.old.items }
    ensures some { AreSome blocks.new.items }
    ensures blocks { vec_len blocks.new ≡ vec_len blocks.old + 1 }
    ensures below { take at blocks.new.items ≡ take at blocks.old.items }
    ensures lower { length (get_or blocks.new.items at []) ≡ kept }
    ensures upper { length (get_or blocks.new.items (at + 1) []) + kept ≡ length (get_or blocks.old.items at []) }
{
    blocks[at].move_upper(kept, &mut upper);
    insert_block(blocks, at + 1, upper);
}

// The place, once the first `kept` rows of its block have been cut from the others.
fn place_behind(place: Place, kept: usize) -> Place
    requires { place.block < 2 ^ 63 }
    ensures low { place.row ≤ kept → result ≡ place }
    ensures block { kept < place.row → result.block ≡ place.block + 1 }
    ensures row { kept < place.row → result.row + kept ≡ place.row }
{
    if place.row <= kept {
        return place;
    }
    Place {
        block: place.block + 1,
        row: place.row - kept,
    }
}

// Inserts a row at a place. Takes no memory.
pub(crate) fn insert_row(
    blocks: &mut Vec<Block>,
    place: Place,
    row: OwnerLocks,
    room: Option<Box<RowRoom>>,
)
    requires within { place.row ≤ length (get_or blocks.old.items place.block []) }
    requires block { (place.block < vec_len blocks.old) ⊎ (vec_len blocks.old ≡ 0) }
    requires room { HasRoom blocks.old.items place room }
    requires some { AreSome blocks.old.items }
    ensures rows { all_rows blocks.new.items ≡ insert (all_rows blocks.old.items) (rows_before blocks.old.items place) row }
    ensures some { AreSome blocks.new.items }
{
    let Some(room) = room else {
        return insert_in(blocks, place, row);
    };
    let RowRoom { mut block, places } = Box::into_inner(room);
    make_room(blocks, places);
    if blocks.is_empty() {
        block.insert(0, row);
        return insert_block(blocks, 0, block);
    }
    let kept = kept_of(place.row);
    cut(blocks, place.block, kept, block);
    insert_in(blocks, place_behind(place, kept), row);
}

// Removes the row at a place, and its block, if that has no other.
pub(crate) fn remove_row(blocks: &mut Vec<Block>, place: Place)
    requires within { place.row < length (get_or blocks.old.items place.block []) }
    requires some { AreSome blocks.old.items }
    ensures rows { all_rows blocks.new.items ≡ remove (all_rows blocks.old.items) (rows_before blocks.old.items place) }
    ensures some { AreSome blocks.new.items }
{
    blocks[place.block].remove(place.row);
    if blocks[place.block].is_empty() {
        blocks.remove(place.block);
    }
}

// Removes all rows of an owner.
pub(crate) fn drop_rows(blocks: &mut Vec<Block>, owner: Owner)
    ensures rows { all_rows blocks.new.items ≡ filter (λ row. not (same_owner row.owner owner)) (all_rows blocks.old.items) }
    ensures some { AreSome blocks.new.items }
{
    for at in 0..blocks.len() {
        blocks[at].drop_owner(owner);
    }
    blocks.retain(|block| !block.is_empty());
}
