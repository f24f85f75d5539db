//! What the lock table does that no node asks of it: locks that are set and freed at once, and owners of two incarnations in one
//! table.
use intervals::span::Span;
use lock_table::error::LockError;
use lock_table::lock_table::LockTable;
use lock_table::{Kind, LockInfo, Mode, Owner};
use std::alloc::{AllocError, Global};
use std::test::Fail;

const FILE: u16 = 1;

const TEN: Span = Span { lo: 10, hi: 19 };

const BYTE: Span = Span { lo: 15, hi: 15 };

// A process of node 1.
fn first() -> Owner {
    Owner {
        node: 1,
        incarnation: 1,
        kind: Kind::OfProcess,
        number: 1,
    }
}

// The lock of the second process.
fn low() -> LockInfo {
    LockInfo {
        owner: Owner {
            number: 2,
            ..first()
        },
        mode: Mode::Read,
        span: Span { lo: 10, hi: 29 },
    }
}

// The lock of a description, which comes after the processes of its node.
fn middle() -> LockInfo {
    LockInfo {
        owner: Owner {
            kind: Kind::OfDescription,
            ..first()
        },
        span: TEN,
        ..low()
    }
}

// The lock of a process of the node's next incarnation, which comes after all owners of the one before.
fn last() -> LockInfo {
    LockInfo {
        owner: Owner {
            incarnation: 2,
            ..first()
        },
        ..low()
    }
}

// The lock on that span alone.
fn on(lock: LockInfo, span: Span) -> LockInfo {
    LockInfo { span, ..lock }
}

fn copy_again(table: &LockTable) -> Result<LockTable, AllocError> {
    match table.copy() {
        Ok(copy) => Ok(copy),
        Err(_) => table.copy(),
    }
}

// Sets the lock, or unlocks its bytes.
fn change(table: &mut LockTable, lock: &LockInfo, sets: bool) -> Result<(), LockError> {
    if sets {
        table.set(lock.owner, FILE, lock.span, lock.mode)
    } else {
        table.unlock(lock.owner, FILE, lock.span)
    }
}

// Changes the locks, again where memory for it is refused. Whether the table is then as it was before.
fn changes_over(
    table: &mut LockTable,
    before: &LockTable,
    lock: &LockInfo,
    sets: bool,
) -> Result<bool, LockError> {
    if change(table, lock, sets).is_ok() {
        return Ok(true);
    }
    let is_same = table.same(before);
    change(table, lock, sets)?;
    Ok(is_same)
}

// Whether the change is made so, and the table is as it was where it is refused at first.
fn changes_again(table: &mut LockTable, lock: &LockInfo, sets: bool) -> Result<bool, LockError> {
    let before = copy_again(table)?;
    changes_over(table, &before, lock, sets)
}

// Whether the file has just these locks.
fn has_locks(table: &LockTable, locks: &[LockInfo]) -> Result<bool, AllocError> {
    match table.locks(FILE) {
        Ok(found) => Ok(found.as_slice() == locks),
        Err(_) => Ok(table.locks(FILE)?.as_slice() == locks),
    }
}

fn sets(table: &mut LockTable) -> Result<bool, LockError> {
    Ok(
        changes_again(table, &last(), true)?
            && changes_again(table, &middle(), true)?
            && changes_again(table, &low(), true)?,
    )
}

// Unlocks a byte within a lock, and the first half of another.
fn unlocks(table: &mut LockTable) -> Result<bool, LockError> {
    Ok(
        changes_again(table, &on(low(), BYTE), false)?
            && changes_again(table, &on(last(), TEN), false)?,
    )
}

fn has_all(table: &LockTable) -> Result<bool, AllocError> {
    has_locks(table, &[low(), middle(), last()])
}

fn has_rest(table: &LockTable) -> Result<bool, AllocError> {
    has_locks(table, &[middle(), on(last(), Span { lo: 20, hi: 29 })])
}

// Whether the locks are in their order as they are set, and are freed.
fn takes_all(table: &mut LockTable) -> Result<bool, LockError> {
    let is_free = sets(table)? && has_all(table)? && unlocks(table)?;
    table.drop_owner(low().owner, FILE);
    Ok(is_free && has_rest(table)?)
}

fn is_right(alloc: Global) -> Result<bool, LockError> {
    let mut table = LockTable::new(alloc, 1024);
    takes_all(&mut table)
}

// The lowest first byte goes before the lowest owner, processes go before descriptions, and these before the next incarnation.
// Where one request for memory is refused, the table is as it was, and the same call then goes through. `scripts/refused-memory`
// refuses the Nth request of the test, which passes at each N, so it keeps no table in a box.
#[test]
fn keeps_what_it_had(rt: HostRuntime) -> Result<(), Fail> {
    let is_right = is_right(rt.alloc())?;
    assert!(rt; is_right);
    Ok(())
}
