//! The choice of the calls that may have to come first. A function here that gives a `Result` answers `AllocError`
//! where a request for memory was refused.
ghost use Rattle.std.specs.Prelude.{◌≡◌, ℕ, true, List, slice_get, Some, IfOk, IsTrue, ◌↔◌};
ghost use Rattle.model.specs.rule.Locks.{Locks};
ghost use Rattle.lock_table.specs.rule.Tables.{held};
ghost use Rattle.client_history.specs.declared.open_client_call.OpenClientCall.{OpenClientCall as SomeCall};
ghost use Rattle.client_history.specs.rule.Explained.{ActStep, the_file};
ghost use Rattle.client_history.specs.code.OpenCalls.{IsGrown, IsClosedSet, Changes, IsServed, IsLeft, IsIn, IsLeftOf, AreAsked, AreOthersTaken, IsFirstTaken, AreFirst};

use crate::needs::{is_denied, least_kept, needs};
use crate::{Act, OpenClientCall, is_free};
use lock_table::lock_table::LockTable;
use std::alloc::{AllocError, Global};

/// The calls that the search tries next at a front. Whatever goes on from there up to the end of the call `end` may
/// begin with one of them, because the other open calls commute with these.
pub(crate) fn first_calls(
    alloc: Global,
    table: &LockTable,
    open: &[OpenClientCall],
    taken: &[usize],
    end: usize,
) -> Result<Vec<OpenClientCall>, AllocError>
    ensures { IfOk result (λ first. AreFirst (held table.now) «open».now taken.now end first.items) }
{
    let set = closed_set(alloc, table, open, taken, end)?;
    let mut first = Vec::new(alloc);
    for call in &set {
        if may_come(table, open, taken, call) {
            first.push(*call)?;
        }
    }
    Ok(first)
}

// The call that ends, with all calls that it needs, and those that they need in turn.
fn closed_set(
    alloc: Global,
    table: &LockTable,
    open: &[OpenClientCall],
    taken: &[usize],
    end: usize,
) -> Result<Vec<OpenClientCall>, AllocError>
    ensures { IfOk result (λ set. IsClosedSet (held table.now) «open».now taken.now end set.items) }
{
    let mut set = Vec::new(alloc);
    for call in open {
        if call.index == end {
            add(&mut set, call)?;
        }
    }
    let mut place = 0;
    while place < set.len() {
        let index = set[place].index;
        serve(&mut set, table, open, taken, index)?;
        place += 1;
    }
    Ok(set)
}

// Adds the calls that the call with that index needs, if it is left.
fn serve(
    set: &mut Vec<OpenClientCall>,
    table: &LockTable,
    open: &[OpenClientCall],
    taken: &[usize],
    index: usize,
) -> Result<(), AllocError>
    ensures grown { IsGrown «open».now set.old.items set.new.items }
    ensures served { IfOk result (λ _. AreAsked «open».now taken.now (held table.now) → (k : ℕ) (one : SomeCall) → slice_get «open».now k ≡ Some one → one.index ≡ index → IsLeft one taken.now → IsServed (held table.now) (IsLeftOf «open».now taken.now) (IsIn set.new.items) one.call) }
{
    for call in open {
        if call.index == index && call.is_left(taken) {
            add_needed(set, table, open, taken, call)?;
        }
    }
    Ok(())
}

// Adds the calls that are left and that the call needs. A call that may be denied here needs none.
fn add_needed(
    set: &mut Vec<OpenClientCall>,
    table: &LockTable,
    open: &[OpenClientCall],
    taken: &[usize],
    call: &OpenClientCall,
) -> Result<(), AllocError>
    ensures grown { IsGrown «open».now set.old.items set.new.items }
    ensures served { IfOk result (λ _. AreAsked «open».now taken.now (held table.now) → (k : ℕ) → slice_get «open».now k ≡ Some call.now → IsLeft call.now taken.now → IsServed (held table.now) (IsLeftOf «open».now taken.now) (IsIn set.new.items) call.now.call) }
{
    if is_denied(table, call) {
        return Ok(());
    }
    let kept = least_kept(table, open, taken, call)?;
    for other in open {
        if needs(open, taken, call, &kept, other) && other.is_left(taken) {
            add(set, other)?;
        }
    }
    Ok(())
}

// Adds the call, unless the list has one of its index.
fn add(set: &mut Vec<OpenClientCall>, call: &OpenClientCall) -> Result<(), AllocError>
    ensures grown { (running : List SomeCall) (k : ℕ) → slice_get running k ≡ Some call.now → IsGrown running set.old.items set.new.items }
    ensures there { IfOk result (λ _. IsIn set.new.items call.now.index) }
{
    if !has_index(set, call.index) {
        set.push(*call)?;
    }
    Ok(())
}

// Whether one of the calls has the index.
fn has_index(calls: &[OpenClientCall], index: usize) -> bool
    ensures { IsTrue result ↔ IsIn calls.now index }
{
    for call in calls {
        if call.index == index {
            return true;
        }
    }
    false
}

// Whether the call changes locks, and may come next.
fn may_come(
    table: &LockTable,
    open: &[OpenClientCall],
    taken: &[usize],
    call: &OpenClientCall,
) -> bool
    ensures { IsLeft call.now taken.now → Changes call.now.call.act → (next : Locks) → ActStep the_file (held table.now) call.now.call.owner call.now.call.act next → (call.now.call.is_last ≡ true → AreOthersTaken «open».now taken.now call.now) → IsFirstTaken «open».now taken.now call.now → result ≡ true }
{
    call.changes()
        && call.is_left(taken)
        && may_end_owner(open, taken, call)
        && is_first_taken(open, taken, call)
        && is_allowed(table, call)
}

// Whether no other call of its owner has to come before it. Before an exit each that has a reply has to.
fn may_end_owner(open: &[OpenClientCall], taken: &[usize], call: &OpenClientCall) -> bool
    ensures { (call.now.call.is_last ≡ true → AreOthersTaken «open».now taken.now call.now) → result ≡ true }
{
    if !call.call.is_last {
        return true;
    }
    for other in open {
        if other.is_beside(call) && other.call.end.is_some() && !taken.contains(&other.index) {
            return false;
        }
    }
    true
}

// Whether the call that it follows, if that is open, was taken.
fn is_first_taken(open: &[OpenClientCall], taken: &[usize], call: &OpenClientCall) -> bool
    ensures { IsFirstTaken «open».now taken.now call.now → result ≡ true }
{
    match call.call.follows {
        Some(first) => taken.contains(&first) || !has_index(open, first),
        None => true,
    }
}

// Whether no lock of another owner blocks the call, if it changes locks.
fn is_allowed(table: &LockTable, call: &OpenClientCall) -> bool
    ensures { (next : Locks) → ActStep the_file (held table.now) call.now.call.owner call.now.call.act next → result ≡ true }
{
    match call.call.act {
        Act::Locks { mode, span } => is_free(table, call.call.owner, span, mode),
        _ => true,
    }
}
