//! An index from the names of a run's calls to the entries that make them.
ghost use Rattle.std.specs.Prelude.{◌≡◌, ◌<◌, ◌==◌, ◌&&◌, ◌+◌, ◌∷◌, ◌++◌, [], ℕ, if◌then◌else◌, length, None, IfOk, OnOk};
ghost use Rattle.std.specs.Option.{option_map_or};
ghost use Rattle.model.specs.declared.call.CallId.{CallId};
ghost use Rattle.model.specs.declared.host.Host.{Host};
ghost use Rattle.model.specs.rule.Owners.{host_of_call, same_host};
ghost use Rattle.placement.specs.code.Indexes.{list_at, row_of, entry_of, TakesIn};

use model::CallId;
use std::alloc::{AllocError, Global};
use std::collections::HashMap;

// For each node, and for each of its incarnations: the indexes of the entries that make its calls 1, 2, 3 and so on.
type Rows = Vec<Vec<Vec<u32>>>;

/// An index from the name of a call to the index of the entry that makes it. In a run a host's calls have the numbers
/// 1, 2, 3 and so on, so that each stands at its place in the host's row. A call that comes out of that order is
/// found too.
#[derive(Drop)]
pub(crate) struct CallIndex {
    rows: Rows,
    // The calls that were not the next of their host's row when they came.
    others: HashMap<CallId, u32>,
}

impl CallIndex {
    /// The index of no calls.
    pub(crate) fn new(alloc: Global) -> CallIndex
        ensures { (id : CallId) → entry_of result id ≡ None }
    {
        CallIndex {
            rows: Vec::new(alloc),
            others: HashMap::new(alloc),
        }
    }

    /// The index of the entry that makes the call, if the call is known.
    pub(crate) fn get(&self, id: CallId) -> Option<u32>
        ensures { result ≡ entry_of self.now id }
    {
        if let Some(row) = row_of(&self.rows, id) {
            if let Some(index) = row.get(id.number as usize - 1) {
                return Some(*index);
            }
        }
        self.others.get(&id).copied()
    }

    /// Adds the call, with the index of the entry that makes it, unless the call is known.
    pub(crate) fn note(&mut self, alloc: Global, id: CallId, index: u32) -> Result<(), AllocError>
        ensures { OnOk result (TakesIn self.old id index self.new) }
    {
        if self.get(id).is_some() {
            return Ok(());
        }
        if !push_next(&mut self.rows, alloc, id, index)? {
            self.others.insert(id, index)?;
        }
        Ok(())
    }
}

// The row of the call's host, if there is one.
fn row_of(rows: &Rows, id: CallId) -> Option<&Vec<u32>>
    ensures { option_map_or (λ row. row.now.items) result [] ≡ row_of rows.now (host_of_call id) }
{
    rows.get(id.node as usize)?.get(id.incarnation as usize)
}

// Puts the index at the end of the row of the call's host, if the call is the next of that row. Answers whether it
// is.
fn push_next(rows: &mut Rows, alloc: Global, id: CallId, index: u32) -> Result<bool, AllocError>
    ensures next { IfOk result (λ pushed. pushed ≡ (id.number == length (row_of rows.old (host_of_call id)) + 1)) }
    ensures row { IfOk result (λ pushed. (host : Host) → row_of rows.new host ≡ row_of rows.old host ++ (if pushed && same_host (host_of_call id) host then index ∷ [] else [])) }
{
    let (node, incarnation) = (id.node as usize, id.incarnation as usize);
    lengthen(rows, alloc, node)?;
    lengthen(&mut rows[node], alloc, incarnation)?;
    let row = &mut rows[node][incarnation];
    if id.number as usize != row.len() + 1 {
        return Ok(false);
    }
    row.push(index)?;
    Ok(true)
}

// Adds empty lists at the end, until there is one at that place.
fn lengthen<T: Drop>(lists: &mut Vec<Vec<T>>, alloc: Global, place: usize) -> Result<(), AllocError>
    ensures long { OnOk result (place < length lists.new.items) }
    ensures same { OnOk result ((k : ℕ) → list_at lists.new.items k ≡ list_at lists.old.items k) }
{
    while lists.len() <= place {
        lists.push(Vec::new(alloc))?;
    }
    Ok(())
}
