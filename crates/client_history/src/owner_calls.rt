//! The facts of each owner's calls that the search needs.
ghost use Rattle.std.specs.Prelude.{◌≡◌, ℕ, ◌≤◌, false, List, slice_get, Some, IfOk, IfSome, IsTrue, OnOk, ◌↔◌};
ghost use Rattle.client_history.specs.declared.client_call.ClientCall.{ClientCall as SomeCall};
ghost use Rattle.client_history.specs.code.OpenCalls.{Changes, AreOwnerCalls, IsExitOfOwner, IsKnownOf};
ghost use Rattle.client_history.specs.code.Moves.{IsBeginOf, AsksOnly};

use crate::{Act, ClientCall};
use indexmap::IndexMap;
use model::Owner;
use std::alloc::{AllocError, Global};

// The facts of one owner: the index of its exit, and the latest begin of its calls that have a reply, or 0.
#[derive(Clone, Copy)]
struct OwnerFacts {
    exit: Option<usize>,
    latest: u64,
}

/// The facts of each owner's calls, found before the search.
#[derive(Drop)]
pub(crate) struct OwnerCalls {
    known: IndexMap<Owner, OwnerFacts>,
}

impl OwnerCalls {
    /// The facts of these calls.
    ///
    /// # Errors
    /// `AllocError` where a request for memory was refused.
    pub(crate) fn new(alloc: Global, calls: &[ClientCall]) -> Result<Self, AllocError>
        ensures { IfOk result (λ owners. AreOwnerCalls calls.now owners) }
    {
        let mut owners = OwnerCalls {
            known: IndexMap::new(alloc),
        };
        for (index, call) in calls.iter().enumerate() {
            owners.add(index, call)?;
        }
        Ok(owners)
    }

    // Adds the facts of one call more.
    fn add(&mut self, index: usize, call: &ClientCall) -> Result<(), AllocError>
        ensures { OnOk result ((calls : List SomeCall) → slice_get calls index ≡ Some call.now → AreOwnerCalls calls self.old → AreOwnerCalls calls self.new) }
    {
        let known = with_call(self.of(call.owner), index, call);
        self.known.insert(call.owner, known)?;
        Ok(())
    }

    // The facts of the owner: none where it has no call.
    fn of(&self, owner: Owner) -> OwnerFacts
        ensures { (calls : List SomeCall) → AreOwnerCalls calls self.now → IsKnownOf calls owner result }
    {
        match self.known.get(&owner) {
            Some(known) => *known,
            None => OwnerFacts {
                exit: None,
                latest: 0,
            },
        }
    }

    /// The index of the owner's exit, if there is one.
    pub(crate) fn exit_of(&self, owner: Owner) -> Option<usize>
        ensures { (calls : List SomeCall) → AreOwnerCalls calls self.now → IfSome result (λ exit. IsExitOfOwner calls exit owner) }
    {
        self.of(owner).exit
    }

    /// The time from which the search looks at the call: its begin, or, for an exit, the begin of the last call of
    /// its owner that has a reply, if that is later. It is no later than the call's end.
    pub(crate) fn begin_of(&self, call: &ClientCall) -> u64
        ensures { (calls : List SomeCall) → AreOwnerCalls calls self.now → ((end : ℕ) → call.now.end ≡ Some end → call.now.begin ≤ end) → IsBeginOf calls call.now result }
    {
        if !call.is_last {
            return call.begin;
        }
        let latest = call.begin.max(self.of(call.owner).latest);
        match call.end {
            Some(end) => latest.min(end),
            None => latest,
        }
    }
}

// The facts of an owner with one call more.
fn with_call(before: OwnerFacts, index: usize, call: &ClientCall) -> OwnerFacts
    ensures { (calls : List SomeCall) → slice_get calls index ≡ Some call.now → IsKnownOf calls call.now.owner before → IsKnownOf calls call.now.owner result }
{
    let mut known = before;
    if call.is_last && known.exit.is_none() {
        known.exit = Some(index);
    }
    if call.end.is_some() {
        known.latest = known.latest.max(call.begin);
    }
    known
}

/// Whether the act changes locks; else it only asks.
pub(crate) fn changes(act: &Act) -> bool
    ensures changes { IsTrue result ↔ Changes act.now }
    ensures asks { result ≡ false → AsksOnly act.now }
{
    match act {
        Act::Locks { .. } | Act::Frees { .. } | Act::Drops => true,
        Act::IsDenied { .. } | Act::IsFree { .. } => false,
    }
}
