//! What a node holds, for reading.
//!
//! Each function here that can fail errs with `AllocError`, where a request for memory was refused.
ghost use Rattle.std.specs.Prelude.{◌≡◌, ◌≤◌, All, IfOk};
ghost use Rattle.model.specs.rule.Anchors.{IsAnchored};
ghost use Rattle.model.specs.rule.Locks.{IsOfNode};
ghost use Rattle.lock_table.specs.rule.Tables.{IsListing};
ghost use Rattle.token_set.specs.code.Sets.{ListsRuns};
ghost use Rattle.node_core.specs.rule.Parts.{node_state, IsCallOf};

use super::Node;
use crate::numbers::is_within;
use crate::open_call::OpenCall;
use intervals::span::Span;
use model::{Level, LockInfo};
use std::alloc::{AllocError, Global};

impl Node {
    /// The node's incarnation, from 1.
    #[tactic(auto, unfolding(crate::specs::rule::Parts::node_state))]
    pub fn incarnation(&self) -> u16
        ensures value { result ≡ (node_state self.now).incarnation }
        ensures counted { 1 ≤ result }
    {
        self.incarnation
    }

    /// The calls without a reply yet, in the order in which the node took them: each with its
    /// number, its process, what it wants, and the lock that it is about. The name of such a call
    /// is its number with the node and incarnation of `host`. A call that was answered in its own
    /// step was never one of them. Takes no memory.
    #[tactic(auto, unfolding(crate::specs::rule::Parts::node_state))]
    pub fn open_calls(&self) -> &[OpenCall]
        ensures calls { result.now ≡ (node_state self.now).pending }
        ensures own { All (IsCallOf (node_state self.now)) result.now }
    {
        self.pending.as_slice()
    }

    /// The longest runs of bytes at one level in the node's token for the file, each with its
    /// level, in ascending order; no runs if the file is not of the shape.
    pub fn token_runs(&self, alloc: Global, file: u16) -> Result<Vec<(Span, Level)>, AllocError>
        ensures { IfOk result (λ runs. ListsRuns ((node_state self.now).files file).token runs.items) }
    {
        if !is_within(self.shape.files(), file) {
            return Ok(Vec::new(alloc));
        }
        self.file(file).token.runs(alloc)
    }

    /// The regions of the file that the node's owners hold, by first byte and then by owner. No
    /// lock of the node outlives its descriptors.
    pub fn regions(&self, file: u16) -> Result<Vec<LockInfo>, AllocError>
        ensures listing { IfOk result (λ locks. IsListing ((node_state self.now).table.locks file) locks.items) }
        ensures own { IsOfNode ((node_state self.now).table.locks file) (node_state self.now).node (node_state self.now).incarnation }
        ensures anchored { IsAnchored (node_state self.now).table (node_state self.now).node (node_state self.now).incarnation }
    {
        self.locks.locks(file)
    }
}
