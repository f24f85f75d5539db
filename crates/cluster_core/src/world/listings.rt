//! The tokens and the locks of a cluster as lists. A function here that gives a `Result` answers `AllocError` where a
//! request for memory was refused.
ghost use Rattle.std.specs.Prelude.{◌≡◌, ◌++◌, true, IfOk, OnOk, map};
ghost use Rattle.messages.specs.rule.Messages.{is_within};
ghost use Rattle.lock_table.specs.rule.Tables.{IsListing};
ghost use Rattle.node_core.specs.rule.Parts.{node_state};
ghost use Rattle.cluster_core.specs.rule.Parts.{world_state};
ghost use Rattle.cluster_core.specs.rule.Union.{union};
ghost use Rattle.cluster_core.specs.rule.Listings.{Adds, IsTokenListing, IsTokenOf, IsTokenOfFile, IsTokenBefore, IsLockListing, token_run, held_lock};

use super::World;
use crate::held_lock::HeldLock;
use crate::node_token_run::NodeTokenRun;
use intervals::span::Span;
use lock_table::order::cmp_regions;
use model::{Level, LockInfo};
use node_core::Node;
use std::alloc::{AllocError, Global};

// Appends the runs, each with its node, incarnation and file.
fn push_runs(
    tokens: &mut Vec<NodeTokenRun>,
    node: u8,
    incarnation: u16,
    file: u16,
    runs: &[(Span, Level)],
) -> Result<(), AllocError>
    ensures { OnOk result (tokens.new.items ≡ tokens.old.items ++ map (token_run node incarnation file) runs.now) }
{
    for run in runs {
        tokens.push(NodeTokenRun {
            node,
            incarnation,
            file,
            span: run.0,
            level: run.1,
        })?;
    }
    Ok(())
}

// Appends the regions, each with its file.
fn push_regions(
    locks: &mut Vec<HeldLock>,
    file: u16,
    regions: &[LockInfo],
) -> Result<(), AllocError>
    ensures { OnOk result (locks.new.items ≡ locks.old.items ++ map (held_lock file) regions.now) }
{
    for lock in regions {
        locks.push(HeldLock { file, lock: *lock })?;
    }
    Ok(())
}

impl World {
    // Appends the runs of the node's token for one file.
    fn push_file_tokens(
        &self,
        alloc: Global,
        tokens: &mut Vec<NodeTokenRun>,
        node: u8,
        file: u16,
    ) -> Result<(), AllocError>
        requires node { is_within self.now.shape.nodes node ≡ true }
        requires alive { (world_state self.now).alive node ≡ true }
        requires file { is_within self.now.shape.files file ≡ true }
        ensures { OnOk result (Adds (IsTokenOfFile (world_state self.now) node file) IsTokenBefore tokens.old.items tokens.new.items) }
    {
        let holder = self.node(node);
        let runs = holder.token_runs(alloc, file)?;
        push_runs(tokens, node, holder.incarnation(), file, &runs)
    }

    // Appends the runs of the node's tokens for all files.
    fn push_node_tokens(
        &self,
        alloc: Global,
        tokens: &mut Vec<NodeTokenRun>,
        node: u8,
    ) -> Result<(), AllocError>
        requires { is_within self.now.shape.nodes node ≡ true }
        ensures { OnOk result (Adds (IsTokenOf (world_state self.now) node) IsTokenBefore tokens.old.items tokens.new.items) }
    {
        if !self.is_alive(node) {
            return Ok(());
        }
        for index in 0..self.shape.files() {
            self.push_file_tokens(alloc, tokens, node, index + 1)?;
        }
        Ok(())
    }

    /// The tokens of the live nodes, each longest run of bytes at one level once, by node, then by file, then by
    /// first byte.
    pub fn tokens(&self, alloc: Global) -> Result<Vec<NodeTokenRun>, AllocError>
        ensures { IfOk result (λ tokens. IsTokenListing (world_state self.now) tokens.items) }
    {
        let mut tokens = Vec::new(alloc);
        for index in 0..self.shape.nodes() {
            self.push_node_tokens(alloc, &mut tokens, index + 1)?;
        }
        Ok(tokens)
    }

    // The regions of a file that owners on live nodes hold, by first byte, then by owner.
    fn file_locks(&self, alloc: Global, file: u16) -> Result<Vec<LockInfo>, AllocError>
        ensures { IfOk result (λ locks. IsListing ((union (world_state self.now)).locks file) locks.items) }
    {
        let mut locks = Vec::new(alloc);
        for index in 0..self.shape.nodes() {
            if !self.is_alive(index + 1) {
                continue;
            }
            let own = self.node(index + 1).regions(file)?;
            locks.extend_from_slice(&own)?;
        }
        locks.sort_unstable_by(cmp_regions);
        Ok(locks)
    }

    /// The locks of the live nodes together, each region once, by file, then by first byte, then by owner.
    pub fn locks(&self, alloc: Global) -> Result<Vec<HeldLock>, AllocError>
        ensures { IfOk result (λ locks. IsLockListing (world_state self.now) locks.items) }
    {
        let mut locks = Vec::new(alloc);
        for index in 0..self.shape.files() {
            let file = index + 1;
            let regions = self.file_locks(alloc, file)?;
            push_regions(&mut locks, file, &regions)?;
        }
        Ok(locks)
    }
}
