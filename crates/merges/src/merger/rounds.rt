//! Putting whatever may be put.
ghost use Rattle.std.specs.Prelude.{◌≡◌, ◌↔◌, true, false, length, IsTrue, IfOk, IfErr, OnOk};
ghost use Rattle.merges.specs.code.Merging.{IsDone, IsMerger, Fails, IsExact, IsStuck, Longer, PutsOn, fields_of, merging_of};

use super::Merger;
use crate::{MergeError, Stuck};
use cluster_core::Run;
use std::alloc::Global;

impl Merger {
    // Sets the floor to the earliest moment at which something that is left had ended.
    fn raise_floor(&mut self)
        ensures floor { fields_of self.new ≡ record (fields_of self.old) { floor = self.new.floor } }
        ensures good { IsMerger (fields_of self.old) → IsMerger (fields_of self.new) }
        ensures exact { IsMerger (fields_of self.old) → IsExact (fields_of self.new) }
    {
        let mut floor = self.changes.least_end();
        for index in 0..self.logs.len() {
            floor = floor.min(self.logs[index].least_end());
        }
        self.floor = floor;
    }

    // Puts what may be put of each log and of the declarations and starts, one list after the other.
    fn put_round(&mut self, alloc: Global) -> Result<bool, MergeError>
        requires { IsMerger (fields_of self.old) }
        ensures puts { OnOk result (PutsOn (fields_of self.old) (fields_of self.new)) }
        ensures stuck { IfOk result (λ put. put ≡ false → IsStuck (fields_of self.new)) }
        ensures longer { IfOk result (λ put. put ≡ true → Longer (fields_of self.old) (fields_of self.new)) }
        ensures fails { IfErr result (λ e. Fails e (fields_of self.old)) }
    {
        self.raise_floor();
        let mut put = false;
        for index in 0..self.logs.len() {
            if self.put_log(alloc, index)? {
                put = true;
            }
        }
        if self.put_change(alloc)? {
            put = true;
        }
        Ok(put)
    }

    // Puts whatever may be put, until nothing may.
    fn put_until_stuck(&mut self, alloc: Global) -> Result<(), MergeError>
        requires { IsMerger (fields_of self.old) }
        ensures puts { OnOk result (PutsOn (fields_of self.old) (fields_of self.new)) }
        ensures stuck { OnOk result (IsStuck (fields_of self.new)) }
        ensures fails { IfErr result (λ e. Fails e (fields_of self.old)) }
    {
        self.put_most(alloc)?;
        while self.put_round(alloc)? {}
        Ok(())
    }

    /// Puts whatever may be put, until nothing may. What is left is told, as far as there is memory for it.
    pub(crate) fn put_all(&mut self, alloc: Global, told: &mut Vec<Stuck>) -> Result<(), MergeError>
        requires { IsMerger (fields_of self.old) }
        ensures puts { OnOk result (PutsOn (fields_of self.old) (fields_of self.new)) }
        ensures stuck { OnOk result (IsStuck (fields_of self.new)) }
        ensures fails { IfErr result (λ e. Fails e (fields_of self.old)) }
    {
        let put = self.put_until_stuck(alloc);
        let _ = self.tell(told);
        put
    }

    /// Whether nothing is left.
    pub(crate) fn is_done(&self) -> bool
        requires { IsMerger (fields_of self.now) }
        ensures { IsTrue result ↔ IsDone (merging_of (fields_of self.now)) }
    {
        for index in 0..self.logs.len() {
            if self.logs[index].first().is_some() {
                return false;
            }
        }
        self.changes.first().is_none()
    }

    /// The run that was made.
    pub(crate) fn into_run(self) -> Run
        ensures { result ≡ self.run }
    {
        self.run
    }
}
