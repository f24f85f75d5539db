//! Putting what may be put of the logs that may go on, however many others there are.
ghost use Rattle.std.specs.Prelude.{◌≡◌, true, length, IfOk, IfErr, OnOk};
ghost use Rattle.merges.specs.code.Merging.{IsMerger, Covers, EndsFrom, Fails, Longer, PutsOn, fields_of};

use super::Merger;
use crate::{Ends, MergeError, Queue};
use std::alloc::Global;

impl Merger {
    // Sets the floor to a moment before which nothing that is left of the logs had ended, or an earlier one.
    fn set_floor(&mut self, moment: u64)
        requires good { IsMerger (fields_of self.old) }
        requires ends { EndsFrom moment (length self.old.logs.items) self.old.logs.items }
        ensures floor { fields_of self.new ≡ record (fields_of self.old) { floor = self.new.floor } }
        ensures good { IsMerger (fields_of self.new) }
    {
        self.floor = self.changes.least_end().min(moment);
    }

    // Puts what may be put of these logs and of the declarations and starts, one list after the other.
    fn put_open(&mut self, alloc: Global, open: &[usize]) -> Result<bool, MergeError>
        requires { IsMerger (fields_of self.old) }
        ensures puts { OnOk result (PutsOn (fields_of self.old) (fields_of self.new)) }
        ensures longer { IfOk result (λ put. put ≡ true → Longer (fields_of self.old) (fields_of self.new)) }
        ensures fails { IfErr result (λ e. Fails e (fields_of self.old)) }
    {
        let mut put = self.put_change(alloc)?;
        for index in open {
            if self.put_log(alloc, *index)? {
                put = true;
            }
        }
        Ok(put)
    }

    // Puts what may be put of the logs that may go on, as far as the clocks allow now.
    fn put_next(
        &mut self,
        alloc: Global,
        ends: &mut Ends,
        queue: &mut Queue,
    ) -> Result<bool, MergeError>
        requires good { IsMerger (fields_of self.old) }
        requires covers { Covers ends.old self.old.logs.items }
        ensures puts { OnOk result (PutsOn (fields_of self.old) (fields_of self.new)) }
        ensures covers { OnOk result (Covers ends.new self.new.logs.items) }
        ensures longer { IfOk result (λ put. put ≡ true → Longer (fields_of self.old) (fields_of self.new)) }
        ensures fails { IfErr result (λ e. Fails e (fields_of self.old)) }
    {
        let least = ends.least(self.logs.as_slice())?;
        self.set_floor(least);
        let moment = self.floor.saturating_add(self.skew);
        queue.open_until(moment)?;
        let put = self.put_open(alloc, queue.open())?;
        queue.sort_out(self.logs.as_slice(), moment)?;
        Ok(put)
    }

    /// Puts what may be put, as far as the logs that may go on go.
    pub(super) fn put_most(&mut self, alloc: Global) -> Result<(), MergeError>
        requires { IsMerger (fields_of self.old) }
        ensures puts { OnOk result (PutsOn (fields_of self.old) (fields_of self.new)) }
        ensures fails { IfErr result (λ e. Fails e (fields_of self.old)) }
    {
        let mut ends = Ends::new(alloc, self.logs.len())?;
        let mut queue = Queue::new(alloc, self.logs.len())?;
        while self.put_next(alloc, &mut ends, &mut queue)? {}
        Ok(())
    }
}
