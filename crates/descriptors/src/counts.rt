//! The number of descriptors that refer to each open file description.
ghost use Rattle.std.specs.Prelude.{◌≡◌, ◌≤◌, ◌<◌, ◌+◌, ◌-◌, ◌==◌, ℕ, [], IfOk, OnOk, length, slice_set};
ghost use Rattle.intervals.specs.rule.Search.{first};
ghost use Rattle.model.specs.rule.Limits.{most_descriptors, most_descriptions};
ghost use Rattle.descriptors.specs.code.Rows.{AreRows, count_of, references_below, AreCounts, AreUsed};
ghost use Rattle.descriptors.specs.rule.Rows.{processes};

use crate::process_entry::ProcessEntry;
use crate::rows::opened_at;
use model::{MOST_DESCRIPTIONS, MOST_DESCRIPTORS};
use std::alloc::{AllocError, Global};
use std::marker::Model;

/// The number of descriptors that refer to each description, by the description's number; 0 for a
/// number without a place.
#[derive(Drop)]
pub struct Counts {
    counts: Vec<u16>,
    // each description from 1 to below this number has a count above 0
    lowest: u16,
}

impl Model for Counts {
    ghost use Rattle.std.specs.Prelude.{List, ◌≤◌, ℕ};
    ghost use Rattle.descriptors.specs.code.Rows.{AreUsed};

    ghost Value = { List ℕ };

    ghost view = { λ c. c.counts.items };

    ghost invariant = { λ c. (1 ≤ c.lowest) × AreUsed c.counts.items c.lowest };
}

impl Counts {
    /// The counts without a place, where no descriptor refers to a description.
    pub(crate) fn new(alloc: Global) -> Counts
        ensures { result ≡ [] }
    {
        Counts {
            counts: Vec::new(alloc),
            lowest: 1,
        }
    }

    // The number of descriptors that refer to the description with this number.
    fn count(&self, description: u16) -> u16
        ensures { result ≡ count_of self.now description }
    {
        match self.counts.get(description as usize) {
            Some(count) => *count,
            None => 0,
        }
    }

    /// Counts one more descriptor of the description. If it is the first one, each lower
    /// description has a descriptor.
    pub(crate) fn raise(&mut self, description: u16)
        requires number { description ≤ most_descriptions }
        requires place { description < length self.old }
        requires room { count_of self.old description < 65535 }
        requires lowest { count_of self.old description ≡ 0 → AreUsed self.old description }
        ensures { self.new ≡ slice_set self.old description (count_of self.old description + 1) }
    {
        let count = self.count(description);
        self.counts[description as usize] = count + 1;
        if count == 0 {
            self.lowest = description + 1;
        }
    }

    /// Counts one descriptor of the description less. The result is whether it was the last one.
    pub(crate) fn lower(&mut self, description: u16) -> bool
        requires number { 1 ≤ description }
        requires some { 0 < count_of self.old description }
        ensures counts { self.new ≡ slice_set self.old description (count_of self.old description - 1) }
        ensures last { result ≡ (count_of self.new description == 0) }
    {
        let left = self.count(description) - 1;
        self.counts[description as usize] = left;
        if left == 0 {
            self.lowest = self.lowest.min(description);
        }
        left == 0
    }

    /// The lowest number, from 1, of a description that no descriptor refers to; 16,385 if each
    /// description has one.
    pub(crate) fn lowest_unused(&self) -> u16
        ensures { result ≡ first (λ d. count_of self.now d == 0) 1 most_descriptions }
    {
        for number in self.lowest..=MOST_DESCRIPTIONS {
            if self.count(number) == 0 {
                return number;
            }
        }
        MOST_DESCRIPTIONS + 1
    }

    /// Equal counts, with `places` places.
    pub(crate) fn grown(&self, places: usize) -> Result<Counts, AllocError>
        requires { length self.now ≤ places }
        ensures places { IfOk result (λ more. length more ≡ places) }
        ensures counts { IfOk result (λ more. (d : ℕ) → count_of more d ≡ count_of self.now d) }
    {
        let mut counts = Vec::from_slice(*self.counts.allocator(), &self.counts)?;
        counts.resize(places, 0)?;
        Ok(Counts {
            counts,
            lowest: self.lowest,
        })
    }

    /// Equal counts.
    pub(crate) fn copy(&self) -> Result<Counts, AllocError>
        ensures { IfOk result (λ copy. copy ≡ self.now) }
    {
        Ok(Counts {
            counts: Vec::from_slice(*self.counts.allocator(), &self.counts)?,
            lowest: self.lowest,
        })
    }
}

/// Counts each descriptor of the process once more, for a child that has them too.
pub(crate) fn share(counts: &mut Counts, rows: &[ProcessEntry], pid: usize)
    requires rows { AreRows rows.now }
    requires counts { AreCounts (processes rows.now) counts.old }
    ensures places { length counts.new ≡ length counts.old }
    ensures more { (d : ℕ) → count_of counts.new d ≡ count_of counts.old d + references_below ((processes rows.now).opened pid) d most_descriptors }
{
    for fd in 0..MOST_DESCRIPTORS {
        if let Some(opened) = opened_at(rows, pid, fd) {
            counts.raise(opened.description);
        }
    }
}

/// Counts each descriptor of the process once less.
pub(crate) fn release(counts: &mut Counts, rows: &[ProcessEntry], pid: usize)
    requires rows { AreRows rows.now }
    requires counts { AreCounts (processes rows.now) counts.old }
    ensures places { length counts.new ≡ length counts.old }
    ensures fewer { (d : ℕ) → count_of counts.new d + references_below ((processes rows.now).opened pid) d most_descriptors ≡ count_of counts.old d }
{
    for fd in 0..MOST_DESCRIPTORS {
        if let Some(opened) = opened_at(rows, pid, fd) {
            counts.lower(opened.description);
        }
    }
}
