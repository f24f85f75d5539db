//! Telling what can't go on.
use super::Merger;
use crate::{Hindrance, Log, Stuck, is_current, takes};
use std::alloc::AllocError;

impl Merger {
    /// Tells of each log that is not used up, and of the list of declarations and starts, why it can't go on.
    pub(super) fn tell(&self, told: &mut Vec<Stuck>) -> Result<(), AllocError> {
        for log in self.logs.iter() {
            if let Some(hindrance) = self.hindrance_of(log) {
                told.push(Stuck {
                    log: Some((log.actor(), log.incarnation())),
                    put: log.put(),
                    hindrance,
                })?;
            }
        }
        if let Some(hindrance) = self.hindrance_of_changes() {
            told.push(Stuck {
                log: None,
                put: self.changes.put(),
                hindrance,
            })?;
        }
        Ok(())
    }

    // What is in the way of the next entry of the log, if it has one.
    fn hindrance_of(&self, log: &Log) -> Option<Hindrance> {
        let next = log.first()?;
        if !takes(log.actor(), next.entry.event()) {
            return Some(Hindrance::OtherActor);
        }
        if !self.is_allowed(next.interval.began) {
            return Some(Hindrance::Clock);
        }
        match self.run.entries().last() {
            Some(made) if made.event().same(next.entry.event()) && !made.same(&next.entry) => {
                return Some(Hindrance::Otherwise);
            }
            _ => {}
        }
        if !is_current(self.run.world(), log.actor(), log.incarnation()) {
            return Some(Hindrance::Incarnation);
        }
        Some(Hindrance::Cause)
    }

    // Whether nothing that is left had ended before this began.
    fn is_allowed(&self, began: u64) -> bool {
        let mut floor = self.changes.least_end();
        for log in self.logs.iter() {
            floor = floor.min(log.least_end());
        }
        began.saturating_sub(self.skew) <= floor
    }

    // What is in the way of the next declaration or start, if there is one.
    fn hindrance_of_changes(&self) -> Option<Hindrance> {
        let next = self.changes.first()?;
        if !self.is_allowed(next.interval.began) {
            return Some(Hindrance::Clock);
        }
        if self.awaits_log(next.event) {
            return Some(Hindrance::EntriesLeft);
        }
        Some(Hindrance::Cause)
    }
}
