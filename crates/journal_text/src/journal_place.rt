//! Places in journals, between two lines behind the first one.
ghost use Rattle.std.specs.Prelude.{◌≡◌, ◌↔◌, IsTrue};
ghost use Rattle.journal_text.specs.declared.journal_place.Phase.TheVariants as phase;
ghost use Rattle.journal_text.specs.code.Places.{after_end, after_entry, next_place, place, start};

use crate::lines::JournalLine;

/// What stands just before a place.
#[derive(Clone, Copy)]
pub enum Phase {
    /// No entry stands before the place.
    Empty,
    /// The first line of an entry, with its event, stands before the place.
    Begun,
    /// A reply or a message of an entry stands before the place.
    Sending,
    /// The last line stands before the place.
    Ended,
}

/// A place in a journal: the number of entries that begin before it, and what stands just before
/// it.
#[derive(Clone, Copy)]
pub struct JournalPlace {
    pub count: u32,
    pub phase: Phase,
}

impl JournalPlace {
    /// The place behind the first line.
    pub(crate) fn start() -> JournalPlace
        ensures { result ≡ start }
    {
        JournalPlace {
            count: 0,
            phase: Phase::Empty,
        }
    }

    /// Whether the last line stands before the place.
    pub(crate) fn is_end(self) -> bool
        ensures { IsTrue result ↔ (self.phase ≡ phase.Ended) }
    {
        matches!(self.phase, Phase::Ended)
    }

    /// The place behind a line, if the line may stand here.
    pub(crate) fn behind(self, line: &JournalLine<'_>) -> Option<JournalPlace>
        ensures { result ≡ next_place self.count self.phase line.now }
    {
        match line {
            JournalLine::Entry { position, .. } => self.behind_entry(*position),
            JournalLine::Answer { .. } => match self.phase {
                Phase::Begun => Some(self.sending()),
                Phase::Empty | Phase::Sending | Phase::Ended => None,
            },
            JournalLine::Send(_) => match self.phase {
                Phase::Begun | Phase::Sending => Some(self.sending()),
                Phase::Empty | Phase::Ended => None,
            },
            JournalLine::End { count } => self.behind_end(*count),
        }
    }

    // The place behind the first line of an entry at this position, if that may stand here.
    fn behind_entry(self, position: u32) -> Option<JournalPlace>
        ensures { result ≡ after_entry self.count self.phase position }
    {
        if self.is_end() || position as u64 != self.count as u64 + 1 {
            return None;
        }
        Some(JournalPlace {
            count: position,
            phase: Phase::Begun,
        })
    }

    // The place behind a reply or a message of the entry.
    fn sending(self) -> JournalPlace
        ensures { result ≡ place self.count phase.Sending }
    {
        JournalPlace {
            phase: Phase::Sending,
            ..self
        }
    }

    // The place behind the last line, if that may stand here and has the right number of entries.
    fn behind_end(self, told: u32) -> Option<JournalPlace>
        ensures { result ≡ after_end self.count self.phase told }
    {
        if self.is_end() || told != self.count {
            return None;
        }
        Some(JournalPlace {
            phase: Phase::Ended,
            ..self
        })
    }
}
