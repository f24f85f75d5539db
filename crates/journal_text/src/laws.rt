//! Laws of every text that may be a journal.
ghost use Rattle.journal_text.specs.rule.Journals.{journal_text};
ghost use Rattle.journal_text.specs.rule.Readings.{WritesJournal};
ghost use Rattle.journal_text.specs.code.OneText.{EachTextHasOneValue, EveryJournalIsRead, EveryTextHasOneReading};

use crate::fits::entries_fit;
use cluster_core::Journal;

/// Two values within their limits that have one text are equal, be they messages, events, replies,
/// lines of journals, or whole journals.
pub fn each_text_has_one_value()
    ensures { EachTextHasOneValue }
{}

/// `print` writes of each journal within its limits a text that is this journal, so `parse` gives
/// the journal back.
pub fn every_journal_is_read()
    ensures { EveryJournalIsRead }
{}

/// No text is two journals, has two first bad lines, or is a journal and has a bad line, and each
/// text that is a journal is the one that `print` writes of it. So the contract of `parse` leaves
/// it no choice, but for a refused request for memory.
pub fn every_text_has_one_reading()
    ensures { EveryTextHasOneReading }
{}

/// `print` writes of a run's shape and entries a text that is this very journal, so `parse` gives
/// it back: each run is within the limits of its text.
pub fn each_journal_is_read(journal: &Journal)
    ensures { WritesJournal (journal_text journal.now.shape journal.now.entries) journal.now.shape journal.now.entries }
{
    let _shape = journal.shape();
    entries_fit(journal.entries());
}
