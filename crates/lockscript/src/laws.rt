//! A law of every text that may be a script.
ghost use Rattle.lockscript.specs.code.Readings.{EveryTextHasOneReading};

/// No text is that of two scripts, has two first bad lines, or is a script and has a bad line: so
/// the contract of `Script::parse` leaves it no choice, but for a refused request for memory.
pub fn every_text_has_one_reading()
    ensures { EveryTextHasOneReading }
{}
