//! How far long work is, on a terminal.

use player::Watcher;
use std::io::Write;
use std::time::{Clock, Duration, Instant};
use thread_runs::RunWatcher;

// How many seconds it takes until a line is shown, and then until the next one is.
const SECONDS_BETWEEN_LINES: u64 = 1;

/// Shows some once a second in one line how far the work is, from the first second on, and takes the line away at its
/// end; where there is no terminal it shows nothing.
#[derive(Drop)]
pub struct Meter<'a, C, W> {
    clock: &'a C,
    terminal: Option<W>,
    parts: &'static str,
    count: Option<u64>,
    done: u64,
    last: Option<Instant>,
    is_shown: bool,
}

impl<'a, C: Clock, W: Write> Meter<'a, C, W> {
    /// No work has begun.
    pub fn new(clock: &'a C, terminal: Option<W>) -> Meter<'a, C, W> {
        Meter {
            clock,
            terminal,
            parts: "",
            count: None,
            done: 0,
            last: None,
            is_shown: false,
        }
    }

    // What the clock says, where anybody looks.
    fn now(&self) -> Option<Instant> {
        if self.terminal.is_none() {
            return None;
        }
        Instant::now(self.clock).ok()
    }

    // Whether it is time for a line.
    fn is_due(&mut self) -> bool {
        let Some(last) = self.last else {
            return false;
        };
        let Some(now) = self.now() else {
            return false;
        };
        if now.saturating_duration_since(last) < Duration::from_secs(SECONDS_BETWEEN_LINES) {
            return false;
        }
        self.last = Some(now);
        true
    }

    // Writes to the terminal, where there is one. What can't be written is lost.
    fn show(&mut self) {
        let Some(terminal) = self.terminal.as_mut() else {
            return;
        };
        let (done, parts) = (self.done, self.parts);
        let _ = match self.count {
            Some(count) => write!(terminal, "\r{done} of {count} {parts}"),
            None => write!(terminal, "\r{done} {parts}"),
        };
        self.is_shown = true;
    }
}

impl<C: Clock, W: Write> Watcher for Meter<'_, C, W> {
    fn begin(&mut self, parts: &'static str, count: Option<u64>) {
        self.parts = parts;
        self.count = count;
        self.done = 0;
        self.last = self.now();
    }

    fn pass(&mut self) {
        self.done = self.done.saturating_add(1);
        if self.is_due() {
            self.show();
        }
    }

    fn end(&mut self) {
        self.last = None;
        if !self.is_shown {
            return;
        }
        self.is_shown = false;
        if let Some(terminal) = self.terminal.as_mut() {
            let _ = write!(terminal, "\r\x1b[K");
        }
    }
}

impl<C: Clock, W: Write> RunWatcher for Meter<'_, C, W> {
    fn is_watched(&self) -> bool {
        self.terminal.is_some()
    }

    fn tell(&mut self, open: u64, entries: u64) {
        if self.last.is_none() {
            self.last = self.now();
        }
        if !self.is_due() {
            return;
        }
        if let Some(terminal) = self.terminal.as_mut() {
            let _ = write!(terminal, "\ropen calls {open}, entries {entries}\x1b[K");
            self.is_shown = true;
        }
    }
}
