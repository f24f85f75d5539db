//! The watcher that is told how far a run on threads is.

/// The trait of what is told how far a run on threads is.
pub trait RunWatcher {
    /// Whether anybody looks at what the watcher is told.
    fn is_watched(&self) -> bool;

    /// Tells the watcher how many calls are open, and how many entries the journal has.
    fn tell(&mut self, open: u64, entries: u64);
}
