//! The law of what the clients of every run saw, as the contract of a function that does nothing.
ghost use Rattle.run_clients.specs.rule.Seen.{EveryRunIsExplained};

use cluster_core::every_run_has_a_history;

/// Whatever calls are made, in whatever order messages are delivered, lost or repeated, and whichever nodes and
/// servers fail: one table of record locks explains what the clients saw of each file, each call at a place between
/// its begin and its end. (POSIX.1-2017 `fcntl()`; Linux `fcntl(2)`, F_OFD_SETLK.)
pub fn every_run_is_explained()
    ensures { EveryRunIsExplained }
{
    every_run_has_a_history();
}
