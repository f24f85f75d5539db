//! Logs of single actors, made one journal. It knows nothing of how logs are written, of files, or of threads.
#![tactic(auto)]

pub mod changes;
mod ends;
mod in_order;
pub mod laws;
pub mod log;
pub mod logged;
pub mod merge;
pub mod merge_error;
mod merger;
mod names;
mod queue;
mod steps;
pub mod stuck;

pub use changes::Changes;
pub(crate) use ends::Ends;
pub(crate) use in_order::{changes_are_in_order, entries_are_in_order};
pub use log::Log;
pub use logged::{Interval, LoggedChange, LoggedEntry};
pub use merge_error::MergeError;
pub(crate) use merger::Merger;
pub(crate) use names::second_of_two;
pub(crate) use queue::Queue;
pub(crate) use steps::{is_current, same_actor, takes, took};
pub use stuck::{Hindrance, Stuck};
