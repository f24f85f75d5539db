//! Scripts that are run on the threads of a cluster: the clients of a phase, the outcome of each line, and what may have come of
//! the lines. It knows nothing of how an actor works, of files of the operating system or of printed text.
#![tactic(auto)]

mod call_queue;
mod cut;
mod denials;
mod full;
pub mod indexed_command;
pub mod line_outcome;
pub mod manner;
mod phase_order;
mod phases;
pub mod played_line;
pub mod run_error;
pub mod run_watcher;
mod stage;
pub mod thread_run;
pub mod threads;
mod unanswered;

pub(crate) use call_queue::{CallQueue, NextCall};
pub(crate) use cut::are_barred;
pub(crate) use denials::may_all_come;
pub(crate) use full::is_full;
pub(crate) use indexed_command::{IndexedCommand, are_made, asked_in, asker_of, by_asker};
pub(crate) use line_outcome::LineOutcome;
pub use manner::Manner;
pub(crate) use phase_order::are_phases;
pub(crate) use phases::Phases;
pub(crate) use played_line::PlayedLine;
pub use run_error::RunError;
pub use run_watcher::RunWatcher;
pub(crate) use stage::Stage;
pub use thread_run::ThreadRun;
pub(crate) use thread_run::are_lines_of;
pub use threads::run_threads;
pub(crate) use unanswered::are_unanswered;
