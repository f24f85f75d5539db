//! The whole cluster: the world with the state of every actor and the messages sent, the runs that lead to it, and
//! their one history in the table of a single machine. It knows nothing of files of the operating system, of printed
//! text, of threads or of clocks.
#![tactic(auto)]

pub mod check_error;
pub mod held_lock;
pub mod item;
pub mod journal;
pub mod laws;
pub mod node_token_run;
pub mod run;
pub mod sent;
mod sent_index;
pub mod world;

pub use check_error::CheckError;
pub use held_lock::HeldLock;
pub use item::Item;
pub use journal::{Journal, comes_next};
pub use laws::every_run_has_a_history;
pub use node_token_run::NodeTokenRun;
pub use run::Run;
pub use world::{JOURNAL_LIMIT, World};
