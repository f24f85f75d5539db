//! The history of a run, as a value, and the test whether a single machine's table allows a history. It knows nothing
//! of how nodes and servers come to their replies, of files of the operating system, of printed text or of threads.
#![tactic(auto)]

mod answers;
mod call_index;
pub mod history;
pub mod legal;
pub mod placed;
mod revoke_id;
pub mod slot;
