//! A node: its processes, their locks and open calls, and its tokens, with the rule that says what
//! it does at each event. This crate knows nothing of other nodes' states, of the states of token
//! servers, of time, of texts that are printed, or of threads.
#![tactic(auto)]

pub mod answer;
pub mod change;
pub mod effect;
pub mod event;
pub mod file_row;
mod file_rows;
mod hints;
pub mod laws;
pub mod node;
pub mod node_edit;
mod numbers;
pub mod open_call;
pub mod open_calls;
pub mod token_command;

pub use change::NodeChange;
pub use event::NodeEvent;
pub use node::Node;
pub use node_edit::NodeEdit;
pub use open_call::OpenCall;
