//! What holds in a cluster's world at a moment: of its nodes, its token servers, its tokens, its locks, and the calls
//! that are open, and which locks block these. A tool: it changes no state, and knows nothing of how the world came about, or of
//! files of the operating system.
//!
//! # Errors
//! All are `AllocError`, where a request for memory was refused.
#![tactic(auto)]

pub mod cluster_state;
pub mod open_call;
pub mod state_text;

pub use cluster_state::ClusterState;
pub use open_call::{OpenState, is_wait, open_states};
