//! Tokens: for each byte of a file, what a node may lock without asking the token server, and how
//! grants and revokes change that. This crate knows nothing of messages, servers, calls or
//! processes.
#![tactic(auto)]

pub mod desired;
pub mod edit;
pub mod gave_up;
pub mod laws;
pub mod set;
pub mod view;

pub use model::level::Level;
pub use model::mode::Mode;
pub use model::policy::Policy;
