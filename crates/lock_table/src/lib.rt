//! The record locks of one node: what each owner holds at each byte of each file, and the searches
//! for locks in the way. This crate knows nothing of processes, descriptors, tokens or messages.
#![tactic(auto)]

mod block;
mod blocks;
pub mod error;
pub mod flag_set;
pub mod laws;
pub mod lock_table;
pub mod order;
pub mod owner_locks;
pub mod owner_set;
mod owner_spans;
pub mod page_index;
mod place;

pub use model::lock_info::LockInfo;
pub use model::mode::Mode;
pub use model::owner::{Kind, Owner};
