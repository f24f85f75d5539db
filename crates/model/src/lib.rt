//! The vocabulary of record-lock calls (owners, modes, operations, replies) and of tokens (levels,
//! policies), and the definition of the one table that a single machine's `fcntl()` would keep.
//! This crate knows nothing of messages, of how tokens are given out, of texts that are printed, of
//! files on a disk, or of threads.
#![tactic(auto)]

pub mod access;
pub mod call;
pub mod host;
pub mod laws;
pub mod level;
pub mod limits;
pub mod lock_info;
pub mod lock_target;
pub mod mode;
pub mod op;
pub mod opened;
pub mod owner;
pub mod policy;
pub mod process;
pub mod reply;

pub use access::Access;
pub use call::CallId;
pub use host::Host;
pub use level::Level;
pub use limits::{MOST_DESCRIPTIONS, MOST_DESCRIPTORS, MOST_NODES, MOST_PROCESSES};
pub use lock_info::LockInfo;
pub use lock_target::LockTarget;
pub use mode::Mode;
pub use op::{LockCall, LockCommand, Op, ProcessCall};
pub use opened::Opened;
pub use owner::{Kind, Owner};
pub use policy::Policy;
pub use process::Process;
pub use reply::Reply;
