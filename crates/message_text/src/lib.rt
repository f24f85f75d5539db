//! The texts of messages between nodes and token servers, and of the names, numbers, spans and
//! locks in them. This crate knows nothing of the lines of scripts and journals, of files on a
//! disk, or of threads.
#![tactic(auto)]

pub mod edition;
pub mod fields;
pub mod fits;
mod joined;
pub mod laws;
pub mod message;
pub mod names;
pub mod numbers;
mod operands;
mod reports;
pub mod writing;
pub mod written_message;

pub use edition::{Edition, FirstEdition, SecondEdition};
pub use fields::LockText;
pub use fits::{call_fits, lock_fits, message_fits};
pub use message::{message_in, message_of};
pub use names::{CallName, HostName, OwnerName, push_call, push_host, push_lock, server_of};
pub use numbers::{
    CountField, Counted, DescriptorField, FileField, IncarnationField, NodeField, PidField,
};
pub use writing::{push, push_message};
pub use written_message::WrittenMessage;
