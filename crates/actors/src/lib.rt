//! The actors of a cluster on threads, each with a mailbox and a worker, and the clients that call them. It knows nothing of the
//! rules by which an actor takes a step, of scripts, of files of the operating system or of printed text.
#![tactic(auto)]

pub mod begun;
pub mod call_error;
pub mod client;
pub mod cluster;
mod desk;
pub mod gate;
mod halt;
mod letter;
mod node_place;
mod outgoing;
pub mod seeded;
mod stuck;
mod unanswered_calls;
pub mod weather;
mod worker;

pub use begun::{begin, start_all};
pub(crate) use begun::{Begun, ServerPlace};
pub use call_error::CallError;
pub use client::Client;
pub use cluster::{Cluster, with_cluster};
pub(crate) use desk::{Desk, Work, lock};
pub use gate::{Gate, GatePoint, OpenGate};
pub(crate) use halt::Halt;
pub(crate) use letter::{CallResult, Letter, Mailbox, Question};
pub(crate) use node_place::NodePlace;
pub(crate) use outgoing::Outgoing;
pub use seeded::Seeded;
pub(crate) use stuck::is_stuck;
pub(crate) use unanswered_calls::{UnansweredCall, UnansweredCalls, may_release};
pub use weather::{Fair, Fate, Weather};
pub(crate) use worker::Worker;
