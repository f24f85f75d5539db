//! The token server of a file: it takes requests, grants and revokes tokens, and keeps the requests that have to
//! wait. It knows nothing of locks and processes, of the other actors' state, of printed text, of files of the
//! operating system or of threads.
#![tactic(auto)]

pub mod change;
pub mod event;
mod gone;
pub mod known_nodes;
pub mod laws;
mod moves;
mod sent_command;
pub mod server;
pub mod shown_row;
mod sketch;
pub mod token_queue;

pub use change::{ServerChange, ServerEdit};
pub use event::ServerEvent;
pub use server::Server;
pub use shown_row::ShownRow;
pub use token_queue::active_request::ActiveRequest;
pub use token_queue::token_request::TokenRequest;
