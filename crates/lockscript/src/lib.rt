//! Scripts of lock calls as texts, and the listing of what a run of a script gave. This crate runs
//! no script, and knows nothing of the rules of nodes and token servers, of files on a disk, or of
//! threads but which lines they take.
#![tactic(auto)]

pub mod cluster_line;
mod columns;
pub mod commands;
pub mod error;
pub mod laws;
pub mod lines;
pub mod listing;
pub mod operations;
pub mod play_error;
pub mod refused_line;
pub mod replies;
pub mod script;
pub mod script_line;
pub mod writing;

pub use cluster_line::{shape_of, shape_operands};
pub use commands::command_of;
pub use error::ParseError;
pub use lines::{is_skipped, split_line};
pub use listing::{listing_start, push_item};
pub use operations::Operation;
pub use play_error::PlayError;
pub use refused_line::RefusedLine;
pub use replies::push_reply;
pub use script::Script;
pub use script_line::{ScriptCommand, ScriptLine};
