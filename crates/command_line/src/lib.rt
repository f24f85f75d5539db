//! The command line: what its words ask for, and what is shown where they are refused. A tool: it carries out
//! no command, and knows nothing of files and runs.
#![tactic(auto)]

pub mod command_line;
mod commands;
pub mod judge_line;
mod notes;
pub mod refusal;
pub mod table;
mod values;
