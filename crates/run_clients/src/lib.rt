//! The histories that the clients of a run saw: their calls about each file, which one table of record locks
//! explains. It knows nothing of how nodes and servers come to their replies, of files of the operating system or of
//! threads.
#![tactic(auto)]

pub mod answer_time;
mod call_times;
pub mod clients;
mod closing;
mod deed;
mod deeds;
pub mod file_call;
mod follow;
pub mod laws;
mod made_call;
mod open_calls;
mod references;
pub mod text;
mod text_of_call;
