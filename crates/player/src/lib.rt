//! Runs the lines of scripts one after another on a cluster in one process, and gives the journal,
//! the last world and the refused lines. It says too whether a run comes to what comments of its script expect.
//! This crate knows nothing of files on a disk, of time, or of threads.
#![tactic(auto)]

mod answers;
pub mod compared;
pub mod play;
pub mod player;
mod rounds;
mod settled;

pub use play::{Watcher, play_after};
pub use player::{Played, Player};
