//! Scripts that are played line by line, as each line comes: what a line is answered, and the loop that reads and writes. This
//! crate knows nothing of command lines, or of files on a disk.
#![tactic(auto)]

pub mod answering;
pub mod laws;
pub mod stop;
