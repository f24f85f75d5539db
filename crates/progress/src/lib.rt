//! Progress: how many rounds, in which nothing fails and nothing is lost, answer all that can be answered. It knows
//! nothing of files of the operating system, of printed text, of threads or of clocks.
#![tactic(auto)]

pub mod laws;
