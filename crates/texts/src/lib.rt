//! Values and their texts: numbers, words, and lines of fields, each read and written by one type,
//! so that a text has one value at most. This crate knows nothing of messages, of what the lines of
//! scripts and journals say, or of where texts come from.
#![tactic(auto)]

mod cluster_words;
pub mod front;
pub mod number;
pub mod text;
pub mod unsigned;
pub mod words;
