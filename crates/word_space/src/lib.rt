//! Reads and writes over an array of words, with the exact lists of both.
#![tactic(auto)]

pub mod flat;
pub mod read_set;
pub mod stop;
pub mod words;
