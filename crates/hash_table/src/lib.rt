//! Tables that find records of a pool by their keys, over an array of words.
#![tactic(auto)]

pub mod put;
pub mod table;
