//! Pools of records of one size over an array of words.
#![tactic(auto)]

pub mod pool;
