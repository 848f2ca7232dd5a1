//! An ordered set of keys over an array of words: a crit-bit tree in the records of two pools.
#![tactic(auto)]

pub mod key_bits;
pub mod tree;
pub mod tree_put;
