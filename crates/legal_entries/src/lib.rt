//! Entries of transactions that are legal and served: the arrays and the databases at their
//! numbers, and that each reply is one thread's there.
#![tactic(auto)]

mod laws;

pub use laws::law_of_served_entries;
