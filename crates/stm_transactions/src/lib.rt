//! Transactions over words that threads share. A pass is a seat with a thread's number; in it a transaction begins where its next
//! box is empty, pins pages, looks at locks, reads and takes locks, and commits: a number is drawn, its record posted, the reads
//! checked, and the writes made; or it is aborted.
#![tactic(auto)]

pub mod bad_lock;
pub mod begin;
pub mod box_full;
pub mod box_rule;
mod boxes;
pub mod commit;
mod counting;
pub mod descriptor;
pub mod ending;
mod good_look;
pub mod good_word;
pub mod lock_for;
mod looking;
pub mod lost;
mod opening;
pub mod owning;
pub mod pages;
mod partings;
pub mod pass;
pub mod pass_numbers;
pub mod pinned;
mod pinning;
mod publishing;
pub mod reading;
pub mod rule;
mod seeing;
mod settling;
pub mod split_fault;
mod storing;
pub mod transaction_lists;
pub mod tx;
mod validating;
mod words;
