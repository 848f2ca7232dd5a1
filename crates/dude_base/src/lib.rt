//! The base of the store: its sizes and places, the redo record of a transaction, and bundles of such records.
#![tactic(auto)]

pub mod bundle;
pub mod field;
pub mod limits;
pub mod no_join;
pub mod place;
pub mod redo;
pub mod run;
pub mod size_fault;
pub mod sizes;
pub mod wide;
pub mod write;
pub mod write_list;
