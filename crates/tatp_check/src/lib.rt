//! The check of an array of home words: the chains of a table, its records and its pool, what the records of each of the five
//! tables may hold, the tree of an index, that exactly the arrays that stand for tables pass, and the tables for which one
//! stands.
#![tactic(auto)]

pub mod check_fault;
mod checks;
pub mod content;
mod index_check;
pub mod laws;
pub mod marks;
pub mod pool_walk;
mod references;
mod rows;
mod seen;
mod standing;
pub mod table_kind;
pub mod taken;
pub mod tree_seen;
pub mod tree_walk;
pub mod walk;
mod walked;
mod words;

pub use check_fault::CheckFault;
pub use checks::check;
pub use standing::tables_of;
pub use table_kind::TableKind;
