//! The last write of each word of some records: what reproducing them all at once puts.
#![tactic(auto)]

mod group;
mod numbered;

pub use group::{Group, combine, take_bundle};
