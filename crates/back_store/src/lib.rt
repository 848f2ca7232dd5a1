//! The back of the store: records are persisted, announced and reproduced into the home of a medium, and pages of the
//! home are read.
//!
//! At every moment each image that a crash may leave recovers to a number that is at least the durable one.
#![tactic(auto)]

mod back;
mod back_fault;
mod backlog;
mod entry;
mod fronts;
mod home_group;
mod home_puts;
mod lane;
mod lane_writes;
mod merge;
mod page_reads;

pub use back::Back;
pub use back_fault::BackFault;
pub use backlog::Backlog;
pub use lane::Lane;
