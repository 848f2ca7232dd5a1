//! Runs of request files over an opened image.
#![tactic(auto)]

mod one_thread;
mod ran;
mod run;
mod run_fault;
mod shipping;

pub use one_thread::{plain, shipped};
pub use ran::{Ran, RanEnd};
pub use shipping::Shipped;
pub use tatp_core::run_request;
