//! Replies on their way from running workers to the sink.
//!
//! A lane is a ring from one worker to the printer. Contracts see what was sent into it and what was received from it.
//! The printer hands the sink a line of each reply that it receives, and contracts see which lines the sink took.
#![tactic(auto)]

mod drain;
mod feed;
mod gathering;
mod lane;
mod law;
mod line;
mod outbox;
mod outlet;
mod print_fault;
mod printer;
mod rest;

pub use drain::Drain;
pub use feed::Feed;
pub use lane::Lane;
pub use law::{law_of_lines, law_of_streams};
pub use line::write_lane;
pub use outbox::Outbox;
pub use outlet::Outlet;
pub use print_fault::PrintFault;
pub use printer::print_lanes;
pub use rest::print_rest;
