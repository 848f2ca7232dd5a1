//! The three requests that only read, over the words of a home.
#![tactic(auto)]

mod access;
mod destination;
mod subscriber;

pub use access::read_access;
pub use destination::read_destination;
pub use subscriber::read_subscriber;
