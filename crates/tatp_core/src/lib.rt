//! The four requests that may write, and a request of any kind, over the words of a home; and who is where, by an index.
#![tactic(auto)]

mod among;
mod delete;
mod insert;
mod locate;
mod location;
mod phone;
mod request;
mod subscriber;

pub use among::locate_among;
pub use delete::write_delete;
pub use insert::write_insert;
pub use locate::locate_rows;
pub use location::write_location;
pub use request::run_request;
pub use subscriber::write_subscriber;
