//! The texts of the program: numbers, the lines of requests and of replies, the generated load and its summary, and the
//! dump. Nothing here reads a request file.
#![tactic(auto)]

mod counts;
mod draws;
mod dump;
mod dump_row;
mod fields;
mod last_number;
mod limits;
mod load;
mod number;
mod output;
mod reply;
mod request_line;
mod rows;
mod summary;
mod text_fault;
mod writing;

pub use dump::write_dump;
pub use limits::{MAX_BYTES, MAX_RECORDS};
pub use load::mix;
pub use number::{number_in, phone_in, push_number, push_phone};
pub use output::{write_done, write_last};
pub use reply::push_reply;
pub use request_line::write_request;
pub use summary::write_summary;
pub use text_fault::TextFault;
