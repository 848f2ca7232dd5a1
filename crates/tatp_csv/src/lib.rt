//! Request files, read by `csv`, and the law that what is written of requests is read back.
#![tactic(auto)]

mod laws;
mod record;
mod request_file;
mod rows;

pub use laws::law_of_request_text;
pub use request_file::read_requests;
