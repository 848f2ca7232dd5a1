//! The TATP model: requests, replies, rows, and the plain step that every
//! other way of running a request is measured by.
#![tactic(auto)]

pub mod access_row;
pub mod call_row;
pub mod done;
pub mod fac_row;
mod lookups;
pub mod numbers;
mod reads;
pub mod reply;
pub mod request;
pub mod step;
pub mod sub_row;
pub mod tables;
mod writes;

pub use access_row::{AccessData, AccessRow};
pub use call_row::CallRow;
pub use done::Done;
pub use fac_row::FacRow;
pub use numbers::Numbers;
pub use reply::Reply;
pub use request::Request;
pub use sub_row::SubRow;
pub use tables::Tables;
