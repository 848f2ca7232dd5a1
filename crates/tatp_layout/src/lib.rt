//! The home of the five tables: where they stand, for which rows an array of its words stands, and the rows in their records.
#![tactic(auto)]

pub mod access_record;
pub mod call_record;
mod digits;
pub mod facility_record;
pub mod index_keys;
pub mod keys;
pub mod layout;
pub mod record_row;
mod record_words;
pub mod subscriber_record;

pub use access_record::get_access;
pub use call_record::{get_call, put_call};
pub use facility_record::{get_fac, put_data_a};
pub use layout::Layout;
pub use record_row::{RecordRow, find_row, get_row};
pub use subscriber_record::{get_sub, put_bit1, put_vlr};
