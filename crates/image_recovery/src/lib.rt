//! The recovery of an image: header, mark and the records of the log are read, the home is overwritten by those of the
//! numbers that follow the mark, and it is checked that it stands for a database. Over any medium, which is only read, and
//! over an image in memory.
#![tactic(auto)]

mod apply;
mod header;
mod home;
mod layouts;
mod open_fault;
mod plain_image;
mod recovered;
mod recovery;
mod recovery_law;
mod replayed_image;
mod replaying;

pub use open_fault::OpenFault;
pub use recovered::Recovered;
pub use recovery::{image_of, recover};
pub use recovery_law::law_of_one_recovery;
