//! Images of the store: a new one is made, with empty cells and the home of the population; one is opened: it is recovered, its
//! home is put in place, and its log is emptied; and one in memory is recovered.
#![tactic(auto)]

mod format_fault;
mod formatting;
mod home;
mod image_writing;
mod opened;
mod opening;
mod opening_law;
mod stale_heads;

pub use format_fault::FormatFault;
pub use formatting::{format, make_image};
pub use image_recovery::{OpenFault, Recovered, image_of};
pub use opened::Opened;
pub use opening::open;
pub use opening_law::law_of_opening;
