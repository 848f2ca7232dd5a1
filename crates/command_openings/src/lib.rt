//! The image that a command works on: made anew, or opened, with its opening number told; or only read.
#![tactic(auto)]

mod fault;
mod image_read;
mod made;
mod opened;

pub use image_read::{ImageRead, read_image};
pub use made::make_and_open;
pub use opened::open_and_announce;
