//! The log rings of an image: records are appended, and released once they are home.
#![tactic(auto)]

mod append;
mod bundles;
mod head;
mod logged;
mod reads;
mod ring;
mod ring_fault;
mod scan_fault;
mod scan_state;
mod scanning;

pub use bundles::{read_bundle, scan};
pub use head::Head;
pub use ring::Ring;
pub use ring_fault::RingFault;
pub use scan_fault::ScanFault;
pub use scanning::heads;
