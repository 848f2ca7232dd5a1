//! A follower of a shipped log: it applies a leader's packets in the order of their numbers, in whatever order a link
//! delivers them, each once.
#![tactic(auto)]

mod chain;
mod follow_fault;
mod follower;
mod laws;
mod packet;
mod packet_fault;
mod packets;
mod reorder_buffer;
mod replica;
mod taken;
mod verdict;

pub use follow_fault::FollowFault;
pub use follower::Follower;
pub use laws::{law_of_arrays, law_of_following, law_of_images, law_of_reaching};
pub use packet::write_packet;
pub use packet_fault::PacketFault;
pub use packets::{law_of_packets, read_packets};
pub use reorder_buffer::MAX_KEPT;
pub use taken::Taken;
