//! Why bytes aren't read as packets.

ghost use Rattle.dude_follow.specs.declared.packet_fault.PacketFault.TheVariants.{NoMemory};
ghost use Rattle.std.specs.Prelude.{◌≡◌};

use std::alloc::AllocError;

/// Why bytes aren't read as packets.
#[derive(Clone, Copy, Debug, PartialEq, Eq)]
pub enum PacketFault {
    /// This packet, counted from 1, isn't whole, is no complete record, or needs more cells than a ring has.
    Bad { packet: u64 },
    /// There was no memory.
    NoMemory,
}

impl From<AllocError> for PacketFault {
    ghost from_gives = { λ _ fault. fault ≡ NoMemory };

    fn from(_error: AllocError) -> PacketFault {
        PacketFault::NoMemory
    }
}
