//! Packets one behind another, as a list of bytes.

ghost use Rattle.dude_follow.specs.Packet.{ArePackets, IsBadAt, LawOfPackets};
ghost use Rattle.dude_follow.specs.declared.packet_fault.PacketFault.TheVariants.{Bad};
ghost use Rattle.std.specs.Prelude.{◌≡◌, ℕ, Err, IfOk};

use crate::packet::{CELL_BYTES, read_packet};
use crate::packet_fault::PacketFault;
use dude_base::bundle::Bundle;
use dude_base::sizes::Sizes;
use redo_record::cells_of;
use std::alloc::Global;

/// Reads packets one behind another, for an image of these sizes.
///
/// `Bad` names the first packet, counted from 1, that isn't whole, is no complete record, or needs more cells than a ring has.
pub fn read_packets(alloc: Global, bytes: &[u8], sizes: &Sizes) -> Result<Vec<Bundle>, PacketFault>
    ensures packets { IfOk result (λ packets. ArePackets sizes.now bytes.now packets.items) }
    ensures bad { (packet : ℕ) → result ≡ Err (Bad packet) → IsBadAt sizes.now bytes.now packet }
{
    let mut packets = Vec::new(alloc);
    let mut start = 0;
    while start < bytes.len() {
        let Some(packet) = read_packet(&bytes[start..], sizes) else {
            let packet = packets.len() as u64 + 1;
            return Err(PacketFault::Bad { packet });
        };
        start += CELL_BYTES * cells_of(&packet) as usize;
        packets.reserve(1)?;
        packets.push_reserved(packet);
    }
    Ok(packets)
}

/// What `write_packet` wrote of bundles that an image of these sizes may have is read back as them; and bytes are read in one
/// way alone.
pub fn law_of_packets()
    ensures { LawOfPackets }
{}
