//! A packet, and the kept ones that follow it.

ghost use Rattle.dude_base.specs.Records.{first_of};
ghost use Rattle.dude_follow.specs.Applying.{GoesOn};
ghost use Rattle.dude_follow.specs.Chain.{AppliesChain};
ghost use Rattle.dude_follow.specs.Packets.{IsPacket};
ghost use Rattle.dude_follow.specs.Replica.{replica_back, replica_sight};
ghost use Rattle.std.specs.Prelude.{◌≡◌, ◌+◌, All, false, is_ok};

use crate::reorder_buffer::ReorderBuffer;
use crate::replica::Replica;
use dude_base::bundle::Bundle;
use pmem_trait::{Failed, Medium};

/// Applies the packet of the next numbers, and then each kept one that follows.
pub fn apply_chain<M: Medium>(
    replica: &mut Replica<M>,
    buffer: &ReorderBuffer,
    b: &Bundle,
) -> Result<(), Failed>
    requires alive { (replica_back replica.old).dead ≡ false }
    requires packet { IsPacket (replica_back replica.old).log.sizes b.now }
    requires next { first_of b.now ≡ (replica_back replica.old).log.reproduced + 1 }
    requires packets { All (IsPacket (replica_back replica.old).log.sizes) buffer.now.kept.items }
    ensures goes_on { GoesOn (is_ok result) (replica_back replica.old) (replica_sight replica.old)
        (replica_back replica.new) (replica_sight replica.new) }
    ensures chain { AppliesChain buffer.now.kept.items b.now (is_ok result)
        (replica_back replica.old) (replica_sight replica.old)
        (replica_back replica.new) (replica_sight replica.new) }
{
    replica.apply(b)?;
    while let Some(k) = buffer.find_next(replica.number()) {
        replica.apply(&buffer.kept[k])?;
    }
    Ok(())
}
