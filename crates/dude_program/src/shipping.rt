//! What became of a command's requests, with the bundles of its log, before its output.

ghost use Rattle.dude_engine.specs.Requests.{AreInRange, HasNumbersFor};
ghost use Rattle.dude_program.specs.Shipping.{ShipsOpened};
ghost use Rattle.dude_program.specs.Work.{RanOverOpened};
ghost use Rattle.dude_recover.specs.Opened.{IsOpened};
ghost use Rattle.redo_record.specs.Recovery.{AreConsecutive};
ghost use Rattle.std.specs.Prelude.{◌≡◌, ◌≤◌, None, length};
ghost use Rattle.tatp_model.specs.Files.{requests_in};

use crate::worked::Worked;
use dude_base::bundle::Bundle;
use dude_engine::shipped;
use dude_recover::Opened;
use pmem_trait::Medium;
use std::alloc::Global;
use tatp_model::Request;

/// What became of a command's requests, and the bundles that were persisted.
#[derive(Drop)]
pub struct Shipping<M> {
    pub worked: Worked<M>,
    pub packets: Vec<Bundle>,
}

/// Runs the requests of files over an opened image, on one thread, and keeps the bundles of its log.
pub fn work_and_ship<M: Medium>(
    alloc: Global,
    opened: Opened<M>,
    files: &[Vec<Request>],
) -> Shipping<M>
    requires opened { IsOpened opened }
    requires rings { length files.now ≤ opened.sizes.rings }
    requires in_range { AreInRange (requests_in files.now) }
    requires numbers { HasNumbersFor opened.number (requests_in files.now) }
    ensures ran { RanOverOpened M.sight opened files.now result.worked }
    ensures ships { ShipsOpened opened result }
    ensures whole { result.worked.fault ≡ None
        → AreConsecutive opened.number result.packets.items result.worked.last }
{
    let shipped = shipped(alloc, opened, files);
    Shipping {
        worked: Worked::from_ran(shipped.ran),
        packets: shipped.packets,
    }
}
