//! The calls on the medium that append one record are made.

ghost use Rattle.dude_base.specs.Image.{image_words};
ghost use Rattle.dude_base.specs.Records.{HasNumbers};
ghost use Rattle.log_ring.specs.Appends.{AppendsAt};
ghost use Rattle.std.specs.Prelude.{◌≡◌, ◌<◌, ◌≤◌};

use dude_base::bundle::Bundle;
use dude_base::place::Place;
use pmem_trait::{Failed, Medium, settle_group};
use redo_record::AppendCalls;

/// Makes the calls that append a record whose head is to stand in this slot: first all its words but the head's tag are
/// made durable, and then the tag. `calls` has the room for them.
pub fn append_record<M: Medium>(
    m: &mut M,
    calls: &mut AppendCalls,
    place: &Place,
    ring: u64,
    head: u64,
    b: &Bundle,
) -> Result<(), Failed>
    requires ring { ring < place.now.rings }
    requires head { head < place.now.cells }
    requires numbers { HasNumbers b.now }
    requires room { image_words place.now ≤ (M.sight m.old).len }
    ensures len { (M.sight m.new).len ≡ (M.sight m.old).len }
    ensures made { AppendsAt place.now ring head b.now result (M.sight m.old) (M.sight m.new) }
{
    calls.set(place, ring, head, b);
    settle_group(m, calls.body(), calls.body_lines())?;
    settle_group(m, calls.tag(), calls.tag_line())
}
