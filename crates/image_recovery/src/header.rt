//! The header of an image is read for the sizes that it names.

ghost use Rattle.dude_base.specs.Image.{image_words};
ghost use Rattle.dude_base.specs.Sizes.{IsAccepted};
ghost use Rattle.image_recovery.specs.Header.{AreSizes, IsHeaderOf};
ghost use Rattle.image_recovery.specs.Replays.{HasSizes};
ghost use Rattle.pmem_trait.specs.Reads.{OnlyReads, ContentHas};
ghost use Rattle.std.specs.Prelude.{◌≡◌, ◌+◌, ◌≤◌, is_ok, IfOk, IfSome, OnOk};

use dude_base::limits::{HEADER, MAGIC, MARK, MAX_RINGS_ONE, VERSION, VERSION_ONE};
use dude_base::place::Place;
use dude_base::sizes::Sizes;
use pmem_trait::{Failed, Medium};

// The sizes that these words name, where they are the header of an image of at most so many words.
fn sizes_in(header: &[u64; MARK as usize], len: u64) -> Option<Sizes>
    ensures { AreSizes len header.now result }
{
    let sizes = Sizes {
        subscribers: header[2],
        calls: header[3],
        rings: header[4],
        cells: header[5],
        pages: header[6],
        index: header[7],
    };
    if header[0] != MAGIC {
        return None;
    }
    let version = header[1];
    if version != VERSION && version != VERSION_ONE {
        return None;
    }
    if version == VERSION_ONE && (sizes.rings > MAX_RINGS_ONE || sizes.index != 0) {
        return None;
    }
    sizes.check().ok()?;
    if Place::of(&sizes).words() > len {
        return None;
    }
    Some(sizes)
}

// The words before the mark.
#[tactic(auto, using(log_ring::proofs::ScanReads::reading_on))]
fn read_words<M: Medium>(m: &mut M, header: &mut [u64; MARK as usize]) -> Result<(), Failed>
    requires { MARK ≤ (M.sight m.old).len }
    ensures len { (M.sight m.new).len ≡ (M.sight m.old).len }
    ensures reads { OnlyReads (is_ok result) (M.sight m.old) (M.sight m.new) }
    ensures few { (M.sight m.new).now ≤ (M.sight m.old).now + 8 }
    ensures words { OnOk result (IsHeaderOf (M.sight m.old) header.new) }
{
    for at in 0..MARK {
        header[at as usize] = m.read(at)?;
    }
    Ok(())
}

/// The sizes of the image on a medium, where it is formatted and whole.
#[tactic(auto, using(log_ring::proofs::ScanReads::reading_on))]
pub fn read_sizes<M: Medium>(m: &mut M) -> Result<Option<Sizes>, Failed>
    ensures len { (M.sight m.new).len ≡ (M.sight m.old).len }
    ensures reads { OnlyReads (is_ok result) (M.sight m.old) (M.sight m.new) }
    ensures few { (M.sight m.new).now ≤ (M.sight m.old).now + 8 }
    ensures accepted { IfOk result (λ found. IfSome found IsAccepted) }
    ensures room { IfOk result (λ found. IfSome found (λ s. image_words s ≤ (M.sight m.old).len)) }
    ensures sizes { IfOk result (λ found. ContentHas (HasSizes found) (M.sight m.old)) }
{
    let len = m.len();
    if len < HEADER {
        return Ok(None);
    }
    let mut header = [0; MARK as usize];
    read_words(m, &mut header)?;
    Ok(sizes_in(&header, len))
}
