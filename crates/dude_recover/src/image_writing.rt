//! The writes that make an image: four groups, each put, flushed and fenced before the next, and then the tell.

ghost use Rattle.dude_base.specs.Image.{image_words};
ghost use Rattle.dude_base.specs.declared.limits.TheConstants.{PAGE};
ghost use Rattle.dude_recover.specs.FormatCalls.{FlushesContents, PutsCells, PutsHome, SettlesContents, SettlesHeader, WritesImage};
ghost use Rattle.std.specs.Prelude.{◌≡◌, ◌*◌, ◌≤◌, length};

use dude_base::limits::{HEADER, LINE, MAGIC, MARK, VERSION};
use dude_base::place::Place;
use pmem_trait::{Failed, Medium, settle_group};

// Puts 0 in each word of each cell.
fn clear_cells<M: Medium>(m: &mut M, place: &Place) -> Result<(), Failed>
    requires room { image_words place.now ≤ (M.sight m.old).len }
    ensures len { (M.sight m.new).len ≡ (M.sight m.old).len }
    ensures made { PutsCells place.now result (M.sight m.old) (M.sight m.new) }
{
    let sizes = place.sizes();
    for word in HEADER..HEADER + sizes.rings * sizes.cells * LINE {
        m.put(word, 0)?;
    }
    Ok(())
}

// Puts the home in its words.
fn put_home<M: Medium>(m: &mut M, place: &Place, home: &[u64]) -> Result<(), Failed>
    requires room { image_words place.now ≤ (M.sight m.old).len }
    requires whole { length home.now ≡ place.now.pages * PAGE }
    ensures len { (M.sight m.new).len ≡ (M.sight m.old).len }
    ensures made { PutsHome place.now home.now result (M.sight m.old) (M.sight m.new) }
{
    for word in 0..home.len() {
        m.put(place.home(word as u64), home[word])?;
    }
    Ok(())
}

// Flushes all lines of the image but the first.
fn flush_contents<M: Medium>(m: &mut M, place: &Place) -> Result<(), Failed>
    requires room { image_words place.now ≤ (M.sight m.old).len }
    ensures len { (M.sight m.new).len ≡ (M.sight m.old).len }
    ensures made { FlushesContents place.now result (M.sight m.old) (M.sight m.new) }
{
    for line in 1..place.words() / LINE {
        m.flush(line)?;
    }
    Ok(())
}

// Makes mark, cells and home durable.
#[tactic(auto, using(crate::proofs::Loops::filling))]
fn settle_contents<M: Medium>(m: &mut M, place: &Place, home: &[u64]) -> Result<(), Failed>
    requires room { image_words place.now ≤ (M.sight m.old).len }
    requires whole { length home.now ≡ place.now.pages * PAGE }
    ensures len { (M.sight m.new).len ≡ (M.sight m.old).len }
    ensures made { SettlesContents place.now home.now result (M.sight m.old) (M.sight m.new) }
{
    m.put(MARK, 0)?;
    clear_cells(m, place)?;
    put_home(m, place, home)?;
    flush_contents(m, place)?;
    m.fence()
}

// Makes the header durable, but for the magic number.
fn settle_header<M: Medium>(m: &mut M, place: &Place) -> Result<(), Failed>
    requires room { image_words place.now ≤ (M.sight m.old).len }
    ensures len { (M.sight m.new).len ≡ (M.sight m.old).len }
    ensures made { SettlesHeader place.now result (M.sight m.old) (M.sight m.new) }
{
    let sizes = place.sizes();
    let header = [
        (1, VERSION),
        (2, sizes.subscribers),
        (3, sizes.calls),
        (4, sizes.rings),
        (5, sizes.cells),
        (6, sizes.pages),
        (7, sizes.index),
    ];
    settle_group(m, &header, &[0])
}

/// Writes an image with this home, and tells 0.
///
/// The magic number is cleared first and put last, so that from the first fence on a crash leaves nothing that looks
/// formatted, until the magic number is put again.
#[tactic(auto, using(crate::proofs::FormatLaw::writing))]
pub fn write_image<M: Medium>(m: &mut M, place: &Place, home: &[u64]) -> Result<(), Failed>
    requires room { image_words place.now ≤ (M.sight m.old).len }
    requires whole { length home.now ≡ place.now.pages * PAGE }
    ensures len { (M.sight m.new).len ≡ (M.sight m.old).len }
    ensures made { WritesImage place.now home.now result (M.sight m.old) (M.sight m.new) }
{
    settle_group(m, &[(0, 0)], &[0])?;
    settle_contents(m, place, home)?;
    settle_header(m, place)?;
    settle_group(m, &[(0, MAGIC)], &[0])?;
    m.tell(0)
}
