//! The recovered home is put in place.

ghost use Rattle.dude_base.specs.Image.{image_words};
ghost use Rattle.dude_base.specs.declared.limits.TheConstants.{PAGE};
ghost use Rattle.dude_recover.specs.OpeningCalls.{FlushesHome, PutsHome, SettlesHome};
ghost use Rattle.std.specs.Prelude.{◌≡◌, ◌*◌, ◌≤◌, length};

use dude_base::limits::{LINE, PAGE};
use dude_base::place::Place;
use pmem_trait::{Failed, Medium};

// Puts each word of the home.
fn put_home<M: Medium>(m: &mut M, place: &Place, words: &[u64]) -> Result<(), Failed>
    requires count { length words.now ≡ place.now.pages * PAGE }
    requires room { image_words place.now ≤ (M.sight m.old).len }
    ensures len { (M.sight m.new).len ≡ (M.sight m.old).len }
    ensures made { PutsHome place.now words.now result (M.sight m.old) (M.sight m.new) }
{
    for (i, word) in words.iter().enumerate() {
        m.put(place.home(i as u64), *word)?;
    }
    Ok(())
}

// Flushes each line of the home.
fn flush_home<M: Medium>(m: &mut M, place: &Place) -> Result<(), Failed>
    requires { image_words place.now ≤ (M.sight m.old).len }
    ensures len { (M.sight m.new).len ≡ (M.sight m.old).len }
    ensures made { FlushesHome place.now result (M.sight m.old) (M.sight m.new) }
{
    for i in 0..place.sizes().pages * (PAGE / LINE) {
        m.flush(place.home(i * LINE) / LINE)?;
    }
    Ok(())
}

/// Puts every word of the home, also one that is there already, and makes them durable.
#[tactic(auto, using(pmem_trait::proofs::GroupRuns::grouping))]
pub fn settle_home<M: Medium>(m: &mut M, place: &Place, words: &[u64]) -> Result<(), Failed>
    requires count { length words.now ≡ place.now.pages * PAGE }
    requires room { image_words place.now ≤ (M.sight m.old).len }
    ensures len { (M.sight m.new).len ≡ (M.sight m.old).len }
    ensures made { SettlesHome place.now words.now result (M.sight m.old) (M.sight m.new) }
{
    put_home(m, place, words)?;
    flush_home(m, place)?;
    m.fence()
}
