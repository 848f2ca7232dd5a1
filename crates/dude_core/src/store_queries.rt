//! What the store has.

ghost use Rattle.core_events.specs.Keyed.{find};
ghost use Rattle.dude_base.specs.Records.{Covers, HasNumbers};
ghost use Rattle.dude_base.specs.declared.limits.TheConstants.{PAGE as PAGE_WORDS};
ghost use Rattle.dude_core.specs.Named.{Tells};
ghost use Rattle.dude_core.specs.StoreData.{AreInside, HasOnMedium, ring_at};
ghost use Rattle.pmem_trait.specs.Words.{IsIn};
ghost use Rattle.redo_record.specs.Fits.{cells_used};
ghost use Rattle.redo_record.specs.Waiting.{Waiting};
ghost use Rattle.std.specs.List.{Contains};
ghost use Rattle.std.specs.Prelude.{◌≡◌, ◌+◌, ◌*◌, ◌<◌, ◌≤◌, ◌↔◌, [], All, IsTrue, length, Some, slice_get};

use crate::store::Store;
use crate::waiting_bundle::WaitingBundle;
use dude_base::bundle::Bundle;
use dude_base::place::Place;
use pmem_trait::Call;

impl Store {
    /// Where the parts of the image stand.
    pub fn place(&self) -> Place
        ensures place { result ≡ self.now.sizes }
        ensures rings { length self.now.rings ≡ self.now.sizes.rings }
    {
        self.place
    }

    /// The number up to which the home has all writes.
    pub fn reproduced(&self) -> u64
        ensures { result ≡ self.now.reproduced }
    {
        self.reproduced
    }

    /// The bundles that wait, the one that was persisted first before the others.
    pub fn waiting(&self) -> &[WaitingBundle]
        ensures waiting { result.now ≡ self.now.waiting }
        ensures numbers { All (λ w. HasNumbers w.redo) self.now.waiting }
        ensures inside { AreInside self.now.sizes self.now.waiting }
    {
        &self.waiting
    }

    /// The calls made on the medium since the last call of the back ended.
    pub fn calls(&self) -> &[Call]
        ensures { result.now ≡ self.now.calls }
    {
        &self.made[self.since as usize..]
    }

    /// Whether no call of the back is under way.
    pub fn is_at_rest(&self) -> bool
        ensures { IsTrue result ↔ (self.now.calls ≡ []) }
    {
        self.calls().is_empty()
    }

    /// The slot behind the last bundle of the ring.
    pub fn next(&self, ring: u64) -> u64
        requires { ring < self.now.sizes.rings }
        ensures next { result ≡ (ring_at self.now ring).next }
        ensures inside { result < self.now.sizes.cells }
    {
        let rings = &self.rings;
        rings[ring as usize].next()
    }

    /// Whether the ring has room for so many cells more.
    pub fn has_room(&self, ring: u64, need: u64) -> bool
        requires { ring < self.now.sizes.rings }
        ensures { Tells result
            (cells_used (ring_at self.now ring).logged + need ≤ self.now.sizes.cells) }
    {
        let rings = &self.rings;
        rings[ring as usize].has_room(need, self.place.sizes().cells)
    }

    /// Whether the number is over all that bundles of the ring cover.
    pub fn is_newest(&self, ring: u64, number: u64) -> bool
        requires { ring < self.now.sizes.rings }
        ensures { Tells result (All (λ k. k.last < number) (ring_at self.now ring).logged) }
    {
        let rings = &self.rings;
        rings[ring as usize].is_below(number)
    }

    /// Whether the number is on the medium: the home has its writes, or a waiting bundle covers it.
    pub fn is_on_medium(&self, number: u64) -> bool
        ensures { Tells result (HasOnMedium self.now number) }
    {
        if number <= self.reproduced {
            return true;
        }
        is_covered(&self.waiting, number)
    }

    /// Whether the mark was settled at the number.
    pub fn was_mark(&self, number: u64) -> bool
        ensures { Tells result (IsIn number self.now.marks) }
    {
        self.marks.has(number)
    }

    /// The value of a home word that was read.
    pub fn word_read(&self, at: u64) -> Option<u64>
        ensures { result ≡ find self.now.read at }
    {
        self.read.find(at)
    }

    /// The home word at rest.
    pub fn home_word(&self, at: u64) -> u64
        requires { at < self.now.sizes.pages * PAGE_WORDS }
        ensures { slice_get self.now.home at ≡ Some result }
    {
        self.home[at as usize]
    }
}

// Whether a waiting bundle covers the number.
fn is_covered(waiting: &[WaitingBundle], number: u64) -> bool
    ensures { Tells result ((w : Waiting) × Contains waiting.now w × Covers w.redo number) }
{
    for bundle in waiting {
        if covers(bundle.redo(), number) {
            return true;
        }
    }
    false
}

fn covers(bundle: &Bundle, number: u64) -> bool
    ensures { Tells result (Covers bundle.now number) }
{
    bundle.first() <= number && number <= bundle.last()
}
