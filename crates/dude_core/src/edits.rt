//! What calls on the medium make of the store.

ghost use Rattle.core_events.specs.Events.{unfilled};
ghost use Rattle.dude_base.specs.Records.{HasNumbers};
ghost use Rattle.dude_base.specs.Writes.{overwritten};
ghost use Rattle.dude_base.specs.declared.limits.TheConstants.{PAGE as PAGE_WORDS};
ghost use Rattle.dude_core.specs.DroppedReads.{dropped_from};
ghost use Rattle.dude_core.specs.Effects.{called, rested, added, ring_released};
ghost use Rattle.dude_core.specs.Effects.{called_by, left_of, appends, replays, reads_page};
ghost use Rattle.dude_core.specs.StoreData.{no_ring};
ghost use Rattle.std.specs.Prelude.{Some, slice_get, slice_index_or, slice_set};
ghost use Rattle.std.specs.Prelude.{◌≡◌, ◌+◌, ◌*◌, ◌<◌, [], All, AllPairs, length, map, OnOk, OnErr};

use crate::dropped::Dropped;
use crate::logged_bundle::LoggedBundle;
use crate::ring::Ring;
use crate::store::Store;
use crate::waiting_bundle::WaitingBundle;
use dude_base::bundle::Bundle;
use dude_base::limits::PAGE;
use dude_base::place::Place;
use dude_base::write::Write;
use pmem_trait::Call;
use redo_record::{cells_of, slot_after};
use std::alloc::AllocError;

impl Store {
    /// A call more was made, which reads no page.
    pub fn call(&mut self, call: Call) -> Result<(), AllocError>
        ensures ok { OnOk result (self.new ≡ called call self.old) }
        ensures err { OnErr result (self.new ≡ self.old) }
    {
        self.made.push(call)?;
        Ok(())
    }

    /// The calls that were made have ended.
    pub fn rest(&mut self)
        ensures { self.new ≡ rested self.old }
    {
        self.since = self.made.len() as u64;
    }

    /// A call more was made, which reads the next word of the page.
    pub fn read_next(&mut self, page: u64, call: Call) -> Result<(), AllocError>
        requires { page * PAGE_WORDS + length self.old.calls < self.old.sizes.pages * PAGE_WORDS }
        ensures ok { OnOk result (self.new ≡ called_by (reads_page page) call self.old) }
        ensures err { OnErr result (self.new ≡ self.old) }
    {
        // The sizes are accepted, so there are few pages.
        let _sizes = self.place.sizes();
        let at = page * PAGE + (self.made.len() as u64 - self.since);
        let value = self.home[at as usize];
        self.made.reserve(1)?;
        self.read.put_first(at, value)?;
        self.made.push_reserved(call);
        Ok(())
    }

    /// A call more was made, the last one of those that persist the bundle in the ring.
    pub fn end_persist(&mut self, ring: u64, bundle: Bundle, call: Call) -> Result<(), AllocError>
        requires ring { ring < self.old.sizes.rings }
        requires numbers { HasNumbers bundle }
        requires inside { All (λ w. w.at < self.old.sizes.pages * PAGE_WORDS) bundle.writes }
        ensures ok { OnOk result (self.new ≡ left_of (appends ring bundle) (called call self.old)) }
        ensures err { OnErr result (self.new ≡ self.old) }
    {
        self.made.reserve(1)?;
        self.waiting.reserve(1)?;
        add_bundle(&mut self.rings, &self.place, ring, &bundle)?;
        self.waiting.push_reserved(WaitingBundle::new(ring, bundle));
        self.made.push_reserved(call);
        self.since = self.made.len() as u64;
        Ok(())
    }

    /// A call more was made, the last one of those that put these writes home and settle the mark
    /// at the number.
    pub fn end_reproduce(
        &mut self,
        writes: &[Write],
        number: u64,
        call: Call,
    ) -> Result<(), AllocError>
        requires rising { AllPairs (λ v w. v.at < w.at) writes.now }
        requires inside { All (λ w. w.at < self.old.sizes.pages * PAGE_WORDS) writes.now }
        ensures ok { OnOk result (self.new
            ≡ left_of (replays writes.now number) (called call self.old)) }
        ensures err { OnErr result (self.new ≡ self.old) }
    {
        self.made.reserve(1)?;
        self.marks.put_first(number)?;
        release_rings(&mut self.rings, number);
        self.waiting.retain(|bundle| bundle.redo().last() > number);
        put_home(&mut self.home, writes);
        self.reproduced = number;
        self.released = self.released.max(number);
        self.made.push_reserved(call);
        self.since = self.made.len() as u64;
        Ok(())
    }

    /// This is dropped of the words read.
    pub(crate) fn drop_reads(&mut self, dropped: Dropped)
        ensures { self.new ≡ record self.old { read = dropped_from dropped self.old.read } }
    {
        match dropped {
            Dropped::Nothing => {}
            Dropped::Everything => self.forget_reads(),
            Dropped::OfPage(page) => self.forget_page(page),
        }
    }

    /// What was read is dropped.
    pub fn forget_reads(&mut self)
        ensures { self.new ≡ record self.old { read = [] } }
    {
        self.read.clear();
    }

    /// What was read of the page is dropped.
    pub fn forget_page(&mut self, page: u64)
        ensures { self.new ≡ record self.old { read = unfilled page self.old.read } }
    {
        self.read.remove_page(page);
    }
}

// Puts the bundle behind those of its ring.
fn add_bundle(
    rings: &mut [Ring],
    place: &Place,
    ring: u64,
    bundle: &Bundle,
) -> Result<(), AllocError>
    requires ring { ring < length rings.old }
    requires slot { (slice_index_or rings.old ring no_ring).next < place.now.cells }
    ensures ok { OnOk result (rings.new ≡ slice_set rings.old ring
        (added place.now ring bundle.now (slice_index_or rings.old ring no_ring))) }
    ensures err { OnErr result (rings.new ≡ rings.old) }
{
    // A bundle's writes are few.
    let _len = bundle.len();
    let slot = rings[ring as usize].next();
    let cells = cells_of(bundle);
    let logged = LoggedBundle {
        last: bundle.last(),
        span: bundle.last() - bundle.first(),
        slot,
        cells,
    };
    rings[ring as usize].add(logged, slot_after(place, slot, cells))
}

// Leaves no bundles up to this number.
fn release_rings(rings: &mut Vec<Ring>, number: u64)
    ensures { rings.new.items ≡ map (ring_released number) rings.old.items }
{
    for ring in rings.iter_mut() {
        ring.release(number);
    }
}

// Overwrites the home.
fn put_home(home: &mut [u64], writes: &[Write])
    requires rising { AllPairs (λ v w. v.at < w.at) writes.now }
    requires inside { All (λ w. w.at < length home.old) writes.now }
    ensures { home.new ≡ overwritten writes.now home.old }
{
    for k in 0..writes.len() as u64 {
        let write = write_at(writes, k);
        home[write.at as usize] = write.value;
    }
}

fn write_at(writes: &[Write], k: u64) -> Write
    requires { k < length writes.now }
    ensures { slice_get writes.now k ≡ Some result }
{
    writes[k as usize]
}
