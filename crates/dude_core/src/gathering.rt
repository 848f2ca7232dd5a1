//! Which records in boxes a call on the medium persists together.

ghost use Rattle.dude_base.specs.Records.{HasNumbers};
ghost use Rattle.dude_core.specs.Gathers.{Gathers, GathersNo, Persists, PersistsNone};
ghost use Rattle.dude_core.specs.Gathers.{number_in, IsLeastOf, IsLower, Joins, IsLonger};
ghost use Rattle.dude_core.specs.Named.{Tells};
ghost use Rattle.dude_core.specs.NextCalls.{AppendsOn, AppendsNone};
ghost use Rattle.dude_core.specs.StateSteps.{IsKeptOver};
ghost use Rattle.std.specs.Prelude.{◌≡◌, ◌≢◌, ◌+◌, ◌<◌, ℕ, IfSome, IfNone, length, slice_index};

use crate::fit::ends_by;
use crate::gathered::Gathered;
use crate::record_places::record_at;
use crate::setup::Setup;
use crate::state::State;
use crate::store::Store;
use crate::words::load;
use dude_base::bundle::Bundle;
use pmem_trait::Call;
use redo_record::{AppendCalls, cells_of};

impl Store {
    // Whether the call, behind those made, ends what appends the bundle to the ring.
    fn append_ends(&self, ring: u64, bundle: &Bundle, call: Call) -> Option<bool>
        requires ring { ring < self.now.sizes.rings }
        requires numbers { HasNumbers bundle.now }
        ensures some { IfSome result (AppendsOn self.now call ring bundle.now) }
        ensures none { IfNone result (AppendsNone self.now call ring bundle.now) }
    {
        if !self.has_room(ring, cells_of(bundle)) {
            return None;
        }
        let mut calls = AppendCalls::room();
        calls.set(&self.place(), ring, self.next(ring), bundle);
        ends_by(&calls, self.calls(), call)
    }
}

impl State {
    /// The records in boxes with whose persist the call goes on.
    pub(crate) fn next_persist(&self, store: &Store, z: &Setup, call: Call) -> Option<Gathered>
        requires { IsKeptOver z.now self.now store.now }
        ensures ring { IfSome result (λ g. g.ring < z.now.threads) }
        ensures some { IfSome result (λ g. Persists z.now self.now store.now call g.ring g.bundle
            g.is_last) }
        ensures none { IfNone result ((t : ℕ) → t < z.now.threads
            → PersistsNone z.now self.now store.now call t) }
    {
        for thread in 0..z.threads() {
            let gathered = self.persist_of(store, z, thread, call);
            if gathered.is_some() {
                return gathered;
            }
        }
        None
    }

    // The records with whose persist into the ring of the thread the call goes on.
    fn persist_of(&self, store: &Store, z: &Setup, thread: u64, call: Call) -> Option<Gathered>
        requires kept { IsKeptOver z.now self.now store.now }
        requires thread { thread < z.now.threads }
        ensures ring { IfSome result (λ g. g.ring ≡ thread) }
        ensures some { IfSome result (λ g. Persists z.now self.now store.now call thread g.bundle
            g.is_last) }
        ensures none { IfNone result (PersistsNone z.now self.now store.now call thread) }
    {
        let Some(place) = self.least_box(z, thread) else {
            return None;
        };
        let record = record_at(&self.records, z.box_of(thread, place));
        if store.is_on_medium(record.number()) || !store.is_newest(thread, record.number()) {
            return None;
        }
        self.gather(store, z, thread, Bundle::one(&record), call)
    }

    // The full box of the thread that has the least number.
    fn least_box(&self, z: &Setup, thread: u64) -> Option<u64>
        requires { thread < z.now.threads }
        ensures { IsLeastOf z.now self.now thread z.now.boxes result }
    {
        let mut least = None;
        for place in 0..z.boxes() {
            if self.is_lower(z, thread, place, least) {
                least = Some(place);
            }
        }
        least
    }

    fn is_lower(&self, z: &Setup, thread: u64, place: u64, than: Option<u64>) -> bool
        requires thread { thread < z.now.threads }
        requires place { place < z.now.boxes }
        requires than { IfSome than (λ j. j < z.now.boxes) }
        ensures { Tells result (IsLower z.now self.now thread place than) }
    {
        let number = self.number_in(z, thread, place);
        match than {
            Some(other) => 0 < number && number < self.number_in(z, thread, other),
            None => 0 < number,
        }
    }

    fn number_in(&self, z: &Setup, thread: u64, place: u64) -> u64
        requires thread { thread < z.now.threads }
        requires place { place < z.now.boxes }
        ensures { result ≡ number_in z.now self.now thread place }
    {
        load(&self.boxes, z.box_of(thread, place))
    }

    // The bundle, with the records of as many boxes behind it as the call goes on with.
    fn gather(
        &self,
        store: &Store,
        z: &Setup,
        ring: u64,
        bundle: Bundle,
        call: Call,
    ) -> Option<Gathered>
        requires kept { IsKeptOver z.now self.now store.now }
        requires ring { ring < store.now.sizes.rings }
        requires numbers { HasNumbers bundle }
        ensures ring { IfSome result (λ g. g.ring ≡ ring) }
        ensures some { IfSome result (λ g. Gathers z.now self.now store.now call ring bundle
            g.bundle g.is_last) }
        ensures none { IfNone result (GathersNo z.now self.now store.now call ring bundle) }
    {
        if let Some(is_last) = store.append_ends(ring, &bundle, call) {
            return Some(Gathered {
                ring,
                bundle,
                is_last,
            });
        }
        match self.longer(store, z, &bundle) {
            Some(longer) => self.gather(store, z, ring, longer, call),
            None => None,
        }
    }

    // The bundle with the record of the next number, where that is in a box and not on the medium,
    // and the bundle takes it.
    fn longer(&self, store: &Store, z: &Setup, bundle: &Bundle) -> Option<Bundle>
        requires kept { IsKeptOver z.now self.now store.now }
        requires numbers { HasNumbers bundle.now }
        ensures numbers { IfSome result HasNumbers }
        ensures some { IfSome result (IsLonger z.now self.now store.now bundle.now) }
        ensures none { IfNone result
            ((p : ℕ × ℕ) → Joins z.now self.now store.now bundle.now p → ⊥) }
    {
        let number = bundle.last() + 1;
        if store.is_on_medium(number) {
            return None;
        }
        let Some(at) = self.box_with(number) else {
            return None;
        };
        let mut longer = bundle.copy();
        match longer.add(&record_at(&self.records, at)) {
            Ok(()) => Some(longer),
            Err(_) => None,
        }
    }

    // The box with this number, among all boxes.
    fn box_with(&self, number: u64) -> Option<u64>
        ensures some { IfSome result (λ k. slice_index self.now.boxes k ≡ number) }
        ensures inside { IfSome result (λ k. k < length self.now.boxes) }
        ensures none { IfNone result ((k : ℕ) → k < length self.now.boxes
            → slice_index self.now.boxes k ≢ number) }
    {
        for at in 0..self.boxes.len() as u64 {
            if load(&self.boxes, at) == number {
                return Some(at);
            }
        }
        None
    }
}
