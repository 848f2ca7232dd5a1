//! Events and partings of views, on the state.

ghost use Rattle.core_events.specs.Conditions.{IsAllowed, record_of, no_record};
ghost use Rattle.core_events.specs.Events.{next_box};
ghost use Rattle.core_events.specs.Kept.{Kept};
ghost use Rattle.core_events.specs.Partings.{Leads};
ghost use Rattle.core_events.specs.Views.{View as Seen};
ghost use Rattle.dude_core.specs.Memory.{MayTakeMemory};
ghost use Rattle.dude_core.specs.Named.{event_of};
ghost use Rattle.dude_core.specs.StateSteps.{IsKeptOver, IsOffOnlyOver, LeadsOver, event_by, machine_step};
ghost use Rattle.dude_core.specs.Views.{OfView, HasBoxInside, persisted_from, HasForgotten};
ghost use Rattle.std.specs.Prelude.{◌≡◌, slice_index_or, slice_set, OnOk, OnErr, IsErrOf};
ghost use lib.ListN.{get_elem?};
ghost use mathlib.Core.Option.{some};

use crate::box_event::BoxEvent;
use crate::core_refusal::CoreRefusal;
use crate::deed::Deed;
use crate::record_places::record_at;
use crate::setup::Setup;
use crate::state::State;
use crate::store::Store;
use dude_base::redo::Redo;
use std::alloc::{AllocError, Global};

impl State {
    /// Makes an event of the view `who` that a view makes by itself. It is `Off` exactly where the
    /// definitions don't allow it. After an `Err` state and store are as they were.
    pub fn make(
        &mut self,
        store: &mut Store,
        alloc: Global,
        z: &Setup,
        who: u64,
        deed: &Deed,
    ) -> Result<(), CoreRefusal>
        requires { IsKeptOver z.now self.old store.old }
        ensures waiting { store.new.waiting ≡ store.old.waiting }
        ensures ok { OnOk result (LeadsOver z.now self.old store.old (machine_step who deed.now)
            self.new store.new) }
        ensures err { OnErr result (self.new ≡ self.old) }
        ensures same { OnErr result (store.new ≡ store.old) }
        ensures off { IsOffOnlyOver result z.now self.old store.old (machine_step who deed.now) }
        ensures memory { IsErrOf result CoreRefusal.NoMemory → MayTakeMemory (event_of deed.now) }
    {
        if !self.may_make(store, z, who, deed) {
            return Err(CoreRefusal::Off);
        }
        let dropped = self.drops(z, who, deed);
        match self.enact(alloc, z, who, deed) {
            Ok(()) => {
                store.drop_reads(dropped);
                Ok(())
            }
            Err(AllocError) => Err(CoreRefusal::NoMemory),
        }
    }

    // Makes an event that is allowed.
    fn enact(&mut self, alloc: Global, z: &Setup, who: u64, deed: &Deed) -> Result<(), AllocError>
        requires kept { Kept z.now self.old }
        requires allowed { (v : Seen) × IsAllowed z.now self.old who (event_of deed.now) v }
        ensures ok { OnOk result (Leads z.now self.old (event_by who deed.now) self.new) }
        ensures err { OnErr result (self.new ≡ self.old) }
        ensures memory { OnErr result (MayTakeMemory (event_of deed.now)) }
    {
        match BoxEvent::of(deed) {
            BoxEvent::Post => {
                let record = self.record_of(who);
                let at = self.next_box_of(z, who);
                self.move_view(alloc, z, who, deed)?;
                self.put_record(at, record);
                Ok(())
            }
            BoxEvent::Empty { thread, place } => {
                let at = z.box_of(thread, place);
                self.persist(at)?;
                match self.move_view(alloc, z, who, deed) {
                    Ok(()) => {
                        self.put_record(at, Redo::new(0));
                        Ok(())
                    }
                    Err(fault) => {
                        self.forget_last();
                        Err(fault)
                    }
                }
            }
            BoxEvent::Other => {
                self.move_view(alloc, z, who, deed)?;
                Ok(())
            }
        }
    }

    // The record of the number that the view drew.
    fn record_of(&self, who: u64) -> Redo
        requires { (v : Seen) × (get_elem? self.now.views who ≡ some v) }
        ensures { OfView self.now.views who (λ v. result ≡ record_of v.tx.hand) }
    {
        self.views[who as usize].record()
    }

    fn next_box_of(&self, z: &Setup, who: u64) -> u64
        requires there { (v : Seen) × (get_elem? self.now.views who ≡ some v) }
        requires inside { OfView self.now.views who (λ v. HasBoxInside z.now v) }
        ensures { OfView self.now.views who (λ v. result ≡ next_box z.now v) }
    {
        self.views[who as usize].next_box(z)
    }

    fn put_record(&mut self, at: u64, posted: Redo)
        ensures { self.new ≡ record self.old { records = slice_set self.old.records at posted } }
    {
        if at < self.records.len() as u64 {
            self.records[at as usize] = posted;
        }
    }

    // The record of the box joins those that left their boxes.
    fn persist(&mut self, at: u64) -> Result<(), AllocError>
        ensures ok { OnOk result (self.new ≡ persisted_from self.old at) }
        ensures err { OnErr result (self.new ≡ self.old) }
    {
        let record = self.record_at(at);
        self.persisted.insert(0, record)?;
        Ok(())
    }

    fn record_at(&self, at: u64) -> Redo
        ensures { result ≡ slice_index_or self.now.records at no_record }
    {
        record_at(&self.records, at)
    }

    // The last record that left its box is forgotten.
    fn forget_last(&mut self)
        ensures { HasForgotten self.old self.new }
    {
        if !self.persisted.is_empty() {
            self.persisted.remove(0);
        }
    }
}
