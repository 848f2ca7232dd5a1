//! Where a view may make an event, by the state and the store.

ghost use Rattle.core_events.specs.Conditions.{May, IsFree};
ghost use Rattle.core_events.specs.Keyed.{find};
ghost use Rattle.core_medium.specs.Machines.{Meets};
ghost use Rattle.dude_core.specs.Named.{Tells, event_of, of_turn, of_page};
ghost use Rattle.dude_core.specs.Stands.{store_of, machine_over};
ghost use Rattle.dude_core.specs.StateSteps.{MayMake};
ghost use Rattle.dude_core.specs.StoreData.{HasOnMedium};
ghost use Rattle.pmem_trait.specs.Words.{IsIn};
ghost use Rattle.std.specs.Prelude.{◌≡◌, ◌<◌, ◌≤◌, [], false, Some, slice_index};

use crate::conditions::may;
use crate::deed::{Deed, PageDeed, TurnDeed};
use crate::scans::none_names;
use crate::setup::Setup;
use crate::state::State;
use crate::store::Store;
use crate::view::View;
use crate::words::load;

impl State {
    // The view `who` may make the event.
    pub(crate) fn may_make(&self, store: &Store, z: &Setup, who: u64, deed: &Deed) -> bool
        ensures { Tells result
            (MayMake z.now (machine_over z.now self.now store.now) who (event_of deed.now)) }
    {
        if who >= self.views.len() as u64 {
            return false;
        }
        let view = &self.views[who as usize];
        may(view, z, deed) && self.meets(store, z, view, deed)
    }

    // The rest of the state and the store allow it.
    fn meets(&self, store: &Store, z: &Setup, view: &View, deed: &Deed) -> bool
        requires { May z.now (event_of deed.now) view.now }
        ensures { Tells result
            (Meets z.now (event_of deed.now) self.now (store_of z.now store.now) view.now) }
    {
        match deed {
            Deed::Read(_) => true,
            Deed::Write(_) => true,
            Deed::Turn(deed) => self.meets_turn(store, z, view, deed),
            Deed::Page(deed) => self.meets_page(store, z, view, deed),
        }
    }

    fn meets_turn(&self, store: &Store, z: &Setup, view: &View, deed: &TurnDeed) -> bool
        requires { May z.now (of_turn deed.now) view.now }
        ensures { Tells result
            (Meets z.now (of_turn deed.now) self.now (store_of z.now store.now) view.now) }
    {
        match deed {
            TurnDeed::SeeBox | TurnDeed::Post | TurnDeed::TakeTurn => true,
            TurnDeed::SeeFull { .. } => true,
            TurnDeed::GiveTurn { failed } => ends_well(store, *failed),
            TurnDeed::EmptyBox { thread, place } => {
                self.may_empty(store, z.box_of(*thread, *place))
            }
            TurnDeed::RaiseDurable { value } => self.may_tell(store, z, *value),
            TurnDeed::RaiseReproduced { value } => self.may_settle(store, *value),
        }
    }

    // The box is full, and its number is on the medium.
    fn may_empty(&self, store: &Store, at: u64) -> bool
        ensures { Tells result ((0 < slice_index self.now.boxes at)
            × HasOnMedium store.now (slice_index self.now.boxes at)) }
    {
        let number = load(&self.boxes, at);
        0 < number && store.is_on_medium(number)
    }

    // The durable word may rise to the number: it was told.
    fn may_tell(&self, store: &Store, z: &Setup, value: u64) -> bool
        ensures { Tells result ((self.now.durable ≤ value)
            × IsIn value (store_of z.now store.now).rest.told) }
    {
        self.durable <= value && was_told(store, z, value)
    }

    // The reproduced word may rise to the number: the mark was settled at it.
    fn may_settle(&self, store: &Store, value: u64) -> bool
        ensures { Tells result ((self.now.reproduced ≤ value) × IsIn value store.now.marks) }
    {
        self.reproduced <= value && store.was_mark(value)
    }

    fn meets_page(&self, store: &Store, z: &Setup, view: &View, deed: &PageDeed) -> bool
        ensures { Tells result
            (Meets z.now (of_page deed.now) self.now (store_of z.now store.now) view.now) }
    {
        match deed {
            PageDeed::Entry { page: _ } => true,
            PageDeed::Pin { page: _ } => true,
            PageDeed::Unpin { page: _ } => true,
            PageDeed::Touch { page: _ } => true,
            PageDeed::LoadTouch { page: _ } => true,
            PageDeed::Evict { page: _ } => true,
            PageDeed::Fill { filling } => {
                self.is_free(z, filling.frame)
                    && view.touch_is_up_to(filling.page, self.reproduced)
                    && was_read(store, filling.at, filling.value)
            }
            PageDeed::Show { page: _, frame: _ } => true,
        }
    }

    // No entry names the frame.
    fn is_free(&self, z: &Setup, frame: u64) -> bool
        ensures { Tells result (IsFree z.now self.now frame) }
    {
        none_names(&self.entries, z, frame)
    }
}

// The number was told before the last call of the back ended, or at the start.
fn was_told(store: &Store, z: &Setup, number: u64) -> bool
    ensures { Tells result (IsIn number (store_of z.now store.now).rest.told) }
{
    store.was_told(z.first(), number)
}

// No call of the back is under way, and none failed.
fn ends_well(store: &Store, failed: bool) -> bool
    ensures { Tells result ((store.now.calls ≡ []) × (failed ≡ false)) }
{
    store.is_at_rest() && !failed
}

// The home word was read, with this value.
fn was_read(store: &Store, at: u64, value: u64) -> bool
    ensures { Tells result (find store.now.read at ≡ Some value) }
{
    match store.word_read(at) {
        Some(word) => word == value,
        None => false,
    }
}
