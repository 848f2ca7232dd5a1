//! The machine: made over home words, read, and led on by one event after another.

ghost use Rattle.core_events.specs.Setups.{IsSetup};
ghost use Rattle.core_medium.specs.KeptStore.{MachineKept};
ghost use Rattle.dude_core.specs.CoreState.{CoreState, machine_of, LeadsTo};
ghost use Rattle.dude_core.specs.MadeCores.{IsCoreAt, RefusesSize, IsFaultOf, size_fault};
ghost use Rattle.dude_core.specs.Memory.{TakesNoMemory};
ghost use Rattle.dude_core.specs.StateSteps.{IsOffOnlyIn};
ghost use Rattle.dude_core.specs.Steps.{step_of};
ghost use Rattle.std.specs.Prelude.{◌≡◌, ◌≢◌, ◌*◌, ◌≤◌, length, slice_get, option_map, Err, IfOk, IfErr, OnOk, OnErr};

use crate::core_fault::CoreFault;
use crate::core_refusal::CoreRefusal;
use crate::core_word::CoreWord;
use crate::event::Event;
use crate::named::word_of;
use crate::replay_room::ReplayRoom;
use crate::setup::Setup;
use crate::state::State;
use crate::steps::step;
use crate::store::Store;
use crate::view::View;
use dude_base::limits::PAGE;
use dude_base::place::Place;
use dude_base::run::Run;
use dude_base::sizes::Sizes;
use std::alloc::Global;
use std::marker::Model;

/// The machine with its medium: what it is set up with, within its limits, its state and the store
/// behind it, which are kept; and room for the writes of bundles that are reproduced.
#[derive(Drop)]
pub struct Core {
    setup: Setup,
    state: State,
    store: Store,
    room: ReplayRoom,
}

impl Model for Core {
    ghost use Rattle.dude_core.specs.CoreState.{CoreState};
    ghost use Rattle.dude_core.specs.KeptCores.{IsKeptCore};

    ghost Value = { CoreState };

    ghost view = { λ a. record { setup = a.setup; state = a.state; store = a.store } };

    ghost invariant = { IsKeptCore };
}

impl Core {
    ghost use Rattle.core_events.specs.Words.{found};
    ghost use Rattle.dude_base.specs.Sizes.{IsAccepted};
    ghost use Rattle.dude_base.specs.declared.limits.TheConstants.{PAGE as PAGE_WORDS, MAX_NUMBER};
    ghost use Rattle.dude_core.specs.CoreWords.{HasWord, word_at};
    ghost use Rattle.dude_core.specs.Named.{Tells};

    /// The machine at its start over these home words, whose first pages are in frames. Each thread
    /// has a ring of the image for its records: there are at most as many threads as rings.
    pub fn new(
        alloc: Global,
        words: Vec<u64>,
        sizes: &Sizes,
        run: &Run,
        threads: u64,
        number: u64,
    ) -> Result<Core, CoreFault>
        requires sizes { IsAccepted sizes.now }
        requires words { length words.items ≡ sizes.now.pages * PAGE_WORDS }
        requires number { number ≤ MAX_NUMBER }
        ensures made { IfOk result (IsCoreAt words.items sizes.now run.now threads number) }
        ensures setup { IfOk result (λ core. IsSetup core.setup) }
        ensures kept { IfOk result (λ core. MachineKept core.setup (machine_of core)) }
        ensures size { RefusesSize result sizes.now run.now threads }
        ensures fault { IfErr result (IsFaultOf sizes.now run.now) }
    {
        if sizes.rings < threads {
            return Err(size_fault(sizes, run));
        }
        match Setup::new(words, sizes.pages, run, threads, number) {
            Some(setup) => {
                let state = State::start(alloc, &setup)?;
                let store = Store::start(alloc, &setup, &Place::of(sizes))?;
                let room = ReplayRoom::new(alloc, 0)?;
                Ok(Core {
                    setup,
                    state,
                    store,
                    room,
                })
            }
            None => Err(size_fault(sizes, run)),
        }
    }

    /// What the word holds.
    pub fn word(&self, word: CoreWord) -> u64
        requires { HasWord self.now.setup word }
        ensures { result ≡ found self.now.state (word_at self.now.setup word) }
    {
        self.state.found(word_of(&self.setup, word))
    }

    /// Whether there is such a word.
    pub fn has_word(&self, word: CoreWord) -> bool
        ensures { Tells result (HasWord self.now.setup word) }
    {
        match word {
            CoreWord::Lock(lock) => lock < self.setup.locks(),
            CoreWord::Entry(page) => page < self.setup.pages(),
            CoreWord::Touch(page) => page < self.setup.pages(),
            CoreWord::FrameWord(at) => at / PAGE < self.setup.frames(),
            CoreWord::BoxWord { thread, place } => {
                thread < self.setup.threads() && place < self.setup.boxes()
            }
            _ => true,
        }
    }

    /// The view `who`, if it is there. The first view is 0, and the others follow in the order in
    /// which they were split off.
    pub fn view(&self, who: u64) -> Option<&View>
        ensures { option_map (λ view. view.now) result ≡ slice_get self.now.state.views who }
    {
        self.state.view(who)
    }

    /// The store behind the words: the log, the calls made on the medium, and what was read of it.
    pub fn store(&self) -> &Store
        ensures { result.now ≡ self.now.store }
    {
        &self.store
    }
}

fn size_fault(sizes: &Sizes, run: &Run) -> CoreFault
    ensures { result ≡ size_fault sizes.now run.now }
{
    CoreFault::Size {
        frames: run.frames,
        pages: sizes.pages,
    }
}

/// Makes an event by the view `who`. It is `Off` exactly where the definitions don't allow it, and
/// lacks memory only where it takes some; after an `Err` the core is as it was.
pub fn core_step(alloc: Global, core: &mut Core, who: u64, event: &Event) -> Result<(), CoreRefusal>
    ensures ok { OnOk result
        (LeadsTo core.old (step_of core.old.store.read who event.now) core.new) }
    ensures setup { core.new.setup ≡ core.old.setup }
    ensures kept { MachineKept core.new.setup (machine_of core.new) }
    ensures err { OnErr result (core.new ≡ core.old) }
    ensures off { IsOffOnlyIn result core.old.setup (machine_of core.old)
        (step_of core.old.store.read who event.now) }
    ensures no_memory { TakesNoMemory event.now → result ≢ Err CoreRefusal.NoMemory }
{
    step(
        &mut core.state,
        &mut core.store,
        &mut core.room,
        alloc,
        &core.setup,
        who,
        event,
    )
}
