//! The store over vectors.

ghost use Rattle.core_events.specs.Setups.{IsSetup};
ghost use Rattle.dude_base.specs.declared.limits.TheConstants.{PAGE as PAGE_WORDS};
ghost use Rattle.dude_core.specs.StoreData.{no_ring, start_data};
ghost use Rattle.std.specs.Prelude.{◌≡◌, ◌*◌, length, replicate, IfOk};

use crate::numbers::Numbers;
use crate::pairs::Pairs;
use crate::ring::Ring;
use crate::setup::Setup;
use crate::waiting_bundle::WaitingBundle;
use dude_base::limits::PAGE;
use dude_base::place::Place;
use pmem_trait::Call;
use std::alloc::{AllocError, Global};
use std::marker::Model;

/// The store: the log at rest, all calls made on the medium, those since the last call of the back
/// ended, and what was read.
#[derive(Drop)]
pub struct Store {
    pub(crate) place: Place,
    pub(crate) rings: Vec<Ring>,
    pub(crate) waiting: Vec<WaitingBundle>,
    pub(crate) home: Vec<u64>,
    pub(crate) reproduced: u64,
    pub(crate) released: u64,
    pub(crate) made: Vec<Call>,
    // How many calls were made when the last call of the back ended.
    pub(crate) since: u64,
    pub(crate) marks: Numbers,
    pub(crate) read: Pairs,
}

impl Model for Store {
    ghost use Rattle.dude_core.specs.KeptData.{IsKeptStore};
    ghost use Rattle.dude_core.specs.StoreData.{StoreData};
    ghost use Rattle.std.specs.Prelude.{take, drop};

    ghost Value = { StoreData };

    ghost view = { λ a. record { sizes = a.place; rings = a.rings.items; waiting = a.waiting.items; home = a.home.items; reproduced = a.reproduced; released = a.released; ended = take a.since a.made.items; calls = drop a.since a.made.items; marks = a.marks; read = a.read } };

    ghost invariant = { IsKeptStore };
}

impl Store {
    /// The store at the start, with the opening words of the setup as home.
    pub fn start(alloc: Global, z: &Setup, place: &Place) -> Result<Store, AllocError>
        requires setup { IsSetup z.now }
        requires pages { place.now.pages ≡ z.now.pages }
        ensures { IfOk result (λ store. store ≡ start_data z.now place.now) }
    {
        let sizes = place.sizes();
        let first = z.first();
        let mut marks = Numbers::new(alloc);
        marks.put_first(first)?;
        Ok(Store {
            place: *place,
            rings: empty_rings(alloc, sizes.rings)?,
            waiting: Vec::new(alloc),
            home: opening_words(alloc, z)?,
            reproduced: first,
            released: 0,
            made: Vec::new(alloc),
            since: 0,
            marks,
            read: Pairs::new(alloc),
        })
    }
}

// So many rings without bundles.
fn empty_rings(alloc: Global, count: u64) -> Result<Vec<Ring>, AllocError>
    ensures { IfOk result (λ rings. rings.items ≡ replicate count no_ring) }
{
    let mut rings = Vec::new(alloc);
    for _ in 0..count {
        rings.push(Ring::new(alloc))?;
    }
    Ok(rings)
}

// The home words at the start.
fn opening_words(alloc: Global, z: &Setup) -> Result<Vec<u64>, AllocError>
    requires { length z.now.opening ≡ z.now.pages * PAGE_WORDS }
    ensures { IfOk result (λ words. words.items ≡ z.now.opening) }
{
    let mut words = Vec::new(alloc);
    for at in 0..z.pages() * PAGE {
        words.push(z.opening(at))?;
    }
    Ok(words)
}
