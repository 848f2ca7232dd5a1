//! The state at its start.

ghost use Rattle.core_events.specs.Partings.{start};
ghost use Rattle.core_events.specs.Setups.{IsSetup};
ghost use Rattle.std.specs.Prelude.{◌≡◌, IfOk};

use crate::first_lists::{empty_records, first_cells, first_entries, first_views};
use crate::setup::Setup;
use crate::state::State;
use std::alloc::{AllocError, Global};

impl State {
    /// The state at its start: nobody has a number, the first pages are in the frames of their own
    /// numbers, and the first view has all draws and all splits.
    pub fn start(alloc: Global, z: &Setup) -> Result<State, AllocError>
        requires { IsSetup z.now }
        ensures { IfOk result (λ state. state ≡ start z.now) }
    {
        let first = z.first();
        let boxes = z.threads() * z.boxes();
        Ok(State {
            threads: 0,
            clock: first,
            turn: 0,
            durable: first,
            reproduced: first,
            locks: vec![in alloc; 2 * first; z.locks() as usize]?,
            entries: first_entries(alloc, z)?,
            touches: vec![in alloc; first; z.pages() as usize]?,
            cells: first_cells(alloc, z)?,
            boxes: vec![in alloc; 0; boxes as usize]?,
            records: empty_records(alloc, boxes)?,
            views: first_views(alloc, z)?,
            persisted: Vec::new(alloc),
        })
    }
}
