//! A copy of the tables.

ghost use Rattle.std.specs.Prelude.{◌≡◌, IfOk};
ghost use Rattle.tatp_model.specs.Database.{database_of};

use std::alloc::{AllocError, Global};
use tatp_model::Tables;

/// A copy of the tables.
pub(crate) fn copied(alloc: Global, t: &Tables) -> Result<Tables, AllocError>
    ensures { IfOk result (λ copy. database_of copy ≡ database_of t.now) }
{
    Ok(Tables {
        subscribers: Vec::from_slice(alloc, &t.subscribers)?,
        access: Vec::from_slice(alloc, &t.access)?,
        facilities: Vec::from_slice(alloc, &t.facilities)?,
        calls: Vec::from_slice(alloc, &t.calls)?,
    })
}
