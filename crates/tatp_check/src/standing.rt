//! The tables for which an array of home words stands.

ghost use Rattle.dude_base.specs.declared.limits.TheConstants.{PAGE};
ghost use Rattle.std.specs.Prelude.{◌≡◌, ◌*◌, IfOk, length};
ghost use Rattle.tatp_check.specs.Walked.{AreWalked, database_in};
ghost use Rattle.tatp_layout.specs.StandsFor.{IsLawful, StandsFor};
ghost use Rattle.tatp_model.specs.Database.{database_of};

use crate::check_fault::CheckFault;
use crate::rows::rows_at;
use crate::walked::{Walked, walk};
use std::alloc::{AllocError, Global};
use tatp_layout::Layout;
use tatp_model::Tables;

/// The tables for which an array of home words stands.
pub fn tables_of(alloc: Global, lay: &Layout, a: &[u64]) -> Result<Tables, AllocError>
    requires size { length a.now ≡ lay.now.pages * PAGE }
    requires lawful { IsLawful lay.now a.now }
    ensures { IfOk result (λ tables. StandsFor lay.now a.now (database_of tables)) }
{
    match walk(alloc, lay, a) {
        Ok(walked) => rows_of(alloc, lay, a, &walked),
        Err(CheckFault::NoMemory) => Err(AllocError),
        Err(CheckFault::NotDb { .. }) => unreachable!(),
    }
}

// The rows of the records, each table's in rising order of key.
fn rows_of(alloc: Global, lay: &Layout, a: &[u64], walked: &Walked) -> Result<Tables, AllocError>
    requires walked { AreWalked lay.now a.now walked.now }
    ensures { IfOk result (λ tables. database_of tables ≡ database_in a.now walked.now) }
{
    Ok(Tables {
        subscribers: rows_at(alloc, a, &walked.subscribers.in_key_order(alloc)?)?,
        access: rows_at(alloc, a, &walked.access.in_key_order(alloc)?)?,
        facilities: rows_at(alloc, a, &walked.facilities.in_key_order(alloc)?)?,
        calls: rows_at(alloc, a, &walked.calls.in_key_order(alloc)?)?,
    })
}
