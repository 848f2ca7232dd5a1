//! The records of the five tables, as walks through them find them.

ghost use Rattle.dude_base.specs.declared.limits.TheConstants.{PAGE};
ghost use Rattle.hash_table.specs.Table.{FitsTable};
ghost use Rattle.std.specs.Prelude.{◌≡◌, ◌*◌, IfErr, IfOk, length};
ghost use Rattle.tatp_check.specs.Content.{content_of, table_of};
ghost use Rattle.tatp_check.specs.Faults.{IsCause};
ghost use Rattle.tatp_check.specs.Order.{IsFirstWrongIn, IsInTables};
ghost use Rattle.tatp_check.specs.Walked.{AreWalked, taken_of};
ghost use Rattle.tatp_check.specs.Whole.{KeepsWhole};

use crate::check_fault::CheckFault;
use crate::table_kind::TableKind;
use crate::taken::Taken;
use crate::walk::check_table;
use std::alloc::Global;
use tatp_layout::Layout;

/// The records of five tables in which nothing is wrong but perhaps references.
#[derive(Drop)]
pub struct Walked {
    pub subscribers: Taken,
    pub numbers: Taken,
    pub access: Taken,
    pub facilities: Taken,
    pub calls: Taken,
}

/// Walks through the five tables, and refuses the array at the first word that is wrong in them.
pub fn walk(alloc: Global, lay: &Layout, a: &[u64]) -> Result<Walked, CheckFault>
    requires size { length a.now ≡ lay.now.pages * PAGE }
    ensures walked { IfOk result (AreWalked lay.now a.now) }
    ensures fault { IfErr result (IsCause (IsInTables lay.now a.now)) }
{
    let subscribers = walk_table(alloc, lay, a, TableKind::Subscribers)?;
    let numbers = walk_table(alloc, lay, a, TableKind::Numbers)?;
    let access = walk_table(alloc, lay, a, TableKind::Access)?;
    let facilities = walk_table(alloc, lay, a, TableKind::Facilities)?;
    let calls = walk_table(alloc, lay, a, TableKind::Calls)?;
    Ok(Walked {
        subscribers,
        numbers,
        access,
        facilities,
        calls,
    })
}

fn walk_table(alloc: Global, lay: &Layout, a: &[u64], kind: TableKind) -> Result<Taken, CheckFault>
    requires size { length a.now ≡ lay.now.pages * PAGE }
    ensures fits { FitsTable (table_of kind lay.now) (length a.now) }
    ensures whole { IfOk result (KeepsWhole (content_of kind) (table_of kind lay.now) a.now) }
    ensures fault { IfErr result (IsCause (IsFirstWrongIn kind lay.now a.now)) }
{
    check_table(alloc, &kind.table(lay), &kind, a)
}

impl Walked {
    /// The records of one table.
    pub fn of(&self, kind: TableKind) -> &Taken
        ensures { result.now ≡ taken_of self.now kind }
    {
        match kind {
            TableKind::Subscribers => &self.subscribers,
            TableKind::Numbers => &self.numbers,
            TableKind::Access => &self.access,
            TableKind::Facilities => &self.facilities,
            TableKind::Calls => &self.calls,
        }
    }
}
