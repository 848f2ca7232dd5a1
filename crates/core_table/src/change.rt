//! What an atomic step makes of the word that it finds.

ghost use Rattle.core_table.specs.Changes.{MayChange, Changed};

use atomic_table::{Play, Shared, TableRule};

/// What an atomic step makes of the word that it finds. No sum wraps.
#[derive(Clone, Copy)]
pub enum Change {
    /// The word `from` becomes `to`; any other stays.
    Exchange { from: u64, to: u64 },
    /// It becomes greater by so much.
    Add { more: u64 },
    /// It becomes less by so much.
    Subtract { less: u64 },
    /// It becomes at least so much.
    Raise { least: u64 },
}

/// The atomic step that makes this change of the word at this place, and what it found.
#[inline(always)]
pub(crate) fn change_word<S, V, K, R: TableRule<S, V, K>, M: Play<S, V>>(
    table: &Shared<S, V, K, R>,
    seat: &mut atomic_table::Seat<S, V>,
    place: usize,
    change: Change,
) -> u64
    requires { MayChange (R.holds table.now.key) M.then table.now.table_id seat.old place change }
    ensures { Changed M.then table.now.table_id seat.old seat.new place change result }
{
    match change {
        Change::Exchange { from, to } => table.compare_exchange::<M>(seat, place, from, to),
        Change::Add { more } => table.fetch_add::<M>(seat, place, more),
        Change::Subtract { less } => table.fetch_sub::<M>(seat, place, less),
        Change::Raise { least } => table.fetch_max::<M>(seat, place, least),
    }
}
