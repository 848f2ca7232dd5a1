//! The table that has the words of the machine, and its seats.

use crate::known::Known;
use crate::law::Law;
use crate::slot_rule::SlotRule;
use atomic_table::{Refused, Table};
use std::alloc::Global;
use std::marker::Model;

/// What a thread makes its steps with.
pub type Seat<S, X> = atomic_table::Seat<S, Known<X>>;

/// A table that was made, with its first seat; where memory is wanting, the slots come back.
pub type Opened<T, S, X> = Result<(T, Seat<S, X>), Refused<S, Global>>;

/// The words of the machine, on a table with slots of the type `S`.
#[derive(Drop)]
pub struct EventTable<S, X, K, P: SlotRule<S, X, K>> {
    pub(crate) table: Table<S, Known<X>, K, Law<P>, Global>,
    pub(crate) threads: u64,
    pub(crate) locks: u64,
    pub(crate) pages: u64,
    pub(crate) frames: u64,
    pub(crate) boxes: u64,
}

impl<S, X, K, P: SlotRule<S, X, K>> Model for EventTable<S, X, K, P> {
    ghost use Rattle.core_table.specs.Layout.{TableSight, IsLaidOut};

    ghost Value = { TableSight K };

    ghost view = { λ t. record { id = t.table.shared.table_id; key = t.table.shared.key; setup = P.setup t.table.shared.key } };

    ghost invariant = { λ t. IsLaidOut (P.setup t.table.shared.key) t.table.shared.table_id.words t.threads t.locks t.pages t.frames t.boxes };
}
