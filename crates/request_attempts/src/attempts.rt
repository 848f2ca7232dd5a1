//! What requests are tried with.

use core_table::slot_rule::SlotRule;
use core_table::stm::Stm;
use tatp_layout::Layout;

/// What requests are tried with: the steps of transactions, the layout of the home, the gate that each transaction passes,
/// and the turns for one that can't get on.
#[derive(Drop)]
pub struct Attempts<'a, S, X, K, P: SlotRule<S, X, K>, G, T> {
    pub stm: &'a Stm<S, X, K, P>,
    pub lay: &'a Layout,
    pub gate: &'a G,
    pub turns: &'a T,
}
