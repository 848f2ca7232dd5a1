//! What all workers share.

use core_table::slot_rule::SlotRule;
use core_table::stm::Stm;
use std::alloc::Global;
use tatp_layout::Layout;
use tatp_model::request::Request;

/// What all workers share: the steps of transactions, the turns for one that can't get on, the layout of the home, the
/// requests of each file, and the gate that each transaction passes.
#[derive(Drop)]
pub struct Work<'a, S, X, K, P: SlotRule<S, X, K>, T, G> {
    pub alloc: Global,
    pub stm: &'a Stm<S, X, K, P>,
    pub turns: &'a T,
    pub lay: &'a Layout,
    pub files: &'a [Vec<Request>],
    pub gate: &'a G,
}
