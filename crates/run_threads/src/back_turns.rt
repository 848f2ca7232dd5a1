//! The turns that a worker takes over the back of a store.

use crate::answers::{fetched, pumped};
use pmem_trait::Medium;
use request_attempts::turn_fault::TurnFault;
use request_attempts::turns::Turns;
use stm_slots::beside::Beside;
use stm_slots::opening::Opening;
use stm_slots::slot::Slot;
use stm_slots::slots_rule::KeptSlots;
use tiny_stm::fetching::fetch_on;
use tiny_stm::pumping::pump_on;
use tiny_stm::stm::{Pass, Steps};

/// The turns that a worker takes over the back of a store: those of `Stm::pump` and `Stm::fetch`.
#[derive(Clone, Copy)]
pub struct BackTurns;

impl<M: Medium> Turns<Slot<M>, Beside, Opening<M>, KeptSlots<M>> for BackTurns {
    fn pump(&self, stm: &Steps<M>, p: &mut Pass) -> Result<u64, TurnFault> {
        pumped(pump_on(stm, p))
    }

    fn fetch(&self, stm: &Steps<M>, p: &mut Pass, page: u64) -> Result<(), TurnFault> {
        fetched(fetch_on(stm, p, page))
    }
}
