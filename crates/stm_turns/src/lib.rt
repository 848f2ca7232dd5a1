//! The turn: the thread that has it has the back of the store, takes records out of boxes, and makes
//! them durable in bundles.
#![tactic(auto)]

mod boxes;
mod bundles;
mod calls;
mod closing;
mod gathering;
mod gathers;
mod letting;
mod opening;
mod places;
mod pump_fault;
mod pumped;
mod pumping;
mod raises;
mod settling;
mod slots;
mod turn;

pub use closing::close_events;
pub use opening::{first_home, new_events};
pub use pump_fault::PumpFault;
pub use pumped::Pumped;
pub use pumping::pump;
pub use raises::raise_reproduced;
pub use settling::settle;
pub use slots::SlotSeat;
pub use turn::{give_turn, take_turn};
