//! The words of the machine of running transactions on a table that threads share. A step on the
//! table is an event of the machine, made by a seat whose view allows it; each is one atomic step, and the event that has its
//! name.
#![tactic(auto)]

pub mod change;
pub mod choice;
mod closing;
pub mod cut;
pub mod event_table;
pub mod foreseen;
pub mod known;
pub mod law;
mod opening;
mod paging;
mod partings;
pub mod places;
pub mod plays;
mod reading;
pub mod seat_moves;
pub mod served;
mod sizes;
pub mod slot_choice;
pub mod slot_rule;
pub mod slot_steps;
mod steps;
pub mod stm;
mod stm_partings;
pub mod terms;
mod turning;
mod writing;
