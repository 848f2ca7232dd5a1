//! Requests are served by transactions, each tried until a try is good.
#![tactic(auto)]

pub mod attempts;
pub mod gate;
pub mod once;
pub mod open_gate;
pub mod serve;
pub mod tried;
pub mod trying;
pub mod turn_fault;
pub mod turns;
pub mod unserved;
