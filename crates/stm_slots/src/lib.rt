//! The slots of running transactions: the back of the store, which the turn gives, with what is known of it as plain data, and a
//! record in each box; and which steps keep what is known of them.
#![tactic(auto)]

pub mod beside;
pub mod home;
pub mod known_back;
pub mod opening;
pub mod quiet_steps;
pub mod slot;
pub mod slots_rule;
