//! Which page is in which frame: a partial one-to-one map and a hand that goes round.
#![tactic(auto)]

pub mod pager;
