//! What a seat keeps beside its view; no value of it is ever made.

use std::marker::Model;

/// What a seat keeps beside its view: with the turn, what the back's slot has. No value of it is
/// ever made.
pub struct Beside {
    nothing: u8,
}

impl Model for Beside {
    ghost use Rattle.stm_slots.specs.Beside.{Beside, nothing_beside};

    ghost Value = { Beside };

    ghost view = { λ b. nothing_beside };
}
