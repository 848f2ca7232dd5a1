//! The machine of a trial: nothing lies in its slots.

use core_table::slot_rule::AnySlots;
use core_table::stm::Stm;
use core_table::terms::Terms;

/// The machine of a trial: nothing lies in its slots.
pub type Small = Stm<(), (), Terms, AnySlots>;
