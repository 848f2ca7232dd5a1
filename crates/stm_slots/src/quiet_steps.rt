//! Which steps keep the rule of the slots, whoever makes them.

ghost use Rattle.stm_slots.specs.QuietSteps.{LawOfQuietSteps};

use crate::slots_rule::Events;
use pmem_trait::Medium;

/// All events of a table but those of the turn, a draw, a post, and those on frames keep the rule of
/// the slots with no slot moved; so do a split of a seat and a join of two. It does nothing.
pub fn law_of_quiet_steps<M: Medium>(events: &Events<M>)
    ensures { LawOfQuietSteps M.sight events.now }
{
    // The setup is that of the key.
    let _boxes = events.box_count();
}
