//! One transaction, step by step and call by call: the conditions of its steps can be met, one
//! after another.

ghost use Rattle.core_events.specs.Setups.{IsSetup};
ghost use Rattle.core_medium.specs.DurableCommit.{small_setup, small_sizes, IsDurablyCommitted};
ghost use Rattle.core_medium.specs.KeptStore.{IsStart, opening_medium};
ghost use Rattle.core_medium.specs.Machines.{Machine};

/// A thread reads a word and writes it, and in one turn its record is persisted, announced and
/// reproduced by nineteen calls on the medium; then the page is evicted, read, and the word filled
/// in again. All steps are allowed, and leave the word in the home, behind the mark.
pub fn law_of_a_durable_commit()
    ensures setup { IsSetup small_setup }
    ensures start { IsStart small_setup small_sizes (opening_medium small_setup small_sizes) }
    ensures happens { (m : Machine) × IsDurablyCommitted m }
{}
