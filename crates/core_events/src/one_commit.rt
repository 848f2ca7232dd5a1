//! One transaction, step by step: the conditions of its events can be met, one after another.

ghost use Rattle.core_events.specs.KeptLaws.{IsCommitted};
ghost use Rattle.core_events.specs.OneCommit.{smallest};
ghost use Rattle.core_events.specs.Setups.{IsSetup};
ghost use Rattle.core_events.specs.Words.{State};

/// A thread reads a word and writes it, its record leaves its box, and the durable and the
/// reproduced word follow. All steps are allowed, and leave one entry and the word.
pub fn law_of_a_commit()
    ensures setup { IsSetup smallest }
    ensures happens { (c : State) × IsCommitted c }
{}
