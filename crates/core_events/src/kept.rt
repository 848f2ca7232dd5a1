//! The kept state as a whole: it is there at the start, every step keeps it, and what it says of
//! entries after any list of steps.

ghost use Rattle.core_events.specs.Kept.{Kept};
ghost use Rattle.core_events.specs.KeptLaws.{LawOfEvents, LawOfSplits, LawOfJoins, LawOfShownPages, LawOfKeptEntries, LawOfSteps, LawOfLegalEntries, LawOfEntriesMade};
ghost use Rattle.core_events.specs.Partings.{start};
ghost use Rattle.core_events.specs.Plain.{IsPlain};
ghost use Rattle.core_events.specs.Setups.{Setup, IsSetup};
ghost use Rattle.core_events.specs.Words.{State};

/// The state at the start is kept, and so is the state after each allowed event, each split and
/// each join from a kept one. A kept state says what `IsPlain` says of its words and views alone.
/// Each word of a page that is shown is then the value at the clock. Where it is known what the
/// medium gives, the entries of a kept state are legal, whatever led to it.
pub fn law_of_keeping()
    ensures start { (z : Setup) → IsSetup z → Kept z (start z) }
    ensures event { LawOfEvents }
    ensures split { LawOfSplits }
    ensures join { LawOfJoins }
    ensures plain { (z : Setup) (c : State) → Kept z c → IsPlain z c }
    ensures shown { LawOfShownPages }
    ensures legal { LawOfKeptEntries }
{}

/// After every list of steps that are allowed the state is kept. The entries of all views are
/// legal, where it is known what the medium gives. They are the entries that the steps made, each
/// once: however entries are weighed, both weigh the same.
pub fn law_of_steps()
    ensures kept { LawOfSteps }
    ensures legal { LawOfLegalEntries }
    ensures once { LawOfEntriesMade }
{}
