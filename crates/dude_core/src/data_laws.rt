//! What the data of a store stands for.

ghost use Rattle.dude_core.specs.DataLaws.{LawOfStartData, LawOfEffectCalls, LawOfEffects, LawOfTold, LawOfOnMedium};

/// The data at the start stands for the store at the start, over the opening medium.
pub fn law_of_start_data()
    ensures { LawOfStartData }
{}

/// The calls of a call of the back are those of what it writes, tells or reads.
pub fn law_of_effect_calls()
    ensures { LawOfEffectCalls }
{}

/// What a call on the medium does to the data, it does to the store that the data stands for.
pub fn law_of_effects()
    ensures { LawOfEffects }
{}

/// The numbers told are the opening one, and those that the calls told since.
pub fn law_of_told()
    ensures { LawOfTold }
{}

/// A number is on the medium by the data exactly where it is by the log.
pub fn law_of_on_medium()
    ensures { LawOfOnMedium }
{}
