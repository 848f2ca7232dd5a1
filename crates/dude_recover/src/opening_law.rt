//! What images recover to along the calls that open one, as the contract of a function that does nothing.

ghost use Rattle.dude_recover.specs.OpeningLaw.{LawOfOpening};

/// At each moment of the calls that open an image every image recovers to what was recovered.
pub fn law_of_opening()
    ensures { LawOfOpening }
{}
