//! Recovery gives one answer for each image, as the contract of a function that does nothing.

ghost use Rattle.image_recovery.specs.Recovered.{LawOfOneRecovery};

/// Recovery gives one answer for each image.
pub fn law_of_one_recovery()
    ensures { LawOfOneRecovery }
{}
