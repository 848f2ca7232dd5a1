//! What keeps a log standing to the history of the machine's numbers, and what its arrays are.

ghost use Rattle.core_medium.specs.HistoryLaws.{LawOfLogEvents, LawOfLogSplits, LawOfLogJoins, LawOfGathering};
ghost use Rattle.core_medium.specs.HistoryLaws.{LawOfLogPersists, LawOfLogReproduces, LawOfArrayValues};

/// Every step of the machine on words leaves the log standing, where no box is emptied before its
/// number is on the medium, and leaves what may be gathered from boxes into a bundle.
pub fn law_of_log_events()
    ensures event { LawOfLogEvents }
    ensures split { LawOfLogSplits }
    ensures join { LawOfLogJoins }
    ensures gathering { LawOfGathering }
{}

/// A bundle of records in boxes that is persisted, and bundles that are reproduced, leave the log
/// standing.
pub fn law_of_log_calls()
    ensures persist { LawOfLogPersists }
    ensures reproduce { LawOfLogReproduces }
{}

/// The array at an end has the values at its number, and each number up to it is posted.
pub fn law_of_arrays()
    ensures { LawOfArrayValues }
{}
