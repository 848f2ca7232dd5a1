//! The crash laws of the back of the store, each as the contract of a function that does nothing.

ghost use Rattle.redo_record.specs.BackLaws.{LawOfEmptyLog, LawOfHeldLog, LawOfPersist, LawOfPersisting, LawOfLogOnTheWay, LawOfLogWhileReproducing, LawOfAnnounce, LawOfReproduce, LawOfReproducing, LawOfReproduced, LawOfReleasedRings, LawOfReadPage};
ghost use Rattle.redo_record.specs.Waiting.{LawOfWaiting};

/// Waiting records have one contiguous end and one array at each end up to it, which stay where a record is added.
pub fn law_of_waiting()
    ensures { LawOfWaiting }
{}

/// A medium at rest with no head over the mark holds a log of no records.
pub fn law_of_empty_log()
    ensures { LawOfEmptyLog }
{}

/// Every image of a medium that holds a log recovers to the contiguous end.
pub fn law_of_held_log()
    ensures { LawOfHeldLog }
{}

/// While a record is persisted, every image recovers to a number from the contiguous end without it to that with it.
pub fn law_of_persist()
    ensures { LawOfPersist }
{}

/// In each state on the way of a persisted record's append, every image recovers so.
pub fn law_of_persisting()
    ensures { LawOfPersisting }
{}

/// While a number up to the contiguous end is announced, every image recovers to that end.
pub fn law_of_announce()
    ensures { LawOfAnnounce }
{}

/// While records are reproduced, every image recovers to the contiguous end; then home and mark are settled there.
pub fn law_of_reproduce()
    ensures { LawOfReproduce }
{}

/// Each state along the calls of a reproduction is on the way, and every image there recovers to the contiguous end.
pub fn law_of_reproducing()
    ensures { LawOfReproducing }
{}

/// Reproduced records leave the contiguous end and the later arrays as they were.
pub fn law_of_reproduced()
    ensures { LawOfReproduced }
{}

/// A medium still holds the log where its rings release records up to the mark.
pub fn law_of_released_rings()
    ensures { LawOfReleasedRings }
{}

/// The reads of a page leave the medium as it is, and give the page of the home.
pub fn law_of_read_page()
    ensures { LawOfReadPage }
{}

/// In each state on the way of an append the log's other bundles stand as before.
pub fn law_of_log_on_the_way()
    ensures { LawOfLogOnTheWay }
{}

/// In each state on the way of a reproduction the log's bundles stand as before.
pub fn law_of_log_while_reproducing()
    ensures { LawOfLogWhileReproducing }
{}
