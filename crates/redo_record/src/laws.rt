//! The laws of redo records, each as the contract of a function that does nothing.

ghost use Rattle.redo_record.specs.AppendLaw.{LawOfAppend, LawOfAppending};
ghost use Rattle.redo_record.specs.Encoding.{LawOfEncoding, LawOfDecoding};
ghost use Rattle.redo_record.specs.Recovery.{LawOfCovering, LawOfRecovery, LawOfReplay};
ghost use Rattle.redo_record.specs.Rest.{LawOfImagesAtRest};
ghost use Rattle.redo_record.specs.RingLaws.{LawOfRoom, LawOfFollowing, LawOfRelease, LawOfRest};
ghost use Rattle.redo_record.specs.SettledRecords.{LawOfSettledRecords};

/// The cells of a record hold it, and as a slice they decode to it.
pub fn law_of_encoding()
    ensures { LawOfEncoding }
{}

/// Cells that hold a record have the words that `encode` gives for it.
pub fn law_of_decoding()
    ensures { LawOfDecoding }
{}

/// From the entry on, the state after each call of an append is one on the way; and after the whole list the record is
/// settled and the ring fits again.
pub fn law_of_append()
    ensures { LawOfAppend }
{}

/// In a state on the way of an append each head over the mark in its ring has its complete record in every image, and
/// the other rings fit.
pub fn law_of_appending()
    ensures { LawOfAppending }
{}

/// A record in settled cells stays there under appends of others and wherever these words stay, and each image has it.
pub fn law_of_settled_records()
    ensures { LawOfSettledRecords }
{}

/// Where the records of a ring follow one another and leave some cells, the cells after the last record are free.
pub fn law_of_room()
    ensures { LawOfRoom }
{}

/// Records follow one another also with one more at the end, and without the first ones.
pub fn law_of_following()
    ensures { LawOfFollowing }
{}

/// A ring fits without the records up to the mark.
pub fn law_of_release()
    ensures { LawOfRelease }
{}

/// A ring still fits where other words change and the mark rises.
pub fn law_of_rest()
    ensures { LawOfRest }
{}

/// An image has at most one replay: it can't be read for one reason, or has one number and one array.
pub fn law_of_replay()
    ensures { LawOfReplay }
{}

/// Each image of a medium at rest has the header, the mark and the home that are settled.
pub fn law_of_images_at_rest()
    ensures { LawOfImagesAtRest }
{}

/// An image of known header, mark and home recovers to the number to which records over the mark lead, and to the home
/// overwritten by them.
pub fn law_of_recovery()
    ensures { LawOfRecovery }
{}

/// The number to which an image recovers is the greatest up to which complete records over the mark cover each number.
pub fn law_of_covering()
    ensures { LawOfCovering }
{}
