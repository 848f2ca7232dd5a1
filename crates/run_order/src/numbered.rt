//! What requests that were answered at numbers are along the printed order.

ghost use Rattle.run_order.specs.Numbers.{LawOfWriters};
ghost use Rattle.run_order.specs.Printed.{LawOfPrintedOrder, LawOfParts, LawOfReplies, LawOfDatabases};
ghost use Rattle.run_order.specs.Rests.{LawOfPerforming, LawOfRests, LawOfRestNumbers, LawOfSyncs};

/// Requests that have numbers, whatever threads answered them, have a printed order that keeps
/// each file's: that is all of what is said of one thread but its replies. Where each was answered
/// on the database at its number, the replies are one thread's too. These databases are those
/// along the printed order, and rest on the requests that wrote alone.
pub fn law_of_numbered_requests()
    ensures printed { LawOfPrintedOrder }
    ensures parts { LawOfParts }
    ensures replies { LawOfReplies }
    ensures databases { LawOfDatabases }
    ensures writers { LawOfWriters }
{}

/// What one thread performs behind the last number is answered at numbers too, on databases that
/// go on from there. Where threads answered the first requests of each file and one thread goes on
/// with the rests, all together are requests of whole files that were answered at numbers. The
/// numbers are so whatever was read.
pub fn law_of_rests()
    ensures performing { LawOfPerforming }
    ensures rests { LawOfRests }
    ensures numbers { LawOfRestNumbers }
    ensures syncs { LawOfSyncs }
{}
