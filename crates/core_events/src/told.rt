//! What a program that takes the steps learns from them: it knows its own view, and of the rest
//! of a kept state what each step tells.

ghost use Rattle.core_events.specs.Kept.{Kept};
ghost use Rattle.core_events.specs.KeptLaws.{LawOfSeats, LawOfNames, LawOfFoundWords, LawOfReadOut, OfEachView, KeepsFull, LeavesDraws, HasDrawn, HasRaised};
ghost use Rattle.core_events.specs.Setups.{Setup};
ghost use Rattle.core_events.specs.Telling.{IsSized};
ghost use Rattle.core_events.specs.Words.{State};

/// A kept state has its words, each view of it is as its thread may rely on, the word of an event
/// that a view may make exists, and each event tells something of the word that it finds. A view
/// that has all threads' numbers and all splits, and no number of its own open, has all entries;
/// each drawn number is then in one box or persisted once, with its writes.
pub fn law_of_telling()
    ensures sized { (z : Setup) (c : State) → Kept z c → IsSized z c }
    ensures seated { LawOfSeats }
    ensures inside { LawOfNames }
    ensures told { LawOfFoundWords }
    ensures read_out { LawOfReadOut }
{}

/// What a view alone tells of the rest of a kept state, with no step: the boxes whose numbers it
/// keeps are full, the clock is at most a number where it may draw all greater ones, the numbers
/// that it drew are up to the clock, and the durable word is at least its own durable number.
pub fn law_of_views()
    ensures full { OfEachView KeepsFull }
    ensures draws { OfEachView LeavesDraws }
    ensures drawn { OfEachView HasDrawn }
    ensures raised { OfEachView HasRaised }
{}
