//! What an array has at most: one database and one first wrong word, as contracts of functions that do nothing.

ghost use Rattle.tatp_check.specs.Laws.{LawOfFirstWord, LawOfOneDatabase};

/// An array stands for at most one database.
pub fn law_of_one_database()
    ensures { LawOfOneDatabase }
{}

/// At most one word of an array is the first one, in the order of checking, at which something is wrong; and none is where the
/// array stands for tables.
pub fn law_of_first_word()
    ensures { LawOfFirstWord }
{}
