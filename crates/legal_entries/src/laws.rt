//! What legal entries of served requests lead through.

ghost use Rattle.legal_entries.specs.Served.{LawOfServing, LawOfEntries, LawOfDone, LawOfNumbering};

/// A request that is answered over words, which a transaction reads and writes, has a served entry.
/// Over an opening array that stands for a database, legal entries of requests that were served on
/// what they read lead through databases: the array at each number stands for the one there, and
/// each reply is one thread's on it. What was done by them, and each `SYNC`, was answered at
/// numbers; it has these also where it isn't known what the entries read.
pub fn law_of_served_entries()
    ensures served { LawOfServing }
    ensures leads { LawOfEntries }
    ensures done { LawOfDone }
    ensures numbered { LawOfNumbering }
{}
