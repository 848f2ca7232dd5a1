//! The trait of the tables of a new database, and how each is filled.

ghost use Rattle.dude_base.specs.declared.limits.TheConstants.{PAGE};
ghost use Rattle.dude_base.specs.declared.sizes.Sizes.{Sizes};
ghost use Rattle.hash_table.specs.Table.{FitsTable};
ghost use Rattle.hash_table.specs.declared.table.Table.{Table};
ghost use Rattle.std.specs.Prelude.{◌≡◌, ℕ, ◌+◌, ◌*◌, ◌<◌, ◌≤◌, ◌^◌, List, length};
ghost use Rattle.tatp_rows.specs.Filling.{FillsUpTo, HasRoomFor, Inserts, IsEmpty, entries_up_to};

use crate::fill::finish;
use hash_table::table::Table;
use tatp_layout::Layout;

/// A table of a new database: where it stands, and what each subscriber has in it.
pub(crate) trait Populated {
    /// Where the table stands.
    ghost place: { Sizes → Table };

    /// The words of each record of a subscriber, without the link.
    ghost entries: { ℕ → List (List ℕ) };

    /// The table.
    fn table(lay: &Layout) -> Table
        ensures table { result ≡ place lay.now }
        ensures fits { FitsTable result (lay.now.pages * PAGE) };

    /// Inserts the entries of a subscriber, from the record at this index on, and answers the next index.
    fn put(words: &mut [u64], lay: &Layout, index: u64, s: u64) -> u64
        requires size { length words.old ≡ lay.now.pages * PAGE }
        requires subscriber { (1 ≤ s) × (s < 2 ^ 31) }
        requires room { index + length (entries s) ≤ (place lay.now).pool.count }
        ensures index { result ≡ index + length (entries s) }
        ensures filling { Inserts (place lay.now) index (entries s) words.old words.new };
}

/// Fills an empty table with the entries of each subscriber.
pub(crate) fn fill_table<T: Populated>(words: &mut [u64], lay: &Layout)
    requires size { length words.old ≡ lay.now.pages * PAGE }
    requires room { HasRoomFor (T.place lay.now) (entries_up_to T.entries lay.now.subscribers) }
    requires empty { IsEmpty (T.place lay.now) words.old }
    ensures { FillsUpTo lay.now.subscribers T.entries (T.place lay.now) words.old words.new }
{
    let table = T::table(lay);
    let mut index = 0;
    for s in 1..lay.sizes().subscribers + 1 {
        index = T::put(words, lay, index, s);
    }
    finish(words, &table.pool, index);
}
