//! The trait of rows that stand in the records of a table, and the reads of any of them.

ghost use Rattle.dude_base.specs.declared.limits.TheConstants.{PAGE};
ghost use Rattle.hash_table.specs.Walk.{walk_reads};
ghost use Rattle.record_heap.specs.Pool.{IsRecord};
ghost use Rattle.std.specs.Prelude.{◌≡◌, ◌+◌, ◌-◌, ◌*◌, ◌≤◌, ℕ, List, length};
ghost use Rattle.tatp_layout.specs.FoundRows.{FindsRow};
ghost use Rattle.tatp_layout.specs.RecordCalls.{ReadsRow};
ghost use Rattle.word_space.specs.Steps.{AnswersSeen, UsesWords};

use crate::layout::Layout;
use crate::record_words::read_record;
use hash_table::table::Table;
use word_space::stop::Stop;
use word_space::words::Words;

/// A row that stands in a record of a table of its own, and is known by the record's words.
pub trait RecordRow: Sized {
    ghost use Rattle.dude_base.specs.declared.sizes.Sizes.{Sizes};
    ghost use Rattle.hash_table.specs.Table.{FitsTable};
    ghost use Rattle.hash_table.specs.declared.table.Table.{Table};
    ghost use Rattle.tatp_layout.specs.RecordWords.{AreOfRecord};
    ghost use Rattle.tatp_layout.specs.Records.{HoldsRow, RowForm};

    // How many words the record has, how a row stands in them, and which rows are in range.
    ghost size: { ℕ };

    ghost form: { RowForm Self };

    ghost IsRow: { Self → Type 0 };

    // The row that the record at a word has, whatever its words are.
    ghost row_in: { List ℕ → ℕ → Self };

    // The table in a home of these sizes.
    ghost place: { Sizes → Table };

    /// How many words the record has.
    fn size() -> u64
        ensures { result ≡ size };

    /// Where the table stands in the home.
    fn table(lay: &Layout) -> Table
        ensures table { result ≡ place lay.now }
        ensures fits { FitsTable result (lay.now.pages * PAGE) };

    /// The row that these words give, whatever they are.
    fn of(words: &[u64]) -> Self
        requires { length words.now ≡ size }
        ensures { result ≡ row_in words.now 0 };

    // A record has a key and a link, and eight words at most; the table's records are as long.
    ghost room: { (2 ≤ size) × (size ≤ 8) };

    ghost sized: { (s : Sizes) → (place s).pool.size ≡ size };

    // A record's words give the row that the record has in the array, also where they stand apart from it.
    ghost apart: { (array words : List ℕ) (at : ℕ) → AreOfRecord size array at words
        → row_in words 0 ≡ row_in array at };

    // The words of a row in range give it.
    ghost back: { (array : List ℕ) (at : ℕ) (row : Self) → IsRow row → HoldsRow form array at row
        → row_in array at ≡ row };
}

/// The row of the record at the word `at`.
pub fn get_row<R: RecordRow, W: Words>(lay: &Layout, w: &mut W, at: u64) -> Result<R, Stop>
    requires size { (W.sight w.old).count ≡ lay.now.pages * PAGE }
    requires record { IsRecord (R.place lay.now).pool at }
    ensures { ReadsRow W.sight W.turns_into R.form R.IsRow R.row_in R.size at result w.old w.new }
{
    let table = R::table(lay);
    prove!(table.pool.has(at));
    let size = R::size();
    let words = read_record(w, at, size)?;
    Ok(R::of(&words[..size as usize]))
}

/// The row with this key.
pub fn find_row<R: RecordRow, W: Words>(
    lay: &Layout,
    w: &mut W,
    key: u64,
) -> Result<Option<R>, Stop>
    requires size { (W.sight w.old).count ≡ lay.now.pages * PAGE }
    ensures uses { UsesWords W.sight W.turns_into (walk_reads (R.place lay.now) + (R.size - 1)) 0
        result w.old w.new }
    ensures row { AnswersSeen W.sight result w.old w.new
        (FindsRow R.form R.IsRow (R.place lay.now) key) }
{
    let Some(at) = R::table(lay).find(w, key)? else {
        return Ok(None);
    };
    Ok(Some(get_row(lay, w, at)?))
}
