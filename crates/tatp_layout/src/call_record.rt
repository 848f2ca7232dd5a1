//! Call rows in their records.

ghost use Rattle.dude_base.specs.declared.limits.TheConstants.{PAGE, ROW_WORDS};
ghost use Rattle.record_heap.specs.Pool.{IsRecord};
ghost use Rattle.std.specs.Prelude.{◌≡◌, ◌*◌};
ghost use Rattle.tatp_layout.specs.Decoding.{call_in};
ghost use Rattle.tatp_layout.specs.Layout.{call_table};
ghost use Rattle.tatp_layout.specs.RecordCalls.{HoldsCall, ReadsRow, with_call};
ghost use Rattle.tatp_layout.specs.Records.{call_form};
ghost use Rattle.tatp_model.specs.Database.{IsCallRow};
ghost use Rattle.word_space.specs.Steps.{ChangesSeen, Shows, UsesWords, WritesAsMany};

use crate::layout::Layout;
use crate::record_row::{RecordRow, get_row};
use dude_base::limits::ROW_WORDS;
use hash_table::table::Table;
use tatp_model::CallRow;
use word_space::stop::Stop;
use word_space::words::Words;

impl RecordRow for CallRow {
    ghost use Rattle.std.proofs.Common.{refl, lit≤};
    ghost use Rattle.tatp_layout.specs.Decoded.{call_apart, call_back};

    ghost size = { ROW_WORDS };

    ghost form = { call_form };

    ghost IsRow = { IsCallRow };

    ghost row_in = { call_in };

    ghost place = { call_table };

    ghost room = { (lit≤ tt, lit≤ tt) };

    ghost sized = { λ s. refl };

    ghost apart = { λ array words at are. call_apart are };

    ghost back = { λ array at row range held. call_back range held };

    fn size() -> u64 {
        ROW_WORDS
    }

    fn table(lay: &Layout) -> Table {
        lay.calls()
    }

    fn of(words: &[u64]) -> CallRow {
        CallRow {
            s_id: words[0] / 3 / 4,
            sf_type: words[0] / 3 % 4 + 1,
            start_time: words[0] % 3 * 8,
            end_time: words[2],
            numberx: words[3],
        }
    }
}

/// The row of the call row's record at the word `at`.
pub fn get_call<W: Words>(lay: &Layout, w: &mut W, at: u64) -> Result<CallRow, Stop>
    requires size { (W.sight w.old).count ≡ lay.now.pages * PAGE }
    requires record { IsRecord (call_table lay.now).pool at }
    ensures { ReadsRow W.sight W.turns_into call_form IsCallRow call_in ROW_WORDS at
        result w.old w.new }
{
    get_row(lay, w, at)
}

/// Writes the fields of a row into the record at the word `at`, but not its key, which `Table::insert` writes.
pub fn put_call<W: Words>(lay: &Layout, w: &mut W, at: u64, row: &CallRow) -> Result<(), Stop>
    requires size { (W.sight w.old).count ≡ lay.now.pages * PAGE }
    requires record { IsRecord (call_table lay.now).pool at }
    requires range { IsCallRow row.now }
    ensures uses { UsesWords W.sight W.turns_into 0 2 result w.old w.new }
    ensures wrote { WritesAsMany W.sight result w.old w.new (λ done. 2) }
    ensures shown { Shows W.sight result w.old w.new (with_call at row.now) }
    ensures holds { ChangesSeen W.sight result w.old w.new (HoldsCall at row.now) }
{
    prove!(lay.calls().pool.has(at));
    w.write(at + 2, row.end_time)?;
    w.write(at + 3, row.numberx)?;
    Ok(())
}
