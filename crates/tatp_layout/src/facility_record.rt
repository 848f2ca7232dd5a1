//! Facilities in their records.

ghost use Rattle.dude_base.specs.declared.limits.TheConstants.{PAGE, ROW_WORDS};
ghost use Rattle.record_heap.specs.Pool.{IsRecord};
ghost use Rattle.std.specs.Prelude.{◌≡◌, ◌*◌, ◌+◌};
ghost use Rattle.tatp_layout.specs.Decoding.{facility_in};
ghost use Rattle.tatp_layout.specs.Layout.{facility_table};
ghost use Rattle.tatp_layout.specs.RecordCalls.{ChangesField, ReadsRow, SetsDataA};
ghost use Rattle.tatp_layout.specs.Records.{facility_form};
ghost use Rattle.tatp_model.specs.Database.{IsFacRow};
ghost use Rattle.tatp_model.specs.Ranges.{IsByte};

use crate::digits::digits;
use crate::layout::Layout;
use crate::record_row::{RecordRow, get_row};
use dude_base::limits::ROW_WORDS;
use hash_table::table::Table;
use tatp_model::FacRow;
use word_space::stop::Stop;
use word_space::words::Words;

impl RecordRow for FacRow {
    ghost use Rattle.std.proofs.Common.{refl, lit≤};
    ghost use Rattle.tatp_layout.specs.Decoded.{facility_apart, facility_back};

    ghost size = { ROW_WORDS };

    ghost form = { facility_form };

    ghost IsRow = { IsFacRow };

    ghost row_in = { facility_in };

    ghost place = { facility_table };

    ghost room = { (lit≤ tt, lit≤ tt) };

    ghost sized = { λ s. refl };

    ghost apart = { λ array words at are. facility_apart are };

    ghost back = { λ array at row range held. facility_back range held };

    fn size() -> u64 {
        ROW_WORDS
    }

    fn table(lay: &Layout) -> Table {
        lay.facilities()
    }

    fn of(words: &[u64]) -> FacRow {
        let [is_active, error_cntrl, data_a] = digits::<3>(256, words[2]);
        FacRow {
            s_id: words[0] / 4,
            sf_type: words[0] % 4 + 1,
            is_active,
            error_cntrl,
            data_a,
            data_b: digits(256, words[3]),
        }
    }
}

/// The row of the facility's record at the word `at`.
pub fn get_fac<W: Words>(lay: &Layout, w: &mut W, at: u64) -> Result<FacRow, Stop>
    requires size { (W.sight w.old).count ≡ lay.now.pages * PAGE }
    requires record { IsRecord (facility_table lay.now).pool at }
    ensures { ReadsRow W.sight W.turns_into facility_form IsFacRow facility_in ROW_WORDS at
        result w.old w.new }
{
    get_row(lay, w, at)
}

/// Changes `data_a` of the facility whose record stands at the word `at`.
pub fn put_data_a<W: Words>(lay: &Layout, w: &mut W, at: u64, value: u64) -> Result<(), Stop>
    requires size { (W.sight w.old).count ≡ lay.now.pages * PAGE }
    requires record { IsRecord (facility_table lay.now).pool at }
    requires range { IsByte value }
    ensures { ChangesField W.sight W.turns_into (at + 2) (SetsDataA at value) result w.old w.new }
{
    prove!(lay.facilities().pool.has(at));
    let word = w.read(at + 2)?;
    w.write(
        at + 2,
        word / 16_777_216 * 16_777_216 + value * 65_536 + word % 65_536,
    )?;
    Ok(())
}
