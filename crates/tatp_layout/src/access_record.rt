//! Access rows in their records.

ghost use Rattle.dude_base.specs.declared.limits.TheConstants.{PAGE, ROW_WORDS};
ghost use Rattle.record_heap.specs.Pool.{IsRecord};
ghost use Rattle.std.specs.Prelude.{◌≡◌, ◌*◌};
ghost use Rattle.tatp_layout.specs.Decoding.{access_in};
ghost use Rattle.tatp_layout.specs.Layout.{access_table};
ghost use Rattle.tatp_layout.specs.RecordCalls.{ReadsRow};
ghost use Rattle.tatp_layout.specs.Records.{access_form};
ghost use Rattle.tatp_model.specs.Database.{IsAccessRow};

use crate::digits::digits;
use crate::layout::Layout;
use crate::record_row::{RecordRow, get_row};
use dude_base::limits::ROW_WORDS;
use hash_table::table::Table;
use tatp_model::{AccessData, AccessRow};
use word_space::stop::Stop;
use word_space::words::Words;

impl RecordRow for AccessRow {
    ghost use Rattle.std.proofs.Common.{refl, lit≤};
    ghost use Rattle.tatp_layout.specs.Decoded.{access_apart, access_back};

    ghost size = { ROW_WORDS };

    ghost form = { access_form };

    ghost IsRow = { IsAccessRow };

    ghost row_in = { access_in };

    ghost place = { access_table };

    ghost room = { (lit≤ tt, lit≤ tt) };

    ghost sized = { λ s. refl };

    ghost apart = { λ array words at are. access_apart are };

    ghost back = { λ array at row range held. access_back range held };

    fn size() -> u64 {
        ROW_WORDS
    }

    fn table(lay: &Layout) -> Table {
        lay.access()
    }

    fn of(words: &[u64]) -> AccessRow {
        let [data1, data2, letter1, letter2, letter3] = digits::<5>(256, words[2]);
        AccessRow {
            s_id: words[0] / 4,
            ai_type: words[0] % 4 + 1,
            info: AccessData {
                data1,
                data2,
                data3: [letter1, letter2, letter3],
                data4: digits(256, words[3]),
            },
        }
    }
}

/// The row of the access record at the word `at`.
pub fn get_access<W: Words>(lay: &Layout, w: &mut W, at: u64) -> Result<AccessRow, Stop>
    requires size { (W.sight w.old).count ≡ lay.now.pages * PAGE }
    requires record { IsRecord (access_table lay.now).pool at }
    ensures { ReadsRow W.sight W.turns_into access_form IsAccessRow access_in ROW_WORDS at
        result w.old w.new }
{
    get_row(lay, w, at)
}
