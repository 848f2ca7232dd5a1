//! Subscribers in their records.

ghost use Rattle.dude_base.specs.declared.limits.TheConstants.{PAGE, SUBSCRIBER_WORDS};
ghost use Rattle.record_heap.specs.Pool.{IsRecord};
ghost use Rattle.std.specs.Prelude.{◌≡◌, ◌≢◌, ◌+◌, ◌*◌, [], OnOk, slice_set};
ghost use Rattle.tatp_layout.specs.Decoding.{subscriber_in};
ghost use Rattle.tatp_layout.specs.Layout.{subscriber_table};
ghost use Rattle.tatp_layout.specs.RecordCalls.{ChangesField, MovesLocation, ReadsRow, SetsBit1, SetsVlr, location_reads, location_writes};
ghost use Rattle.tatp_layout.specs.Records.{subscriber_form};
ghost use Rattle.tatp_model.specs.Database.{IsSubRow};
ghost use Rattle.tatp_model.specs.Ranges.{IsBit, IsLocation};
ghost use Rattle.word_space.specs.Steps.{ChangesSeen, Shows, UsesWords};

use crate::digits::digits;
use crate::index_keys::{location_key, move_key};
use crate::layout::Layout;
use crate::record_row::{RecordRow, get_row};
use dude_base::limits::SUBSCRIBER_WORDS;
use hash_table::table::Table;
use tatp_model::SubRow;
use word_space::stop::Stop;
use word_space::words::Words;

impl RecordRow for SubRow {
    ghost use Rattle.std.proofs.Common.{refl, lit≤};
    ghost use Rattle.tatp_layout.specs.Decoded.{subscriber_apart, subscriber_back};

    ghost size = { SUBSCRIBER_WORDS };

    ghost form = { subscriber_form };

    ghost IsRow = { IsSubRow };

    ghost row_in = { subscriber_in };

    ghost place = { subscriber_table };

    ghost room = { (lit≤ tt, lit≤ tt) };

    ghost sized = { λ s. refl };

    ghost apart = { λ array words at are. subscriber_apart are };

    ghost back = { λ array at row range held. subscriber_back range held };

    fn size() -> u64 {
        SUBSCRIBER_WORDS
    }

    fn table(lay: &Layout) -> Table {
        lay.subscribers()
    }

    fn of(words: &[u64]) -> SubRow {
        let [b1, b2, b3, b4, b5, b6, b7, b8] = digits::<8>(256, words[3]);
        let [b9, b10] = digits::<2>(256, words[4]);
        SubRow {
            s_id: words[0],
            sub_nbr: words[7],
            bits: digits(2, words[2]),
            hexes: digits(16, words[2] / 1_024),
            bytes: [b1, b2, b3, b4, b5, b6, b7, b8, b9, b10],
            msc: words[5],
            vlr: words[6],
        }
    }
}

/// The row of the subscriber's record at the word `at`.
pub fn get_sub<W: Words>(lay: &Layout, w: &mut W, at: u64) -> Result<SubRow, Stop>
    requires size { (W.sight w.old).count ≡ lay.now.pages * PAGE }
    requires record { IsRecord (subscriber_table lay.now).pool at }
    ensures { ReadsRow W.sight W.turns_into subscriber_form IsSubRow subscriber_in
        SUBSCRIBER_WORDS at
        result w.old w.new }
{
    get_row(lay, w, at)
}

/// Changes the location of the subscriber whose record stands at the word `at`, and its key in the index
/// where there is one.
pub fn put_vlr<W: Words>(lay: &Layout, w: &mut W, at: u64, vlr: u64) -> Result<(), Stop>
    requires size { (W.sight w.old).count ≡ lay.now.pages * PAGE }
    requires record { IsRecord (subscriber_table lay.now).pool at }
    requires range { IsLocation vlr }
    ensures uses { UsesWords W.sight W.turns_into (location_reads lay.now) (location_writes lay.now)
        result w.old w.new }
    ensures wrote { OnOk result ((W.sight w.new).writes ≢ []) }
    ensures moves { ChangesSeen W.sight result w.old w.new (MovesLocation lay.now at vlr) }
    ensures shown { lay.now.index ≡ 0 →
        Shows W.sight result w.old w.new (λ seen. slice_set seen (at + 6) vlr) }
    ensures holds { lay.now.index ≡ 0 → ChangesSeen W.sight result w.old w.new (SetsVlr at vlr) }
{
    prove!(lay.subscribers().pool.has(at));
    let Some(tree) = lay.index() else {
        w.write(at + 6, vlr)?;
        return Ok(());
    };
    let s_id = w.read(at)?;
    let was = w.read(at + 6)?;
    w.write(at + 6, vlr)?;
    move_key(&tree, w, location_key(was, s_id), location_key(vlr, s_id))
}

/// Changes `bit_1` of the subscriber whose record stands at the word `at`.
pub fn put_bit1<W: Words>(lay: &Layout, w: &mut W, at: u64, bit: u64) -> Result<(), Stop>
    requires size { (W.sight w.old).count ≡ lay.now.pages * PAGE }
    requires record { IsRecord (subscriber_table lay.now).pool at }
    requires range { IsBit bit }
    ensures { ChangesField W.sight W.turns_into (at + 2) (SetsBit1 at bit) result w.old w.new }
{
    prove!(lay.subscribers().pool.has(at));
    let word = w.read(at + 2)?;
    w.write(at + 2, word / 2 * 2 + bit)?;
    Ok(())
}
