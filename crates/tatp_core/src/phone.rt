//! The id of the subscriber with a phone number.

ghost use Rattle.dude_base.specs.declared.limits.TheConstants.{PAGE};
ghost use Rattle.std.specs.Prelude.{◌≡◌, ◌↔◌, ◌*◌, IfOk, IfSome, IsTrue};
ghost use Rattle.tatp_core.specs.Phones.{FindsId, id_reads};
ghost use Rattle.tatp_model.specs.Ranges.{IsId};
ghost use Rattle.word_space.specs.Steps.{AnswersSeen, UsesWords};

use tatp_layout::Layout;
use word_space::stop::Stop;
use word_space::words::Words;

/// The id of the subscriber with this phone number. In an array that stands for no tables the word
/// that is read may be no id; then there is none.
pub fn id_of<W: Words>(lay: &Layout, w: &mut W, sub_nbr: u64) -> Result<Option<u64>, Stop>
    requires size { (W.sight w.old).count ≡ lay.now.pages * PAGE }
    ensures uses { UsesWords W.sight W.turns_into (id_reads lay.now) 0 result w.old w.new }
    ensures range { IfOk result (λ r. IfSome r IsId) }
    ensures id { AnswersSeen W.sight result w.old w.new (FindsId lay.now sub_nbr) }
{
    let Some(number) = lay.numbers().find(w, sub_nbr)? else {
        return Ok(None);
    };
    let s_id = w.read(number + 2)?;
    if !is_id(s_id) {
        return Ok(None);
    }
    Ok(Some(s_id))
}

fn is_id(n: u64) -> bool
    ensures { IsTrue result ↔ IsId n }
{
    0 < n && n <= u64::from(u32::MAX)
}
