//! The words of a record are read, but for its link.

ghost use Rattle.std.specs.Prelude.{◌+◌, ◌-◌, ◌≤◌, take};
ghost use Rattle.tatp_layout.specs.RecordWords.{AreOfRecord};
ghost use Rattle.word_space.specs.Steps.{AnswersSeen, UsesWords};

use word_space::stop::Stop;
use word_space::words::Words;

// The words of the record at this one, behind which the rest is 0. Its link is not read, so that a change of a chain is no
// change of a row.
pub(crate) fn read_record<W: Words>(w: &mut W, at: u64, count: u64) -> Result<[u64; 8], Stop>
    requires wide { 2 ≤ count }
    requires few { count ≤ 8 }
    requires inside { at + count ≤ (W.sight w.old).count }
    ensures uses { UsesWords W.sight W.turns_into (count - 1) 0 result w.old w.new }
    ensures words { AnswersSeen W.sight result w.old w.new
        (λ a words. AreOfRecord count a at (take count words)) }
{
    let mut words = [0; 8];
    words[0] = w.read(at)?;
    for k in 2..count {
        words[k as usize] = w.read(at + k)?;
    }
    Ok(words)
}
