//! What a commit answers, and what it makes of its pass's numbers.

ghost use Rattle.std.specs.Prelude.{◌≡◌, ◌<◌, MatchResult};
ghost use Rattle.stm_transactions.specs.CommitEnds.{has_writes};
ghost use Rattle.stm_transactions.specs.Counts.{IsDoneWith, IsErrWith, after_commit};

use crate::lost::Lost;
use crate::pass_numbers::PassNumbers;
use core_table::served::Served;
use dude_base::write_list::WriteList;
use tatp_model::done::Done;

/// Whether there are writes.
pub fn has_any(writes: &WriteList) -> bool
    ensures { result ≡ has_writes writes.now }
{
    writes.len() > 0
}

/// The numbers after a commit that was answered so; `wrote` says whether there were writes, and each thread has so many boxes.
pub fn count_commit(
    numbers: PassNumbers,
    wrote: bool,
    answer: &Result<u64, Lost>,
    boxes: u64,
) -> PassNumbers
    requires { numbers.next < boxes }
    ensures { result ≡ after_commit wrote answer.now boxes numbers }
{
    match answer {
        Ok(number) if wrote => numbers.draw(*number, boxes).enter(*number),
        Ok(number) => numbers.enter(*number),
        Err(Lost::Conflict { number, .. }) => numbers.draw(*number, boxes).refuse(1),
        Err(_) => numbers.refuse(1),
    }
}

/// What is answered for this request, with the number that was drawn or read.
pub fn done_of(served: &Served, wrote: bool, answer: &Result<u64, Lost>) -> Result<Done, Lost>
    ensures { MatchResult result (IsDoneWith served.now wrote answer.now) (IsErrWith answer.now) }
{
    match answer {
        Ok(number) => Ok(Done {
            file: served.file,
            index: served.index,
            number: *number,
            wrote,
            request: *served.request,
            reply: *served.reply,
        }),
        Err(lost) => Err(*lost),
    }
}
