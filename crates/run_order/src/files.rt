//! The order of files.

ghost use Rattle.run_order.specs.Runs.{StandApart};
ghost use Rattle.std.specs.Prelude.{◌≡◌, AllPairs, IsPermutation, vec_capacity};
ghost use Rattle.tatp_model.specs.OneThread.{PrecedesInFiles};

use tatp_model::Done;

/// Puts what is done in order of file and index. It takes no memory.
pub fn put_in_files(done: &mut Vec<Done>)
    ensures same { IsPermutation done.old.items done.new.items }
    ensures sorted { AllPairs StandApart done.old.items → AllPairs PrecedesInFiles done.new.items }
    ensures capacity { vec_capacity done.new ≡ vec_capacity done.old }
{
    done.sort_unstable_by_key(|d| (d.file, d.index));
}
