//! What threads did and what was done behind them, together.

ghost use Rattle.run_order.specs.Rests.{shifted};
ghost use Rattle.run_order.specs.Runs.{StandApart};
ghost use Rattle.run_threads.specs.Parts.{IsCounted};
ghost use Rattle.std.specs.Prelude.{◌≡◌, ◌++◌, ◌+◌, ◌≤◌, All, AllPairs, IsPermutation, length, map, slice_index, vec_capacity, vec_len};
ghost use Rattle.tatp_model.specs.OneThread.{PrecedesInFiles};

use run_order::put_in_files;
use tatp_model::Done;

/// Adds what was done of the rests of files, at its indices in the whole files, and puts all in order of file and index. There
/// is room for it.
pub(crate) fn unite(done: &mut Vec<Done>, behind: &[Done], counts: &[u64])
    requires room { vec_len done.old + length behind.now ≤ vec_capacity done.old }
    requires counted { All (IsCounted counts.now) behind.now }
    ensures same { IsPermutation
        (done.old.items ++ map (shifted (slice_index counts.now)) behind.now) done.new.items }
    ensures sorted { AllPairs StandApart
        (done.old.items ++ map (shifted (slice_index counts.now)) behind.now)
        → AllPairs PrecedesInFiles done.new.items }
{
    append(done, behind, counts);
    put_in_files(done);
}

/// Adds these, at their indices in the whole files.
fn append(done: &mut Vec<Done>, behind: &[Done], counts: &[u64])
    requires room { vec_len done.old + length behind.now ≤ vec_capacity done.old }
    requires counted { All (IsCounted counts.now) behind.now }
    ensures { done.new.items
        ≡ done.old.items ++ map (shifted (slice_index counts.now)) behind.now }
{
    for d in behind {
        let index = counts[d.file as usize] + d.index;
        done.push_reserved(Done { index, ..*d });
    }
}
