//! Writes that are made together: puts, flushes of their lines, and a fence.

ghost use Rattle.pmem_trait.specs.Groups.{put_pairs, flush_lines, fence_calls, group_calls, PlacesFit, LinesFit, MixesAtEveryMoment, Settles};
ghost use Rattle.pmem_trait.specs.Sights.{Makes};
ghost use Rattle.std.specs.Prelude.{◌≡◌, OnOk};

use crate::failed::Failed;
use crate::medium::Medium;

/// Puts each value in its word, in order. A pair is a word and a value. After an `Err` the puts before the failed one
/// were made, and that one may have been.
pub fn put_all<M: Medium>(m: &mut M, writes: &[(u64, u64)]) -> Result<(), Failed>
    requires { PlacesFit (M.sight m.old).len writes.now }
    ensures len { (M.sight m.new).len ≡ (M.sight m.old).len }
    ensures made { Makes (put_pairs writes.now) result (M.sight m.old) (M.sight m.new) }
{
    for &(at, value) in writes {
        m.put(at, value)?;
    }
    Ok(())
}

/// Flushes each line, in order. After an `Err` the flushes before the failed one were made, and that one may have been,
/// for each word by itself.
pub fn flush_all<M: Medium>(m: &mut M, lines: &[u64]) -> Result<(), Failed>
    requires { LinesFit (M.sight m.old).len lines.now }
    ensures len { (M.sight m.new).len ≡ (M.sight m.old).len }
    ensures made { Makes (flush_lines lines.now) result (M.sight m.old) (M.sight m.new) }
{
    for line in lines {
        m.flush(*line)?;
    }
    Ok(())
}

// Flushes each line, and fences.
#[tactic(auto, using(crate::proofs::Runs::making))]
fn fence_lines<M: Medium>(m: &mut M, lines: &[u64]) -> Result<(), Failed>
    requires { LinesFit (M.sight m.old).len lines.now }
    ensures len { (M.sight m.new).len ≡ (M.sight m.old).len }
    ensures made { Makes (fence_calls lines.now) result (M.sight m.old) (M.sight m.new) }
{
    flush_all(m, lines)?;
    m.fence()
}

// The calls of `settle_group`.
#[tactic(auto, using(crate::proofs::Runs::making), unfolding(crate::specs::Groups::group_calls))]
fn make_group<M: Medium>(m: &mut M, writes: &[(u64, u64)], lines: &[u64]) -> Result<(), Failed>
    requires places { PlacesFit (M.sight m.old).len writes.now }
    requires whole { LinesFit (M.sight m.old).len lines.now }
    ensures len { (M.sight m.new).len ≡ (M.sight m.old).len }
    ensures made { Makes (group_calls writes.now lines.now) result (M.sight m.old) (M.sight m.new) }
{
    put_all(m, writes)?;
    fence_lines(m, lines)
}

/// Makes a group of writes: puts each value in its word, flushes these lines, and fences.
///
/// A crash on the way leaves a mix: each word as it was, or as some write has it. At `Ok` every word whose line was
/// flushed is settled, at the last value written there or at the one that it had. Let `lines` name the line of each
/// word written, `at / 8`.
pub fn settle_group<M: Medium>(
    m: &mut M,
    writes: &[(u64, u64)],
    lines: &[u64],
) -> Result<(), Failed>
    requires places { PlacesFit (M.sight m.old).len writes.now }
    requires whole { LinesFit (M.sight m.old).len lines.now }
    ensures len { (M.sight m.new).len ≡ (M.sight m.old).len }
    ensures made { Makes (group_calls writes.now lines.now) result (M.sight m.old) (M.sight m.new) }
    ensures mix { MixesAtEveryMoment writes.now (M.sight m.old) (M.sight m.new) }
    ensures settles { OnOk result (Settles writes.now lines.now (M.sight m.old) (M.sight m.new)) }
{
    make_group(m, writes, lines)
}
