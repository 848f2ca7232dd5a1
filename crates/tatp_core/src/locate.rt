//! Subscribers are located by the index.

ghost use Rattle.dude_base.specs.declared.limits.TheConstants.{PAGE};
ghost use Rattle.std.specs.Prelude.{◌≡◌, ◌≢◌, ◌<◌, ◌≤◌, ◌*◌, ◌^◌, length, IfOk, IfSome};
ghost use Rattle.tatp_core.specs.Located.{FindsUpTo, LocatesIn, ReadsWords, locate_reads};
ghost use Rattle.tree_index.specs.Tree.{FitsTree};
ghost use Rattle.tree_index.specs.Walk.{next_reads};
ghost use Rattle.word_space.specs.Steps.{AnswersSeen, MadeAtMost, UsesWords};

use std::alloc::Global;
use tatp_layout::Layout;
use tree_index::tree::Tree;
use word_space::stop::Stop;
use word_space::words::Words;

/// Keys of an index from one location to the next.
pub const LOCATION: u64 = 4_294_967_296;

/// The number and the location of each subscriber whose location is from `low` to `high`, by the location and then by
/// the number, the first `limit` of them. They are found by the index of the image. `NoMemory` may also tell that the
/// list wants memory.
pub fn locate_rows<W: Words>(
    alloc: Global,
    lay: &Layout,
    w: &mut W,
    low: u64,
    high: u64,
    limit: u64,
) -> Result<Vec<(u64, u64)>, Stop>
    requires index { lay.now.index ≢ 0 }
    requires size { (W.sight w.old).count ≡ lay.now.pages * PAGE }
    requires low { low < 2 ^ 32 }
    requires high { high < 2 ^ 32 }
    ensures uses { ReadsWords W.sight W.turns_into (locate_reads limit) result w.old w.new }
    ensures few { IfOk result (λ found. MadeAtMost (locate_reads (length found.items)) 0
        (W.sight w.old) (W.sight w.new)) }
    ensures most { IfOk result (λ found. length found.items ≤ limit) }
    ensures located { AnswersSeen W.sight result w.old w.new
        (λ array found. LocatesIn lay.now low high limit array found.items) }
{
    let Some(tree) = lay.index() else {
        unreachable!()
    };
    let last = high * LOCATION + (LOCATION - 1);
    let mut from = low * LOCATION;
    let mut found = Vec::new(alloc);
    for _ in 0..limit {
        let Some(key) = next_up_to(&tree, w, from, last)? else {
            return Ok(found);
        };
        if found.push((key % LOCATION, key / LOCATION)).is_err() {
            return Err(Stop::NoMemory);
        }
        if key == last {
            return Ok(found);
        }
        from = key + 1;
    }
    Ok(found)
}

// The next key from `from` to `last`. In an array that is no lawful tree another key ends the search too.
fn next_up_to<W: Words>(tree: &Tree, w: &mut W, from: u64, last: u64) -> Result<Option<u64>, Stop>
    requires fits { FitsTree tree.now (W.sight w.old).count }
    ensures uses { UsesWords W.sight W.turns_into next_reads 0 result w.old w.new }
    ensures inside { IfOk result (λ r. IfSome r (λ key. (from ≤ key) × (key ≤ last))) }
    ensures next { AnswersSeen W.sight result w.old w.new (FindsUpTo tree.now from last) }
{
    let Some(key) = tree.next(w, from)? else {
        return Ok(None);
    };
    if key < from || key > last {
        return Ok(None);
    }
    Ok(Some(key))
}
