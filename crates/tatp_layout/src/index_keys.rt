//! The keys of subscribers in an index.

ghost use Rattle.std.specs.Prelude.{◌≡◌, ◌+◌, ◌*◌, ◌%◌, ◌^◌};
ghost use Rattle.tatp_layout.specs.Index.{MovesKey};
ghost use Rattle.tree_index.specs.Tree.{FitsTree};
ghost use Rattle.tree_index.specs.Walk.{replace_reads};
ghost use Rattle.word_space.specs.Steps.{ChangesSeen, UsesWords};

use tree_index::tree::Tree;
use word_space::stop::Stop;
use word_space::words::Words;

/// The key of a subscriber: the location in the upper half, the `s_id` in the lower one. Only the lowest
/// 32 bits of each count; in a lawful array it has no more.
pub fn location_key(vlr: u64, s_id: u64) -> u64
    ensures { result ≡ vlr % 2 ^ 32 * 2 ^ 32 + s_id % 2 ^ 32 }
{
    vlr % 4_294_967_296 * 4_294_967_296 + s_id % 4_294_967_296
}

/// Puts the key `to` into a tree in the place of `from`. A key that stays is not looked for.
pub fn move_key<W: Words>(tree: &Tree, w: &mut W, from: u64, to: u64) -> Result<(), Stop>
    requires fits { FitsTree tree.now (W.sight w.old).count }
    ensures uses { UsesWords W.sight W.turns_into replace_reads 6 result w.old w.new }
    ensures moves { ChangesSeen W.sight result w.old w.new (MovesKey tree.now from to) }
{
    if from == to {
        return Ok(());
    }
    tree.replace(w, from, to)
}
