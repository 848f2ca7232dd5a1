//! The index of a new database: the tree of the subscribers' locations.

ghost use Rattle.dude_base.specs.declared.limits.TheConstants.{PAGE};
ghost use Rattle.std.specs.Prelude.{◌≡◌, ℕ, ◌*◌, ◌≤◌, IfErr, IfOk, OnOk, length, slice_index};
ghost use Rattle.tatp_layout.specs.Layout.{leaf_base};
ghost use Rattle.tatp_rows.specs.Populated.{IsIndexedTo, IsPopulated, IsPopulatedTo, StaysBeforeIndex};
ghost use Rattle.tree_index.specs.Tree.{FitsTree, InsertsAll};
ghost use Rattle.word_space.specs.Flats.{flat_sight, fresh, words_of};

use crate::fill::finish;
use crate::rows::subscriber_row;
use tatp_layout::Layout;
use tatp_layout::index_keys::location_key;
use tree_index::tree::Tree;
use tree_index::tree_put::TreePut;
use word_space::flat::Flat;
use word_space::stop::Stop;

/// Links all records of an index as free ones, where all its words are 0.
pub fn free_index(words: &mut [u64], lay: &Layout)
    requires size { length words.old ≡ lay.now.pages * PAGE }
    requires zeros { (i : ℕ) → leaf_base lay.now ≤ i → slice_index words.old i ≡ 0 }
    ensures index { IsIndexedTo lay.now 0 words.new }
    ensures others { StaysBeforeIndex lay.now words.old words.new }
{
    let Some(tree) = lay.index() else {
        return;
    };
    finish(words, &tree.leaves, 0);
    finish(words, &tree.inner, 0);
}

/// Inserts the keys of all subscribers into an index, in rising order of s_id.
pub fn fill_index(words: Vec<u64>, lay: &Layout) -> Result<Vec<u64>, Stop>
    requires { IsPopulatedTo lay.now 0 words.items }
    ensures populated { IfOk result (λ filled. IsPopulated lay.now filled.items) }
    ensures memory { IfErr result (λ stop. stop ≡ Stop.NoMemory) }
{
    let Some(tree) = lay.index() else {
        return Ok(words);
    };
    let mut flat = Flat::new(words);
    for s in 1..lay.sizes().subscribers + 1 {
        let row = subscriber_row(s);
        insert_alone(&mut flat, &tree, location_key(row.vlr, row.s_id))?;
    }
    Ok(flat.into_words())
}

// Inserts a key, and applies the writes to the array at once.
fn insert_alone(flat: &mut Flat, tree: &Tree, key: u64) -> Result<TreePut, Stop>
    requires fits { FitsTree tree.now (length (words_of flat.old)) }
    requires fresh { flat_sight flat.old ≡ fresh (words_of flat.old) }
    ensures fresh { OnOk result (flat_sight flat.new ≡ fresh (words_of flat.new)) }
    ensures puts { IfOk result (InsertsAll tree.now key (words_of flat.old) (words_of flat.new)) }
    ensures memory { IfErr result (λ stop. stop ≡ Stop.NoMemory) }
{
    let put = tree.insert(flat, key)?;
    let _record = flat.take(0);
    Ok(put)
}
