//! Calls of a tree, and many of them beside those of an ordered set.

ghost use Rattle.home_runs.specs.Stoppings.{stopping_sight};
ghost use Rattle.home_runs.specs.declared.trees.TheConstants.{TREE};
ghost use Rattle.std.specs.Prelude.{◌+◌, ◌*◌, ◌≤◌};
ghost use Rattle.tree_index.specs.Tree.{FitsTree};
ghost use Rattle.word_space.specs.Flats.{flat_sight};

use crate::calls::Answer;
use crate::page::Page;
use crate::stopping::Stopping;
use record_heap::pool::Pool;
use std::alloc::{AllocError, Global};
use std::collections::BTreeSet;
use tree_index::tree::Tree;
use tree_index::tree_put::TreePut;
use word_space::flat::Flat;
use word_space::stop::Stop;
use word_space::words::Words;

/// A tree of two leaves and two inner records, in 32 words.
const TREE: Tree = Tree {
    leaves: Pool {
        base: 0,
        first: 8,
        size: 4,
        count: 2,
    },
    inner: Pool {
        base: 16,
        first: 24,
        size: 4,
        count: 2,
    },
    root: 2,
};

/// Makes a call of the tree with a key.
pub fn take_tree_call(words: &mut Stopping, name: &str, key: u64) -> Result<Answer, Stop>
    requires { FitsTree TREE (stopping_sight words.old).count }
{
    match name {
        "put" => Ok((put_text(TREE.insert(words, key)?), None)),
        "drop" => {
            let was = TREE.remove(words, key)?;
            Ok((if was { "removed" } else { "not there" }, None))
        }
        "next" => match TREE.next(words, key)? {
            Some(next) => Ok(("key", Some(next))),
            None => Ok(("none", None)),
        },
        _ => Ok(("no command", None)),
    }
}

/// Puts a key of the tree in the place of another one.
pub fn move_key(words: &mut Stopping, from: u64, to: u64) -> Result<Answer, Stop>
    requires { FitsTree TREE (stopping_sight words.old).count }
{
    TREE.replace(words, from, to)?;
    Ok(("moved", None))
}

/// What became of a key.
fn put_text(put: TreePut) -> &'static str {
    match put {
        TreePut::There => "there",
        TreePut::Full => "full",
        TreePut::Stored => "stored",
    }
}

/// A tree of so many leaves and inner records, one pool behind the other.
fn tree_of(count: u64) -> Tree
    requires { count ≤ 1000 }
    ensures { FitsTree result (16 + 8 * count) }
{
    Tree {
        leaves: Pool {
            base: 0,
            first: 8,
            size: 4,
            count,
        },
        inner: Pool {
            base: 8 + 4 * count,
            first: 16 + 4 * count,
            size: 4,
            count,
        },
        root: 2,
    }
}

/// Links all records of a pool as free ones, in their order.
fn free_all(words: &mut [u64], pool: Pool) {
    let mut link = pool.base;
    let mut at = pool.first;
    for _ in 0..pool.count {
        if let Some(word) = words.get_mut(link as usize) {
            *word = at;
        }
        link = at.saturating_add(1);
        at = at.saturating_add(pool.size);
    }
}

/// Makes this many calls of an empty tree of so many leaves, with random keys, and the same of an ordered set. Prints the count
/// of calls up to the first one whose answers differ, or how many there were of each answer.
pub fn say_tree_calls(alloc: Global, leaves: u64, seed: u64, calls: u64, page: &mut Page) {
    if leaves > 1000 {
        return page.line("no command");
    }
    let tree = tree_of(leaves);
    let Ok(mut words) = vec![in alloc; 0; (16 + 8 * leaves) as usize] else {
        return page.cut();
    };
    free_all(&mut words, tree.leaves);
    free_all(&mut words, tree.inner);
    match compare_calls(alloc, &tree, 16 + 8 * leaves, Flat::new(words), seed, calls) {
        Ok(Ok(counts)) => page.numbers("as an ordered set", &counts),
        Ok(Err(call)) => page.numbers("otherwise in call", &[call]),
        Err(_) => page.cut(),
    }
}

/// How often a key was stored, there, without room, removed, not there, found, not found and replaced; or the call whose answers
/// differ.
fn compare_calls(
    alloc: Global,
    tree: &Tree,
    size: u64,
    words: Flat,
    seed: u64,
    calls: u64,
) -> Result<Result<[u64; 8], u64>, AllocError>
    requires { FitsTree tree.now size }
{
    let mut words = words;
    let mut keys = BTreeSet::new(alloc);
    let mut counts = [0u64; 8];
    let mut random = seed;
    for call in 0..calls {
        random = next_random(random);
        let Some(place) = compare_call(tree, size, &mut words, &mut keys, random)? else {
            return Ok(Err(call));
        };
        if place < 8 {
            counts[place as usize] = counts[place as usize].wrapping_add(1);
        }
        let _record = words.take(call);
    }
    Ok(Ok(counts))
}

/// The place of the count of what the tree and the set answer to a call. None where they differ.
fn compare_call(
    tree: &Tree,
    size: u64,
    words: &mut Flat,
    keys: &mut BTreeSet<u64>,
    random: u64,
) -> Result<Option<u64>, AllocError>
    requires { FitsTree tree.now size }
{
    let key = random_key(random);
    let kind = random >> 40 & 3;
    if kind == 3 {
        let other = random_key(next_random(random));
        return replace_in_both(tree, size, words, keys, key, other);
    }
    let Some(answer) = call_sized(tree, size, words, kind, key) else {
        return Ok(None);
    };
    if call_set(keys, tree.leaves.count, kind, key)? != answer {
        return Ok(None);
    }
    Ok(Some(answer.0))
}

/// Puts one key in the place of another, where that one is there and this one isn't. Answers a place behind all counts where
/// it isn't so, and None where the tree stops.
fn replace_in_both(
    tree: &Tree,
    size: u64,
    words: &mut Flat,
    keys: &mut BTreeSet<u64>,
    from: u64,
    to: u64,
) -> Result<Option<u64>, AllocError>
    requires { FitsTree tree.now size }
{
    if !keys.contains(&from) || keys.contains(&to) {
        return Ok(Some(8));
    }
    if words.len() != size || tree.replace(words, from, to).is_err() {
        return Ok(None);
    }
    keys.remove(&from);
    keys.insert(to)?;
    Ok(Some(7))
}

/// Another number, by three shifts.
fn next_random(seed: u64) -> u64 {
    let first = seed ^ seed << 13;
    let second = first ^ first >> 7;
    second ^ second << 17
}

/// One of some 350 keys: low, high, or alike but in their highest, or middle and lowest bits.
fn random_key(random: u64) -> u64 {
    match random >> 8 & 3 {
        0 => random >> 58,
        1 => random >> 60 << 60 | random & 7,
        2 => u64::MAX - (random >> 59),
        _ => random >> 59 << 32 | random & 3,
    }
}

/// Makes a call of this kind, where the words are of this size.
fn call_sized(tree: &Tree, size: u64, words: &mut Flat, kind: u64, key: u64) -> Option<(u64, u64)>
    requires { FitsTree tree.now size }
{
    if words.len() == size {
        call_tree(tree, words, kind, key)
    } else {
        None
    }
}

/// What the tree answers to a call of this kind, as the place of its count and a key. None where it stops.
fn call_tree(tree: &Tree, words: &mut Flat, kind: u64, key: u64) -> Option<(u64, u64)>
    requires { FitsTree tree.now (flat_sight words.old).count }
{
    match kind {
        0 => match tree.insert(words, key).ok()? {
            TreePut::Stored => Some((0, 0)),
            TreePut::There => Some((1, 0)),
            TreePut::Full => Some((2, 0)),
        },
        1 => match tree.remove(words, key).ok()? {
            true => Some((3, 0)),
            false => Some((4, 0)),
        },
        _ => match tree.next(words, key).ok()? {
            Some(next) => Some((5, next)),
            None => Some((6, 0)),
        },
    }
}

/// What the set answers, where it has room for so many keys.
fn call_set(
    keys: &mut BTreeSet<u64>,
    room: u64,
    kind: u64,
    key: u64,
) -> Result<(u64, u64), AllocError> {
    match kind {
        0 if keys.contains(&key) => Ok((1, 0)),
        0 if keys.len() as u64 == room => Ok((2, 0)),
        0 => {
            keys.insert(key)?;
            Ok((0, 0))
        }
        1 if keys.remove(&key) => Ok((3, 0)),
        1 => Ok((4, 0)),
        _ => match keys.range(key..).next() {
            Some(next) => Ok((5, *next)),
            None => Ok((6, 0)),
        },
    }
}
