//! A tree is walked through, depth first, and then its two pools are checked; the first wrong word is named.

ghost use Rattle.record_heap.specs.Pool.{IsRecord};
ghost use Rattle.std.specs.List.Sorted.{IsNonDecreasing};
ghost use Rattle.std.specs.Prelude.{◌≡◌, ◌<◌, ◌↔◌, Contains, IfErr, IfOk, IsTrue, OnOk, length, slice_index};
ghost use Rattle.tatp_check.specs.Faults.{IsCause};
ghost use Rattle.tatp_check.specs.TreeFaults.{IsWrongInTree, IsWrongOnWalk, IsWrongTree};
ghost use Rattle.tatp_check.specs.TreeSeen.{GoesDown, HasMetNone, KeepsTree, KnowsNext, KnowsTree, KnowsTurns, MeetsMore, RefusesFork};
ghost use Rattle.tatp_check.specs.TreeWalk.{IsBareTree};
ghost use Rattle.tree_index.specs.Tree.{FitsTree};

use crate::check_fault::CheckFault;
use crate::pool_walk::check_pool;
use crate::taken::Taken;
use crate::tree_seen::{TreeSeen, bit_limit, goes_by_turns, turn_back};
use std::alloc::Global;
use tree_index::tree::Tree;

/// Walks through a tree whose leaves may have these keys, which rise, and checks its two pools; gives its leaves.
///
/// It refuses the array where something is wrong in the tree, and names the first such word.
pub fn check_tree(alloc: Global, tree: &Tree, keys: &[u64], a: &[u64]) -> Result<Taken, CheckFault>
    requires fits { FitsTree tree.now (length a.now) }
    requires rising { IsNonDecreasing keys.now }
    ensures whole { IfOk result (KeepsTree tree.now a.now keys.now) }
    ensures fault { IfErr result (IsCause (IsWrongTree tree.now a.now keys.now)) }
{
    let mut seen = TreeSeen::new(alloc, tree)?;
    walk_tree(tree, keys, a, &mut seen)?;
    check_pool(
        &tree.leaves,
        seen.leaves.taken.records(),
        &mut seen.leaves.marks,
        a,
    )?;
    check_pool(&tree.inner, seen.forks.as_slice(), &mut seen.inner, a)?;
    Ok(seen.leaves.taken)
}

// Walks from the root to the last leaf.
fn walk_tree(tree: &Tree, keys: &[u64], a: &[u64], seen: &mut TreeSeen) -> Result<(), CheckFault>
    requires fits { FitsTree tree.now (length a.now) }
    requires rising { IsNonDecreasing keys.now }
    requires none { HasMetNone tree.now seen.old }
    ensures knows { OnOk result (KnowsTree tree.now a.now keys.now seen.new) }
    ensures fault { IfErr result (IsCause (IsWrongInTree tree.now a.now keys.now)) }
{
    if is_bare(tree, keys, a) {
        return Ok(());
    }
    let mut next = Some(tree.root);
    while let Some(slot) = next {
        next = follow(tree, keys, a, slot, seen)?;
    }
    Ok(())
}

// Whether there is no tree where there is no key.
fn is_bare(tree: &Tree, keys: &[u64], a: &[u64]) -> bool
    requires fits { FitsTree tree.now (length a.now) }
    ensures { IsTrue result ↔ IsBareTree tree.now a.now keys.now }
{
    a[tree.root as usize] == 0 && keys.is_empty()
}

// Takes in what the word links, an inner record or a leaf, and answers which word comes next, if one does.
fn follow(
    tree: &Tree,
    keys: &[u64],
    a: &[u64],
    slot: u64,
    seen: &mut TreeSeen,
) -> Result<Option<u64>, CheckFault>
    requires fits { FitsTree tree.now (length a.now) }
    requires rising { IsNonDecreasing keys.now }
    requires knows { KnowsTurns tree.now a.now keys.now slot seen.old }
    ensures knows { IfOk result (KnowsNext tree.now a.now keys.now seen.new) }
    ensures more { OnOk result (MeetsMore seen.old seen.new) }
    ensures fault { IfErr result (IsCause (IsWrongOnWalk tree.now a.now keys.now)) }
{
    let at = a[slot as usize];
    if tree.inner.has(at) {
        let zeros = go_down(tree, a, slot, seen)?;
        return Ok(Some(zeros));
    }
    if !seen.leaves.marks.meet(&tree.leaves, at) {
        return Err(CheckFault::NotDb { word: slot });
    }
    let key = a[at as usize];
    if !is_known(keys, key) {
        return Err(CheckFault::NotDb { word: at });
    }
    if !goes_by_turns(seen.above.as_slice(), key) {
        return Err(CheckFault::NotDb { word: at });
    }
    seen.leaves.taken.take(at, key)?;
    let next = turn_back(&mut seen.above, key)?;
    Ok(next)
}

// Takes in the inner record that the word links, and answers the word that links its zeros.
fn go_down(tree: &Tree, a: &[u64], slot: u64, seen: &mut TreeSeen) -> Result<u64, CheckFault>
    requires fits { FitsTree tree.now (length a.now) }
    requires slot { slot < length a.now }
    requires place { IsRecord tree.now.inner (slice_index a.now slot) }
    requires count { length seen.old.inner.marks.items ≡ tree.now.inner.count }
    ensures down { GoesDown tree.now a.now slot seen.old result seen.new }
    ensures more { OnOk result (MeetsMore seen.old seen.new) }
    ensures fault { RefusesFork tree.now a.now slot seen.old result }
{
    let at = a[slot as usize];
    if !seen.inner.meet(&tree.inner, at) {
        return Err(CheckFault::NotDb { word: slot });
    }
    let bit = a[at as usize];
    if bit >= bit_limit(seen.above.as_slice()) {
        return Err(CheckFault::NotDb { word: at });
    }
    seen.open_fork(at, bit)?;
    Ok(at + 2)
}

// Whether the key is one of these.
fn is_known(keys: &[u64], key: u64) -> bool
    requires rising { IsNonDecreasing keys.now }
    ensures { IsTrue result ↔ Contains keys.now key }
{
    keys.binary_search(&key).is_ok()
}
