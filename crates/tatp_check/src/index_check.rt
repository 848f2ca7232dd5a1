//! The check of an index: its tree has the keys of the subscribers by location, or its first wrong word is named.

ghost use Rattle.dude_base.specs.declared.limits.TheConstants.{PAGE};
ghost use Rattle.std.specs.Prelude.{◌≡◌, ◌*◌, All, IfErr, IfOk, OnOk, length};
ghost use Rattle.tatp_check.specs.Faults.{IsCause};
ghost use Rattle.tatp_check.specs.IndexFaults.{FindsLeafless, HasSmallKey, IsWholeIndex, IsWrongIndex, IsWrongWhere, StandsWhere, TestsLeaf, location_keys};
ghost use Rattle.tatp_check.specs.Walked.{AreWalked, records_of_kind};
ghost use Rattle.tatp_check.specs.declared.table_kind.TableKind.TheVariants.{Subscribers};
ghost use Rattle.tatp_layout.specs.Decoding.{subscriber_in};
ghost use Rattle.tatp_layout.specs.Index.{location_key};
ghost use Rattle.tree_index.specs.Tree.{FitsTree};

use crate::check_fault::CheckFault;
use crate::taken::Taken;
use crate::tree_walk::check_tree;
use crate::walked::Walked;
use std::alloc::{AllocError, Global};
use tatp_layout::Layout;
use tatp_layout::index_keys::location_key;
use tree_index::tree::Tree;

/// Checks the index of an array whose tables were walked, where its sizes have one.
///
/// It refuses the array where something is wrong in the index, and names the first such word.
pub(crate) fn check_index(
    alloc: Global,
    lay: &Layout,
    a: &[u64],
    walked: &Walked,
) -> Result<(), CheckFault>
    requires size { length a.now ≡ lay.now.pages * PAGE }
    requires walked { AreWalked lay.now a.now walked.now }
    ensures ok { OnOk result (StandsWhere lay.now a.now
        (records_of_kind walked.now Subscribers)) }
    ensures fault { IfErr result (IsCause (IsWrongWhere lay.now a.now
        (records_of_kind walked.now Subscribers))) }
{
    match lay.index() {
        Some(tree) => check_keys(alloc, &tree, a, walked.subscribers.records()),
        None => Ok(()),
    }
}

// Checks a tree that has to have the keys of these subscribers.
fn check_keys(alloc: Global, tree: &Tree, a: &[u64], subscribers: &[u64]) -> Result<(), CheckFault>
    requires fits { FitsTree tree.now (length a.now) }
    requires small { All (HasSmallKey a.now) subscribers.now }
    ensures ok { OnOk result (IsWholeIndex tree.now a.now subscribers.now) }
    ensures fault { IfErr result (IsCause (IsWrongIndex tree.now a.now subscribers.now)) }
{
    let mut keys = keys_of(alloc, a, subscribers)?;
    keys.sort()?;
    let leaves = check_tree(alloc, tree, keys.as_slice(), a)?;
    match first_leafless(a, subscribers, &leaves) {
        Some(at) => Err(CheckFault::NotDb { word: at + 6 }),
        None => Ok(()),
    }
}

// The keys of these subscribers, in their order.
fn keys_of(alloc: Global, a: &[u64], subscribers: &[u64]) -> Result<Vec<u64>, AllocError>
    requires small { All (HasSmallKey a.now) subscribers.now }
    ensures { IfOk result (λ keys. keys.items ≡ location_keys a.now subscribers.now) }
{
    let mut keys = Vec::with_capacity(alloc, subscribers.len())?;
    for at in subscribers {
        keys.push(key_at(a, *at))?;
    }
    Ok(keys)
}

// The first of these subscribers whose key no leaf has.
fn first_leafless(a: &[u64], subscribers: &[u64], leaves: &Taken) -> Option<u64>
    requires small { All (HasSmallKey a.now) subscribers.now }
    ensures { FindsLeafless a.now subscribers.now leaves.now result }
{
    for at in subscribers {
        if !has_leaf(a, *at, leaves) {
            return Some(*at);
        }
    }
    None
}

// Whether a leaf has the key of the subscriber whose record begins at this word.
fn has_leaf(a: &[u64], at: u64, leaves: &Taken) -> bool
    requires small { HasSmallKey a.now at }
    ensures { TestsLeaf a.now leaves.now at result }
{
    leaves.find(key_at(a, at)).is_some()
}

// The key of the subscriber whose record begins at this word.
fn key_at(a: &[u64], at: u64) -> u64
    requires small { HasSmallKey a.now at }
    ensures { result ≡ location_key (subscriber_in a.now at) }
{
    location_key(a[at as usize + 6], a[at as usize])
}
