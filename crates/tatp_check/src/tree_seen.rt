//! What a walk through a tree has met, and the inner records that it is below.

ghost use Rattle.std.specs.Prelude.{◌≡◌, ◌+◌, ◌/◌, ◌<◌, ◌^◌, ◌↔◌, All, IfOk, IfSome, IsTrue};
ghost use Rattle.tatp_check.specs.TreeSeen.{LimitsBits, PassesFork, TestsKey, TurnsBack};

use crate::marks::Marks;
use crate::seen::Seen;
use crate::taken::Taken;
use std::alloc::{AllocError, Global};
use tree_index::key_bits;
use tree_index::tree::Tree;

/// An inner record that the walk is below: `first` is the first key below its zeros, on the way through its ones.
#[derive(Clone, Copy)]
pub struct OpenFork {
    pub at: u64,
    pub bit: u64,
    pub first: Option<u64>,
}

/// What a walk through a tree has met: the leaves, the inner records, and those that it is below, the last one last.
#[derive(Drop)]
pub struct TreeSeen {
    pub leaves: Seen,
    pub inner: Marks,
    pub forks: Vec<u64>,
    pub above: Vec<OpenFork>,
}

impl TreeSeen {
    ghost use Rattle.std.specs.Prelude.{OnOk, IfOk};
    ghost use Rattle.tatp_check.specs.TreeSeen.{HasMetNone, OpensFork};

    /// Nothing was met.
    pub fn new(alloc: Global, tree: &Tree) -> Result<TreeSeen, AllocError>
        ensures { IfOk result (HasMetNone tree.now) }
    {
        Ok(TreeSeen {
            leaves: Seen {
                marks: Marks::new(alloc, &tree.leaves)?,
                taken: Taken::new(alloc),
            },
            inner: Marks::new(alloc, &tree.inner)?,
            forks: Vec::new(alloc),
            above: Vec::new(alloc),
        })
    }

    /// Takes in an inner record. From now on the walk is below it, on its zeros.
    pub fn open_fork(&mut self, at: u64, bit: u64) -> Result<(), AllocError>
        ensures { OnOk result (OpensFork at bit self.old self.new) }
    {
        self.forks.push(at)?;
        self.above.push(OpenFork {
            at,
            bit,
            first: None,
        })?;
        Ok(())
    }
}

/// What the bits below the last of these inner records are less than.
pub fn bit_limit(above: &[OpenFork]) -> u64
    ensures { LimitsBits above.now result }
{
    if above.is_empty() {
        return 64;
    }
    above[above.len() - 1].bit
}

/// Whether a leaf's key may stand where the walk is: on each side that it took, and with the keys met there.
pub fn goes_by_turns(above: &[OpenFork], key: u64) -> bool
    requires bits { All (λ fork. fork.bit < 64) above.now }
    ensures { TestsKey key above.now result }
{
    let mut first = None;
    let mut left = above.len();
    while left > 0 {
        left -= 1;
        let fork = above[left];
        if !passes(key, fork, first) {
            return false;
        }
        first = fork.first.or(first);
    }
    true
}

// Whether the key has the bit of the walk's side, and agrees above it with the first key met there.
fn passes(key: u64, fork: OpenFork, first: Option<u64>) -> bool
    requires bit { fork.bit < 64 }
    ensures { IsTrue result ↔ PassesFork key fork first }
{
    let side = key_bits::side(key, fork.bit);
    match fork.first {
        Some(other) => side == 1 && agree_above(key, other, fork.bit),
        None => side == 0 && agrees_with(key, first, fork.bit),
    }
}

// Whether the key agrees above the bit with the other one, if there is one.
fn agrees_with(key: u64, first: Option<u64>, bit: u64) -> bool
    requires bit { bit < 64 }
    ensures { IsTrue result ↔ IfSome first (λ other. key / 2 ^ (bit + 1) ≡ other / 2 ^ (bit + 1)) }
{
    match first {
        Some(other) => agree_above(key, other, bit),
        None => true,
    }
}

fn agree_above(key: u64, other: u64, bit: u64) -> bool
    requires bit { bit < 64 }
    ensures { IsTrue result ↔ (key / 2 ^ (bit + 1) ≡ other / 2 ^ (bit + 1)) }
{
    key >> bit >> 1 == other >> bit >> 1
}

/// A leaf with this key, or what is below a last inner record with this first key, is done: the walk is now on the ones of the
/// last inner record that it was below on its zeros. Answers the word that links them, or None where the whole tree is done.
pub fn turn_back(above: &mut Vec<OpenFork>, key: u64) -> Result<Option<u64>, AllocError>
    requires small { All (λ fork. fork.at + 3 < 2 ^ 64) above.old.items }
    ensures { IfOk result (TurnsBack key above.old.items above.new.items) }
{
    let mut first = key;
    while let Some(fork) = above.pop() {
        match fork.first {
            Some(other) => first = other,
            None => {
                above.push(OpenFork {
                    at: fork.at,
                    bit: fork.bit,
                    first: Some(first),
                })?;
                return Ok(Some(fork.at + 3));
            }
        }
    }
    Ok(None)
}
