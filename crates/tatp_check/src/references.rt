//! The references between the records of the five tables, and the first one that is wrong.

ghost use Rattle.dude_base.specs.declared.limits.TheConstants.{PAGE};
ghost use Rattle.std.specs.Prelude.{◌≡◌, ◌<◌, ◌*◌, ◌↔◌, ◌+◌, Contains, IfSome, IsSomeAnd, IsTrue, length, slice_index};
ghost use Rattle.tatp_check.specs.References.{FindsFirstUnbound, FindsUnbound, Refers, reference_offset};
ghost use Rattle.tatp_check.specs.Walked.{AreWalked, records_of_kind};

use crate::table_kind::TableKind;
use crate::walked::Walked;
use tatp_layout::Layout;

const KINDS: [TableKind; 5] = [
    TableKind::Subscribers,
    TableKind::Numbers,
    TableKind::Access,
    TableKind::Facilities,
    TableKind::Calls,
];

/// The word of the first record, in the order of the tables and of the walk, that refers to a record that isn't there.
pub fn first_unbound(lay: &Layout, a: &[u64], walked: &Walked) -> Option<u64>
    requires size { length a.now ≡ lay.now.pages * PAGE }
    requires walked { AreWalked lay.now a.now walked.now }
    ensures { FindsFirstUnbound a.now (records_of_kind walked.now) result }
{
    for kind in KINDS {
        if let Some(at) = unbound_record(lay, a, walked, kind) {
            return Some(at + reference_offset(kind));
        }
    }
    None
}

// The first record of one table that refers to none.
fn unbound_record(lay: &Layout, a: &[u64], walked: &Walked, kind: TableKind) -> Option<u64>
    requires size { length a.now ≡ lay.now.pages * PAGE }
    requires walked { AreWalked lay.now a.now walked.now }
    ensures { FindsUnbound a.now (records_of_kind walked.now) kind result }
{
    for at in walked.of(kind).records() {
        if !refers(lay, a, walked, kind, *at) {
            return Some(*at);
        }
    }
    None
}

// Whether the record refers to one that is there.
fn refers(lay: &Layout, a: &[u64], walked: &Walked, kind: TableKind, at: u64) -> bool
    requires size { length a.now ≡ lay.now.pages * PAGE }
    requires walked { AreWalked lay.now a.now walked.now }
    requires at { Contains (records_of_kind walked.now kind) at }
    ensures { IsTrue result ↔ Refers a.now (records_of_kind walked.now) kind at }
{
    let key = a[at as usize];
    match kind {
        TableKind::Subscribers => has_at(a, walked.numbers.find(a[at as usize + 7]), 2, key),
        TableKind::Numbers => has_at(a, walked.subscribers.find(a[at as usize + 2]), 7, key),
        TableKind::Access | TableKind::Facilities => walked.subscribers.find(key / 4).is_some(),
        TableKind::Calls => walked.facilities.find(key / 3).is_some(),
    }
}

// Whether there is a record, and it has this word at this offset.
fn has_at(a: &[u64], found: Option<u64>, offset: usize, word: u64) -> bool
    requires { IfSome found (λ at. at + offset < length a.now) }
    ensures { IsTrue result ↔ IsSomeAnd found (λ at. slice_index a.now (at + offset) ≡ word) }
{
    match found {
        Some(at) => a[at as usize + offset] == word,
        None => false,
    }
}

// At which offset the word stands that is named where the record refers to none: one that says what it refers to.
fn reference_offset(kind: TableKind) -> u64
    ensures { result ≡ reference_offset kind }
{
    match kind {
        TableKind::Subscribers => 7,
        TableKind::Numbers => 2,
        TableKind::Access | TableKind::Facilities | TableKind::Calls => 0,
    }
}
