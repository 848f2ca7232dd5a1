//! What the log has for consecutive numbers.

ghost use Rattle.dude_base.specs.Joins.{CanJoin, LawOfJoining, Refuses, places_of};
ghost use Rattle.dude_base.specs.Records.{IsBundle, bundle_of, first_of, with_next};
ghost use Rattle.dude_base.specs.Writes.{overwritten};
ghost use Rattle.dude_base.specs.declared.limits.TheConstants.{MAX_BUNDLE_WRITES as MOST_WRITES};
ghost use Rattle.std.specs.Prelude.{◌≡◌, ◌<◌, ◌≤◌, ◌↔◌, All, IsTrue, length, slice_get, OnOk, OnErr, IfErr, IfSome, IfNone};

use crate::limits::{MAX_BUNDLE_WRITES, MAX_SPAN};
use crate::no_join::NoJoin;
use crate::redo::Redo;
use crate::write::Write;
use crate::write_list::BundleWrites;
use std::marker::Model;

/// What the log has for consecutive numbers: the last number, how many before it are covered too, and at most
/// `MAX_BUNDLE_WRITES` writes of different words.
#[derive(Drop)]
pub struct Bundle {
    last: u64,
    span: u64,
    writes: BundleWrites,
}

impl Model for Bundle {
    ghost use Rattle.dude_base.specs.Records.{RedoBundle};
    ghost use Rattle.dude_base.specs.declared.limits.TheConstants.{MAX_SPAN};
    ghost use Rattle.std.specs.Prelude.{◌≤◌};

    ghost Value = { RedoBundle };

    ghost view = { λ b. record { last = b.last; span = b.span; writes = b.writes } };

    ghost invariant = { λ b. (b.span ≤ MAX_SPAN) × (b.span ≤ b.last) };
}

impl Bundle {
    /// The bundle of one record.
    pub fn one(r: &Redo) -> Self
        ensures { result ≡ bundle_of r.now }
    {
        let mut writes = BundleWrites::new();
        for k in 0..r.len() {
            writes.append(r.write_at(k));
        }
        Bundle {
            last: r.number(),
            span: 0,
            writes,
        }
    }

    /// The bundle of the numbers from `last - span` to `last`, with these writes.
    pub fn of(last: u64, span: u64, writes: BundleWrites) -> Self
        requires span { span ≤ MAX_SPAN }
        requires first { span ≤ last }
        ensures { result ≡ record { last = last; span = span; writes = writes } }
    {
        Bundle { last, span, writes }
    }

    /// The same bundle once more. It takes no memory.
    pub fn copy(&self) -> Self
        ensures { result ≡ self.now }
    {
        Bundle {
            last: self.last,
            span: self.span,
            writes: self.writes.copy(),
        }
    }

    /// Whether the two cover the same numbers and have the same writes in the same order.
    pub fn is_same(&self, other: &Bundle) -> bool
        ensures { IsTrue result ↔ (self.now ≡ other.now) }
    {
        if self.last != other.last || self.span != other.span || self.len() != other.len() {
            return false;
        }
        for k in 0..self.len() {
            if self.write_at(k) != other.write_at(k) {
                return false;
            }
        }
        true
    }

    /// The first number that it covers.
    pub fn first(&self) -> u64
        ensures { result ≡ first_of self.now }
    {
        self.last - self.span
    }

    /// The last number that it covers. Recovery replays bundles in the order of their numbers.
    pub fn last(&self) -> u64
        ensures { result ≡ self.now.last }
    {
        self.last
    }

    /// How many different words are written.
    pub fn len(&self) -> u64
        ensures len { result ≡ length self.now.writes }
        ensures bundle { IsBundle self.now }
    {
        self.writes.len()
    }

    /// The write at index `k`, counted from 0.
    pub fn write_at(&self, k: u64) -> Write
        requires { k < length self.now.writes }
        ensures { slice_get self.now.writes k ≡ Some result }
    {
        self.writes.get(k)
    }

    /// Overwrites an array by the writes of this bundle.
    pub fn apply_to(&self, words: &mut [u64])
        requires inside { All (λ w. w.at < length words.old) self.now.writes }
        ensures { words.new ≡ overwritten self.now.writes words.old }
    {
        self.writes.apply_to(words)
    }

    /// How many different words this bundle and a record write together.
    pub fn places_with(&self, r: &Redo) -> u64
        ensures { result ≡ places_of self.now r.now }
    {
        let mut places = self.len();
        for k in 0..r.len() {
            if self.writes.find(r.write_at(k).at).is_none() {
                places += 1;
            }
        }
        places
    }

    /// Takes the record of the next number: its writes replace those of the same words, and the others come last.
    ///
    /// It is refused for the first reason that fits: `Gap`, `Long`, `Broad`.
    pub fn add(&mut self, r: &Redo) -> Result<(), NoJoin>
        ensures ok { OnOk result (self.new ≡ with_next self.old r.now) }
        ensures joins { OnOk result (CanJoin self.old r.now) }
        ensures err { OnErr result (self.new ≡ self.old) }
        ensures why { IfErr result (λ fault. Refuses fault self.old r.now) }
    {
        let (last, number) = (self.last, r.number());
        if number == 0 || number - 1 != last {
            return Err(NoJoin::Gap { last, number });
        }
        if self.span >= MAX_SPAN {
            return Err(NoJoin::Long { span: self.span });
        }
        if let Some(places) = self.too_many_places(r) {
            return Err(NoJoin::Broad { places });
        }
        self.take(r);
        Ok(())
    }

    // How many words the two write together, where these are too many for a bundle. They are compared only where the two lists
    // might be too long.
    fn too_many_places(&self, r: &Redo) -> Option<u64>
        ensures some { IfSome result (λ places.
            (places ≡ places_of self.now r.now) × (MOST_WRITES < places)) }
        ensures none { IfNone result (places_of self.now r.now ≤ MOST_WRITES) }
    {
        if self.len() + r.len() <= MAX_BUNDLE_WRITES {
            return None;
        }
        let places = self.places_with(r);
        if places > MAX_BUNDLE_WRITES {
            Some(places)
        } else {
            None
        }
    }

    // Takes a record that fits.
    fn take(&mut self, r: &Redo)
        requires { CanJoin self.old r.now }
        ensures { self.new ≡ with_next self.old r.now }
    {
        for k in 0..r.len() {
            if self.writes.put(r.write_at(k)).is_err() {
                unreachable!();
            }
        }
        self.last = r.number();
        self.span += 1;
    }
}

/// What a joined bundle writes.
pub fn law_of_joining()
    ensures { LawOfJoining }
{}
