//! The back of the store, over any medium.

ghost use Rattle.back_store.specs.Answers.{CallsAnswered, SparesMedium, after_announce, after_persist, after_read, after_reproduce, with_record};
ghost use Rattle.back_store.specs.Back.{EndsFrom, IsPersistFault, IsRingFull, MayPersist, idle, ring_full};
ghost use Rattle.back_store.specs.Backlog.{CanWait, IsLawful, StopsAfter};
ghost use Rattle.back_store.specs.Images.{IsIdleMedium, HoldsStore};
ghost use Rattle.back_store.specs.PageReads.{AreWordsFrom};
ghost use Rattle.back_store.specs.declared.back_fault.BackFault.TheVariants.{Device, Dead};
ghost use Rattle.dude_base.specs.Image.{home_word, image_words};
ghost use Rattle.dude_base.specs.Sizes.{IsAccepted};
ghost use Rattle.dude_base.specs.declared.limits.TheConstants.{MAX_NUMBER, PAGE};
ghost use Rattle.pmem_trait.specs.Sights.{Extends, state_now};
ghost use Rattle.redo_record.specs.BackCalls.{read_page_calls};
ghost use Rattle.std.specs.Prelude.{◌≡◌, ◌⊎◌, ◌↔◌, ℕ, ◌*◌, ◌<◌, ◌≤◌, IfOk, IfErr, IsErrOf, IsTrue, MatchResult, OnOk, List, false, true};

use crate::back_fault::BackFault;
use crate::backlog::Backlog;
use crate::page_reads::read_words;
use dude_base::bundle::Bundle;
use dude_base::limits::PAGE;
use dude_base::place::Place;
use dude_base::sizes::Sizes;
use log_ring::RingFault;
use pmem_trait::{Failed, Medium};
use std::alloc::{AllocError, Global};

/// The back of the store: a medium with an image on it, and the records of its log that wait for the home to have their
/// writes. Its memory is taken when it is made.
#[derive(Drop)]
pub struct Back<M: Medium> {
    medium: M,
    log: Backlog,
    dead: bool,
    ghost room: { image_words log.sizes ≤ (M.sight medium).len },
}

impl<M: Medium> Back<M> {
    ghost use Rattle.back_store.specs.BackView.{AnnouncesEnd, HasCause, HasPersistCause, IsCrashSafe, LeavesHome, PersistsBy, RaisesHome, ReadsPage, ReproducesNext, TellsEnd, medium_of, sight_of, state_of};

    /// A back over a medium with an image of these sizes, where nothing waits and all up to this number is durable and in
    /// the home. Room for all records that may wait, and for one group of them, is taken here. On want of memory the medium
    /// is given back.
    pub fn new(
        alloc: Global,
        medium: M,
        sizes: &Sizes,
        number: u64,
    ) -> Result<Back<M>, (AllocError, M)>
        requires accepted { IsAccepted sizes.now }
        requires room { image_words sizes.now ≤ (M.sight medium).len }
        requires small { number ≤ MAX_NUMBER }
        ensures made { IfOk result (λ back. state_of back ≡ idle sizes.now number) }
        ensures medium { MatchResult result (λ back. medium_of back ≡ medium)
            (λ refused. refused.1 ≡ medium) }
        // Where the medium is settled at an image of these sizes, with the mark at the number and no head over it.
        ensures keeps { IfOk result (λ back. (before : ℕ) (home : List ℕ)
            → (IsTrue (M.sight medium).is_visible
            → IsIdleMedium before sizes.now number home (state_now (M.sight medium)))
            → HoldsStore before (state_of back) (M.sight medium)) }
    {
        match Backlog::new(alloc, Place::of(sizes), number) {
            Ok(log) => Ok(Back {
                medium,
                log,
                dead: false,
            }),
            Err(refused) => Err((refused, medium)),
        }
    }

    // The medium's call failed.
    fn die<T>(&mut self) -> Result<T, BackFault>
        ensures fault { IsErrOf result Device }
        ensures medium { medium_of self.new ≡ medium_of self.old }
        ensures state { state_of self.new ≡ record (state_of self.old) { dead = true } }
    {
        self.dead = true;
        Err(BackFault::Device)
    }

    // Persists a bundle.
    fn persist_record(&mut self, ring: u64, r: &Bundle) -> Result<(), BackFault>
        requires may { MayPersist (state_of self.old) ring r.now }
        ensures untouched { SparesMedium result (medium_of self.old) (medium_of self.new) }
        ensures state { state_of self.new ≡ after_persist result ring r.now (state_of self.old) }
        ensures calls { PersistsBy ring r.now result self.old self.new }
        ensures full { IsErrOf result (ring_full (state_of self.old) ring r.now)
            ↔ ((state_of self.old).dead ≡ false) × IsRingFull (state_of self.old) ring r.now }
        ensures dead { IsErrOf result Dead ↔ ((state_of self.old).dead ≡ true) }
        ensures fault { IfErr result (IsPersistFault (state_of self.old) ring r.now) }
        ensures can { (state_of self.old).dead ≡ false
            → CanWait (state_of self.old).log ring r.now }
    {
        if self.dead {
            return Err(BackFault::Dead);
        }
        match self.log.append(&mut self.medium, ring, r) {
            Ok(()) => Ok(()),
            Err(RingFault::Full { used, need }) => Err(BackFault::RingFull { used, need }),
            Err(RingFault::Device) => self.die(),
        }
    }

    // Announces the number to which waiting bundles lead.
    fn announce_end(&mut self) -> Result<u64, BackFault>
        ensures untouched { SparesMedium result (medium_of self.old) (medium_of self.new) }
        ensures state { state_of self.new ≡ after_announce result (state_of self.old) }
        ensures calls { AnnouncesEnd result self.old self.new }
        ensures dead { IsErrOf result Dead ↔ ((state_of self.old).dead ≡ true) }
        ensures fault { IfErr result (λ fault. (fault ≡ Device) ⊎ (fault ≡ Dead)) }
    {
        let end = self.log.contiguous_end();
        if self.dead {
            return Err(BackFault::Dead);
        }
        match self.medium.tell(end) {
            Ok(()) => {
                self.log.announce(end);
                Ok(end)
            }
            Err(Failed) => self.die(),
        }
    }

    // Reproduces the next durable records, up to where a reproduction of at most `most` numbers stops.
    fn reproduce_next(&mut self, most: u64) -> Result<u64, BackFault>
        ensures untouched { SparesMedium result (medium_of self.old) (medium_of self.new) }
        ensures state { state_of self.new ≡ after_reproduce result (state_of self.old) }
        ensures calls { ReproducesNext most result self.old self.new }
        ensures dead { IsErrOf result Dead ↔ ((state_of self.old).dead ≡ true) }
        ensures fault { IfErr result (λ fault. (fault ≡ Device) ⊎ (fault ≡ Dead)) }
    {
        if self.dead {
            return Err(BackFault::Dead);
        }
        let to = self.log.next_stop(most);
        if to == self.log.reproduced() {
            return Ok(to);
        }
        match self.log.reproduce(&mut self.medium, to) {
            Ok(()) => Ok(to),
            Err(Failed) => self.die(),
        }
    }

    // Reads a page of the home.
    fn read_into(&mut self, page: u64, into: &mut [u64; PAGE as usize]) -> Result<(), BackFault>
        requires { page < (state_of self.old).log.sizes.pages }
        ensures untouched { SparesMedium result (medium_of self.old) (medium_of self.new) }
        ensures state { state_of self.new ≡ after_read result (state_of self.old) }
        ensures calls { CallsAnswered result (read_page_calls (state_of self.old).log.sizes page)
            (sight_of self.old) (sight_of self.new) }
        ensures words { OnOk result (AreWordsFrom
            (home_word (state_of self.old).log.sizes (page * PAGE)) (sight_of self.old) into.new) }
        ensures dead { IsErrOf result Dead ↔ ((state_of self.old).dead ≡ true) }
        ensures fault { IfErr result (λ fault. (fault ≡ Device) ⊎ (fault ≡ Dead)) }
    {
        if self.dead {
            return Err(BackFault::Dead);
        }
        let at = self.log.place().home(page * PAGE);
        match read_words(&mut self.medium, at, into) {
            Ok(()) => Ok(()),
            Err(Failed) => self.die(),
        }
    }

    /// Persists a bundle: it is durable in its ring, and waits for the home to have its writes. After `RingFull` announce,
    /// reproduce, and try again.
    pub fn persist(&mut self, ring: u64, r: &Bundle) -> Result<(), BackFault>
        requires may { MayPersist (state_of self.old) ring r.now }
        ensures extends { Extends (sight_of self.old) (sight_of self.new) }
        ensures untouched { SparesMedium result (medium_of self.old) (medium_of self.new) }
        // At `Ok` the bundle waits behind those of its ring, and nothing else changes.
        ensures state { state_of self.new ≡ after_persist result ring r.now (state_of self.old) }
        ensures calls { PersistsBy ring r.now result self.old self.new }
        ensures cause { HasPersistCause ring r.now result self.old self.new }
        ensures crash { IsCrashSafe (with_record ring r.now (state_of self.old)) self.old self.new }
        ensures home_stays { LeavesHome result self.old self.new }
    {
        // The log is lawful, whatever the medium.
        let _place = self.log.place();
        self.persist_record(ring, r)
    }

    /// Announces the number to which waiting bundles lead: tells it to the medium, and answers it.
    pub fn announce(&mut self) -> Result<u64, BackFault>
        ensures extends { Extends (sight_of self.old) (sight_of self.new) }
        ensures untouched { SparesMedium result (medium_of self.old) (medium_of self.new) }
        // At `Ok` the durable number is the answer, and nothing else changes.
        ensures state { state_of self.new ≡ after_announce result (state_of self.old) }
        ensures calls { AnnouncesEnd result self.old self.new }
        ensures told { TellsEnd result self.old self.new }
        ensures cause { HasCause result self.old self.new }
        ensures crash { IsCrashSafe (state_of self.old) self.old self.new }
        ensures home_stays { LeavesHome result self.old self.new }
    {
        // The log is lawful, whatever the medium.
        let _place = self.log.place();
        self.announce_end()
    }

    /// Reproduces the next durable records, of at most `most` numbers, but one record at least where there is one and `most`
    /// isn't 0: puts the last write of each of their words into the home, then the mark, and frees their cells. Answers the
    /// number up to which the home then has all writes.
    pub fn reproduce(&mut self, most: u64) -> Result<u64, BackFault>
        ensures extends { Extends (sight_of self.old) (sight_of self.new) }
        ensures untouched { SparesMedium result (medium_of self.old) (medium_of self.new) }
        ensures answer { IfOk result (StopsAfter (state_of self.old).log most) }
        // At `Ok` just the bundles over the answer wait, and the durable number is as it was. Where there was nothing to
        // do nothing changes, and no call is made.
        ensures state { state_of self.new ≡ after_reproduce result (state_of self.old) }
        ensures calls { ReproducesNext most result self.old self.new }
        ensures cause { HasCause result self.old self.new }
        ensures crash { IsCrashSafe (state_of self.old) self.old self.new }
        ensures home { RaisesHome result self.old self.new }
    {
        // The log is lawful, whatever the medium.
        let _place = self.log.place();
        self.reproduce_next(most)
    }

    /// Gives a page of the home: that of the array at the reproduced number.
    pub fn read_page(&mut self, page: u64, into: &mut [u64; PAGE as usize]) -> Result<(), BackFault>
        requires inside { page < (state_of self.old).log.sizes.pages }
        ensures extends { Extends (sight_of self.old) (sight_of self.new) }
        ensures untouched { SparesMedium result (medium_of self.old) (medium_of self.new) }
        ensures state { state_of self.new ≡ after_read result (state_of self.old) }
        ensures reads { ReadsPage page result self.old self.new into.new }
        ensures cause { HasCause result self.old self.new }
        ensures crash { IsCrashSafe (state_of self.old) self.old self.new }
        ensures home_stays { LeavesHome result self.old self.new }
    {
        // The log is lawful, whatever the medium.
        let _place = self.log.place();
        self.read_into(page, into)
    }

    /// The number up to which it was announced that all is durable.
    pub fn durable(&self) -> u64
        ensures number { result ≡ (state_of self.now).log.durable }
        // Whatever the medium: the bundles that wait are over the reproduced number, lead to this one, cover no number twice,
        // and take no more cells than there are.
        ensures lawful { IsLawful (state_of self.now).log }
        // There is an end to which waiting bundles lead, and it is no less.
        ensures end { EndsFrom (state_of self.now) result }
    {
        // The log is lawful, whatever the medium.
        let _place = self.log.place();
        self.log.durable()
    }

    /// The number up to which the home has all writes.
    pub fn reproduced(&self) -> u64
        ensures number { result ≡ (state_of self.now).log.reproduced }
        ensures lawful { IsLawful (state_of self.now).log }
    {
        // The log is lawful, whatever the medium.
        let _place = self.log.place();
        self.log.reproduced()
    }

    /// Whether an earlier call answered `Device`.
    pub fn is_dead(&self) -> bool
        ensures { result ≡ (state_of self.now).dead }
    {
        self.dead
    }

    /// The medium, as the back left it.
    pub fn into_medium(self) -> M
        ensures { result ≡ medium_of self }
    {
        self.medium
    }

    /// How many rings there are.
    pub fn rings(&self) -> u64
        ensures { result ≡ (state_of self.now).log.sizes.rings }
    {
        self.log.place().sizes().rings
    }

    /// How many cells each ring has.
    pub fn cells(&self) -> u64
        ensures { result ≡ (state_of self.now).log.sizes.cells }
    {
        self.log.place().sizes().cells
    }
}
