//! The persisted part of a log: bundles are appended, announced, and brought home.

ghost use Rattle.log_numbered.specs.Backs.{LeadsUpTo};
ghost use Rattle.redo_record.specs.Record.{cells_for};
ghost use Rattle.std.specs.Prelude.{◌≡◌, ◌≤◌, IfOk, OnOk, false, is_ok, length, true};

use back_store::{Back, BackFault};
use dude_base::bundle::Bundle;
use pmem_trait::{Failed, Medium};

/// The back of a store, with the last number persisted. After an `Err` it is dead.
#[derive(Drop)]
pub struct BundleLog<M: Medium> {
    pub back: Back<M>,
    pub end: u64,
}

impl<M: Medium> BundleLog<M> {
    ghost use Rattle.log_numbered.specs.BundleLog.{AnnouncesLast, AppendsNext, BringsAllHome, IsNextFor, KeptGoesOn, KeptRecovers, MakesCheckpoint, PersistsIf, PersistsNext, RecoversWith, WasFullUnless, kept_back};

    // Persists a bundle of the next numbers, where its ring has room. Answers whether it had.
    fn persist(&mut self, ring: u64, b: &Bundle) -> Result<bool, Failed>
        requires alive { LeadsUpTo (kept_back self.old) self.old.end }
        requires next { IsNextFor self.old ring b.now }
        ensures goes_on { KeptGoesOn (is_ok result) self.old self.new }
        ensures alive { is_ok result ≡ true → LeadsUpTo (kept_back self.new) self.new.end }
        ensures persists { IfOk result (λ room. PersistsIf room ring b.now self.old self.new) }
        ensures full { IfOk result (λ room. WasFullUnless room ring b.now self.old self.new) }
        ensures end { is_ok result ≡ false → self.new.end ≡ self.old.end }
        ensures moments { RecoversWith b.now self.old self.new }
    {
        match self.back.persist(ring, b) {
            Ok(()) => {
                self.end = b.last();
                Ok(true)
            }
            Err(BackFault::RingFull { .. }) => Ok(false),
            Err(BackFault::Device) => Err(Failed),
            Err(BackFault::Dead) => unreachable!(),
        }
    }

    // Persists a bundle of the next numbers where nothing waits: its ring has room then.
    fn persist_alone(&mut self, ring: u64, b: &Bundle) -> Result<(), Failed>
        requires alive { LeadsUpTo (kept_back self.old) self.old.end }
        requires next { IsNextFor self.old ring b.now }
        requires alone { (kept_back self.old).log.reproduced ≡ self.old.end }
        requires short { cells_for (length b.now.writes) ≤ (kept_back self.old).log.sizes.cells }
        ensures goes_on { KeptGoesOn (is_ok result) self.old self.new }
        ensures alive { is_ok result ≡ true → LeadsUpTo (kept_back self.new) self.new.end }
        ensures persists { OnOk result (PersistsNext ring b.now self.old self.new) }
        ensures end { is_ok result ≡ false → self.new.end ≡ self.old.end }
        ensures moments { RecoversWith b.now self.old self.new }
    {
        if self.persist(ring, b)? {
            Ok(())
        } else {
            unreachable!()
        }
    }

    // Reproduces all that waits, where all of it was announced.
    fn reproduce_all(&mut self) -> Result<(), Failed>
        requires alive { LeadsUpTo (kept_back self.old) self.old.end }
        requires announced { (kept_back self.old).log.durable ≡ self.old.end }
        ensures goes_on { KeptGoesOn (is_ok result) self.old self.new }
        ensures alive { is_ok result ≡ true → LeadsUpTo (kept_back self.new) self.new.end }
        ensures brings { OnOk result (BringsAllHome self.old self.new) }
        ensures end { self.new.end ≡ self.old.end }
        ensures moments { KeptRecovers self.old self.new }
    {
        match self.back.reproduce(u64::MAX) {
            Ok(_) => Ok(()),
            Err(_) => Err(Failed),
        }
    }

    /// Makes a bundle of the next numbers durable in a ring. Where the ring is full, all that waits is announced and reproduced
    /// first.
    pub fn append(&mut self, ring: u64, b: &Bundle) -> Result<(), Failed>
        requires alive { LeadsUpTo (kept_back self.old) self.old.end }
        requires next { IsNextFor self.old ring b.now }
        requires short { cells_for (length b.now.writes) ≤ (kept_back self.old).log.sizes.cells }
        ensures goes_on { KeptGoesOn (is_ok result) self.old self.new }
        ensures alive { is_ok result ≡ true → LeadsUpTo (kept_back self.new) self.new.end }
        ensures appends { OnOk result (AppendsNext ring b.now self.old self.new) }
        ensures end { is_ok result ≡ false → self.new.end ≡ self.old.end }
        ensures moments { RecoversWith b.now self.old self.new }
    {
        if self.persist(ring, b)? {
            return Ok(());
        }
        self.checkpoint()?;
        self.persist_alone(ring, b)
    }

    /// Announces the last number persisted, and answers it.
    pub fn announce(&mut self) -> Result<u64, Failed>
        requires alive { LeadsUpTo (kept_back self.old) self.old.end }
        ensures goes_on { KeptGoesOn (is_ok result) self.old self.new }
        ensures alive { is_ok result ≡ true → LeadsUpTo (kept_back self.new) self.new.end }
        ensures answer { IfOk result (λ number. number ≡ self.old.end) }
        ensures announces { OnOk result (AnnouncesLast self.old self.new) }
        ensures end { self.new.end ≡ self.old.end }
        ensures moments { KeptRecovers self.old self.new }
    {
        match self.back.announce() {
            Ok(end) => Ok(end),
            Err(_) => Err(Failed),
        }
    }

    /// Announces the last number persisted, and reproduces all that waits: the home is then the array at it. Answers the
    /// number.
    pub fn checkpoint(&mut self) -> Result<u64, Failed>
        requires alive { LeadsUpTo (kept_back self.old) self.old.end }
        ensures goes_on { KeptGoesOn (is_ok result) self.old self.new }
        ensures alive { is_ok result ≡ true → LeadsUpTo (kept_back self.new) self.new.end }
        ensures answer { IfOk result (λ number. number ≡ self.old.end) }
        ensures checkpoints { OnOk result (MakesCheckpoint self.old self.new) }
        ensures end { self.new.end ≡ self.old.end }
        ensures moments { KeptRecovers self.old self.new }
    {
        let number = self.announce()?;
        self.reproduce_all()?;
        Ok(number)
    }
}
