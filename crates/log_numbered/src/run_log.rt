//! The log of a run: records are appended to bundles, and these announced, and brought home.

ghost use Rattle.dude_base.specs.Sizes.{IsAccepted};
ghost use Rattle.dude_base.specs.Writes.{IsWriteList};
ghost use Rattle.dude_base.specs.declared.limits.TheConstants.{MAX_NUMBER};
ghost use Rattle.log_numbered.specs.KeptBundles.{HasRoomToKeep};
ghost use Rattle.std.specs.Prelude.{◌≡◌, ◌≤◌, OnOk, false, is_ok, true};

use crate::bundle_log::BundleLog;
use crate::kept_bundles::KeptBundles;
use crate::open_bundle::OpenBundle;
use back_store::Back;
use dude_base::bundle::Bundle;
use dude_base::redo::Redo;
use pmem_trait::{Failed, Medium};

/// The persisted part of a log, with the last number of the run, and the bundle of the last records where it isn't persisted
/// yet. After an `Err` it is dead.
#[derive(Drop)]
pub struct RunLog<M: Medium> {
    log: BundleLog<M>,
    last: u64,
    current: Option<OpenBundle>,
}

impl<M: Medium> RunLog<M> {
    ghost use Rattle.back_store.specs.Back.{idle};
    ghost use Rattle.back_store.specs.BackView.{state_of};
    ghost use Rattle.log_numbered.specs.Arrays.{with_writes};
    ghost use Rattle.log_numbered.specs.Keeping.{ClosesRun, FailsFrom, KeepsOn};
    ghost use Rattle.log_numbered.specs.RunLog.{AnnouncesRun, AppendsRecord, CheckpointsRun, Closes, FollowsOpened, IsAlive, IsNextRecord, JoinsOpen, NoneJoins, RunGoesOn, RunRecovers, StartsOn, log_durable, log_end, log_last, log_medium};

    /// The log of a run that starts on a back where nothing waits and all up to this number is durable and in the home.
    pub fn new(back: Back<M>, number: u64) -> RunLog<M>
        requires idle { state_of back ≡ idle (state_of back).log.sizes number }
        requires accepted { IsAccepted (state_of back).log.sizes }
        requires small { number ≤ MAX_NUMBER }
        ensures alive { IsAlive result }
        ensures starts { StartsOn back number result }
        ensures follows { FollowsOpened back number result }
    {
        RunLog {
            log: BundleLog { back, end: number },
            last: number,
            current: None,
        }
    }

    /// The last number: that of the last record, or the first one of the run.
    pub fn last(&self) -> u64
        ensures { result ≡ log_last self.now }
    {
        self.last
    }

    /// The number told last, or the first one of the run.
    pub fn durable(&self) -> u64
        ensures { result ≡ log_durable self.now }
    {
        self.log.back.durable()
    }

    // The open bundle takes the record, where there is one and it does. Answers whether it did.
    fn joins(&mut self, r: &Redo) -> bool
        ensures log { self.new.log ≡ self.old.log }
        ensures last { self.new.last ≡ self.old.last }
        ensures joined { result ≡ true → JoinsOpen r.now self.old self.new }
        ensures apart { result ≡ false → NoneJoins r.now self.old }
        ensures stays { result ≡ false → self.new ≡ self.old }
        ensures writes { IsWriteList r.now.writes }
    {
        // A record has few writes, of different words.
        let _len = r.len();
        let cells = self.log.back.cells();
        match &mut self.current {
            Some(current) => current.join(r, cells),
            None => false,
        }
    }

    // Persists the open bundle, where there is one.
    fn close(&mut self, kept: &mut KeptBundles) -> Result<(), Failed>
        requires alive { IsAlive self.old }
        requires room { HasRoomToKeep kept.old }
        ensures goes_on { RunGoesOn (is_ok result) self.old self.new }
        ensures alive { is_ok result ≡ true → IsAlive self.new }
        ensures last { log_last self.new ≡ log_last self.old }
        ensures closes { OnOk result (Closes self.old self.new) }
        ensures moments { RunRecovers (λ a. a) self.old self.new }
        ensures end { is_ok result ≡ false → log_end self.new ≡ log_end self.old }
        ensures keeps { KeepsOn (is_ok result) (λ a. a) self.old kept.old self.new kept.new }
    {
        match self.current.take() {
            Some(closed) => {
                self.log.append(closed.ring, &closed.bundle)?;
                kept.keep(&closed.bundle);
                Ok(())
            }
            None => Ok(()),
        }
    }

    /// Takes the record of the next number: it joins the open bundle. Where that doesn't take it, the bundle is persisted, and
    /// a new one begun with the record, in this ring. Where a bundle's ring is full, all that waits is announced and reproduced
    /// before the bundle is persisted. A bundle that is persisted is then kept.
    pub fn append(&mut self, ring: u64, r: &Redo, kept: &mut KeptBundles) -> Result<(), Failed>
        requires alive { IsAlive self.old }
        requires next { IsNextRecord self.old ring r.now }
        requires room { HasRoomToKeep kept.old }
        ensures goes_on { RunGoesOn (is_ok result) self.old self.new }
        ensures alive { is_ok result ≡ true → IsAlive self.new }
        ensures appends { OnOk result (AppendsRecord ring r.now self.old self.new) }
        ensures moments { RunRecovers (with_writes r.now.writes) self.old self.new }
        ensures keeps { KeepsOn (is_ok result) (with_writes r.now.writes) self.old kept.old
            self.new kept.new }
        ensures ends { FailsFrom (is_ok result) (with_writes r.now.writes) self.old self.new }
    {
        if self.joins(r) {
            self.last += 1;
            return Ok(());
        }
        self.close(kept)?;
        let bundle = Bundle::one(r);
        self.current = Some(OpenBundle { ring, bundle });
        self.last += 1;
        Ok(())
    }

    /// Persists the open bundle, announces the last number, and answers it.
    pub fn announce(&mut self, kept: &mut KeptBundles) -> Result<u64, Failed>
        requires alive { IsAlive self.old }
        requires room { HasRoomToKeep kept.old }
        ensures closes { ClosesRun result self.old kept.old self.new kept.new }
        ensures announces { OnOk result (AnnouncesRun self.old self.new) }
    {
        self.close(kept)?;
        self.log.announce()
    }

    /// Persists the open bundle, announces the last number, and reproduces all that waits: the home is then the last array.
    /// Answers the number.
    pub fn checkpoint(&mut self, kept: &mut KeptBundles) -> Result<u64, Failed>
        requires alive { IsAlive self.old }
        requires room { HasRoomToKeep kept.old }
        ensures checkpoints { OnOk result (CheckpointsRun self.old self.new) }
        ensures closes { ClosesRun result self.old kept.old self.new kept.new }
    {
        self.close(kept)?;
        self.log.checkpoint()
    }

    /// The medium.
    pub fn into_medium(self) -> M
        ensures { result ≡ log_medium self }
    {
        self.log.back.into_medium()
    }
}
