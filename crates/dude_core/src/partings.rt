//! Views that are split and joined, on the state.

ghost use Rattle.core_events.specs.Kept.{Kept};
ghost use Rattle.core_events.specs.Partings.{MaySplit, MayJoin, Leads, parting, joining};
ghost use Rattle.core_events.specs.Views.{View as Seen};
ghost use Rattle.dude_core.specs.Named.{Tells};
ghost use Rattle.dude_core.specs.StateSteps.{IsOffOnlyAt};
ghost use Rattle.std.specs.Prelude.{◌≡◌, OnOk, OnErr};

use crate::core_refusal::CoreRefusal;
use crate::parted_views::{join_into, split_off};
use crate::setup::Setup;
use crate::state::State;
use std::alloc::{AllocError, Global};

impl State {
    /// Splits a new view, which comes last, off the view `who`; so many draws go to it. After an
    /// `Err` the state is as it was.
    pub fn split(
        &mut self,
        alloc: Global,
        z: &Setup,
        who: u64,
        draws: u64,
    ) -> Result<(), CoreRefusal>
        ensures ok { OnOk result (Leads z.now self.old (parting who draws) self.new) }
        ensures err { OnErr result (self.new ≡ self.old) }
        ensures off { IsOffOnlyAt result z.now self.old (parting who draws) }
    {
        if !self.may_split(who, draws) {
            return Err(CoreRefusal::Off);
        }
        match split_off(&mut self.views, alloc, z, who, draws) {
            Ok(()) => Ok(()),
            Err(AllocError) => Err(CoreRefusal::NoMemory),
        }
    }

    /// Joins the view `other`, which is spent then, into the view `who`. After an `Err` the state
    /// is as it was.
    pub fn join(
        &mut self,
        alloc: Global,
        z: &Setup,
        who: u64,
        other: u64,
    ) -> Result<(), CoreRefusal>
        requires { Kept z.now self.old }
        ensures ok { OnOk result (Leads z.now self.old (joining who other) self.new) }
        ensures err { OnErr result (self.new ≡ self.old) }
        ensures off { IsOffOnlyAt result z.now self.old (joining who other) }
    {
        if !self.may_join(who, other) {
            return Err(CoreRefusal::Off);
        }
        match join_into(&mut self.views, alloc, z, who, other) {
            Ok(()) => Ok(()),
            Err(AllocError) => Err(CoreRefusal::NoMemory),
        }
    }

    fn may_split(&self, who: u64, draws: u64) -> bool
        ensures { Tells result ((v : Seen) × MaySplit self.now who v draws) }
    {
        if who >= self.views.len() as u64 {
            return false;
        }
        self.views[who as usize].may_split(draws)
    }

    fn may_join(&self, who: u64, other: u64) -> bool
        ensures { Tells result ((v : Seen) × (w : Seen) × MayJoin self.now who v other w) }
    {
        let views = self.views.len() as u64;
        if who == other || who >= views || other >= views {
            return false;
        }
        self.views[who as usize].is_live() && self.views[other as usize].may_be_joined()
    }
}
