//! A step on one word by one view.

ghost use Rattle.core_events.specs.Events.{word_after};
ghost use Rattle.dude_core.specs.Memory.{MayTakeMemory};
ghost use Rattle.dude_core.specs.Named.{word_of, event_of};
ghost use Rattle.dude_core.specs.StateSteps.{IsReady, IsMoved};
ghost use Rattle.dude_core.specs.Views.{OfView, IsNameAt, IsFoundAt, HasAdvanced};
ghost use Rattle.std.specs.Prelude.{◌≡◌, OnOk, OnErr};

use crate::advancing::advance;
use crate::deed::Deed;
use crate::names::name;
use crate::setup::Setup;
use crate::state::State;
use crate::word::Word;
use crate::words_after::word_after;
use std::alloc::{AllocError, Global};

impl State {
    // The word and the view become what the event makes of them.
    pub(crate) fn move_view(
        &mut self,
        alloc: Global,
        z: &Setup,
        who: u64,
        deed: &Deed,
    ) -> Result<(), AllocError>
        requires { IsReady z.now self.old who (event_of deed.now) }
        ensures ok { OnOk result (IsMoved z.now self.old who (event_of deed.now) self.new) }
        ensures err { OnErr result (self.new ≡ self.old) }
        ensures memory { OnErr result (MayTakeMemory (event_of deed.now)) }
    {
        let word = self.name_of(z, who, deed);
        let found = self.found(word);
        let value = self.word_after(z, who, deed, found);
        self.advance(alloc, z, who, deed, word, found)?;
        self.put(word, value);
        Ok(())
    }

    fn name_of(&self, z: &Setup, who: u64, deed: &Deed) -> Word
        requires { IsReady z.now self.now who (event_of deed.now) }
        ensures { IsNameAt z.now self.now who (event_of deed.now) (word_of result) }
    {
        name(&self.views[who as usize], z, deed)
    }

    fn word_after(&self, z: &Setup, who: u64, deed: &Deed, found: u64) -> u64
        requires ready { IsReady z.now self.now who (event_of deed.now) }
        requires found { IsFoundAt z.now self.now who (event_of deed.now) found }
        ensures { OfView self.now.views who (λ v. result ≡ word_after (event_of deed.now) v found) }
    {
        word_after(&self.views[who as usize], z, deed, found)
    }

    fn advance(
        &mut self,
        alloc: Global,
        z: &Setup,
        who: u64,
        deed: &Deed,
        word: Word,
        found: u64,
    ) -> Result<(), AllocError>
        requires ready { IsReady z.now self.old who (event_of deed.now) }
        requires name { IsNameAt z.now self.old who (event_of deed.now) (word_of word) }
        requires found { IsFoundAt z.now self.old who (event_of deed.now) found }
        ensures ok { OnOk result (HasAdvanced z.now self.old who deed.now found self.new) }
        ensures err { OnErr result (self.new ≡ self.old) }
        ensures memory { OnErr result (MayTakeMemory (event_of deed.now)) }
    {
        advance(&mut self.views[who as usize], alloc, z, deed, word, found)?;
        Ok(())
    }
}
