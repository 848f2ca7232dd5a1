//! All that leads on is announced and reproduced.

ghost use Rattle.back_store.specs.BackView.{state_of};
ghost use Rattle.run_threads.specs.CaughtUp.{GoesOn, HasCaughtUp, IsKnownSomehow, TellsDurable};
ghost use Rattle.std.specs.Prelude.{◌≡◌, OnErr, OnOk, true};
ghost use Rattle.stm_slots.specs.Calls.{StaysKnown};

use back_store::Back;
use pmem_trait::{Failed, Medium};
use stm_slots::known_back::{announce, reproduce};

/// Announces all that leads on, and reproduces it.
pub(crate) fn catch_up<M: Medium>(back: &mut Back<M>) -> Result<(), Failed>
    requires known { IsKnownSomehow back.old }
    ensures known { StaysKnown back.old back.new }
    ensures goes { GoesOn (state_of back.old) (state_of back.new) }
    ensures ok { OnOk result (HasCaughtUp (state_of back.old) (state_of back.new)) }
    ensures told { OnOk result (TellsDurable back.old back.new) }
    ensures err { OnErr result ((state_of back.new).dead ≡ true) }
{
    let Ok(end) = announce(back) else {
        return Err(Failed);
    };
    match reproduce(back, end) {
        Ok(_) => Ok(()),
        Err(_) => Err(Failed),
    }
}
