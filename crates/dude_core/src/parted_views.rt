//! Views that are split and joined, in a list of views.

ghost use Rattle.core_events.specs.Partings.{spent};
ghost use Rattle.dude_core.specs.Views.{AreSplit, AreSmallAt, AreJoined};
ghost use Rattle.std.specs.Prelude.{◌≡◌, ◌<◌, ◌≢◌, length, OnOk, OnErr};

use crate::setup::Setup;
use crate::view::View;
use std::alloc::{AllocError, Global};
use std::mem;

/// The view leaves so many draws to a newcomer, which comes last.
pub(crate) fn split_off(
    views: &mut Vec<View>,
    alloc: Global,
    z: &Setup,
    who: u64,
    draws: u64,
) -> Result<(), AllocError>
    requires { who < length views.old.items }
    ensures ok { OnOk result (AreSplit z.now views.old.items who draws views.new.items) }
    ensures err { OnErr result (views.new.items ≡ views.old.items) }
{
    views.push(View::newcomer(alloc, z, 0, draws))?;
    views[who as usize].leave(draws);
    Ok(())
}

/// The view takes over all that the other has, which is spent then.
pub(crate) fn join_into(
    views: &mut Vec<View>,
    alloc: Global,
    z: &Setup,
    who: u64,
    other: u64,
) -> Result<(), AllocError>
    requires apart { who ≢ other }
    requires who { who < length views.old.items }
    requires other { other < length views.old.items }
    requires small { AreSmallAt views.old.items who other }
    ensures ok { OnOk result (AreJoined views.old.items who other (spent z.now) views.new.items) }
    ensures err { OnErr result (views.new.items ≡ views.old.items) }
{
    let mut spent = View::spent(alloc, z);
    join_beside(views, alloc, who, other, &mut spent)
}

// The spent view comes in the place of the other, which ends where the spent one was.
fn join_beside(
    views: &mut Vec<View>,
    alloc: Global,
    who: u64,
    other: u64,
    spent: &mut View,
) -> Result<(), AllocError>
    requires apart { who ≢ other }
    requires who { who < length views.old.items }
    requires other { other < length views.old.items }
    requires small { AreSmallAt views.old.items who other }
    ensures ok { OnOk result (AreJoined views.old.items who other spent.old views.new.items) }
    ensures err { OnErr result (views.new.items ≡ views.old.items) }
{
    mem::swap(&mut views[other as usize], spent);
    match views[who as usize].take_over(alloc, spent) {
        Ok(()) => Ok(()),
        Err(fault) => {
            mem::swap(spent, &mut views[other as usize]);
            Err(fault)
        }
    }
}
