//! The bundles of a rest are persisted, one after another.

ghost use Rattle.back_store.specs.BackView.{state_of};
ghost use Rattle.run_threads.specs.Handing.{Dies, DiesFrom, Hands, HandsIf, HandsUpTo, MayGoOn, MayHand};
ghost use Rattle.std.specs.Prelude.{◌≡◌, ◌<◌, ◌≤◌, IfOk, OnErr, OnOk, length};

use crate::catching_up::catch_up;
use crate::open_bundle::OpenBundle;
use back_store::{Back, BackFault};
use pmem_trait::{Failed, Medium};
use stm_slots::known_back;
use tiny_stm::posted::Posted;

/// Persists the bundle, where its ring has room. Answers whether it had.
fn persist<M: Medium>(back: &mut Back<M>, taken: &OpenBundle) -> Result<bool, Failed>
    requires may { MayHand taken.now back.old }
    ensures hands { IfOk result (λ room. HandsIf room taken.now back.old back.new) }
    ensures sizes { (state_of back.new).log.sizes ≡ (state_of back.old).log.sizes }
    ensures err { OnErr result (Dies taken.now back.old back.new) }
{
    match known_back::persist(back, taken.ring, &taken.bundle) {
        Ok(()) => Ok(true),
        Err(BackFault::RingFull { used: _, need: _ }) => Ok(false),
        Err(BackFault::Device) => Err(Failed),
        Err(BackFault::Dead) => unreachable!(),
    }
}

/// Persists the bundle. Where its ring is full, once more when all was reproduced: then it has room, since all numbers before
/// those of the bundle were handed over.
fn persist_bundle<M: Medium>(back: &mut Back<M>, taken: &OpenBundle) -> Result<(), Failed>
    requires may { MayHand taken.now back.old }
    ensures ok { OnOk result (Hands taken.now back.old back.new) }
    ensures sizes { (state_of back.new).log.sizes ≡ (state_of back.old).log.sizes }
    ensures err { OnErr result (Dies taken.now back.old back.new) }
{
    if persist(back, taken)? {
        return Ok(());
    }
    catch_up(back)?;
    if persist(back, taken)? {
        Ok(())
    } else {
        unreachable!()
    }
}

/// Persists the bundle of the records from an index on, as many as it takes. Answers the index behind them.
fn persist_from<M: Medium>(
    back: &mut Back<M>,
    rest: &[Posted],
    from: usize,
) -> Result<usize, Failed>
    requires may { MayGoOn rest.now from back.old }
    requires some { from < length rest.now }
    ensures end { IfOk result (λ end. (from < end) × (end ≤ length rest.now)) }
    ensures hands { IfOk result (λ end. HandsUpTo rest.now from end back.old back.new) }
    ensures sizes { (state_of back.new).log.sizes ≡ (state_of back.old).log.sizes }
    ensures err { OnErr result (DiesFrom rest.now from back.old back.new) }
{
    // The log is lawful, whatever the medium.
    let _durable = back.durable();
    let taken = OpenBundle::from(rest, from, back.cells());
    persist_bundle(back, &taken)?;
    Ok(taken.end)
}

/// Persists all records, in bundles of consecutive numbers.
pub(crate) fn persist_all<M: Medium>(back: &mut Back<M>, rest: &[Posted]) -> Result<(), Failed>
    requires may { MayGoOn rest.now 0 back.old }
    ensures ok { OnOk result (HandsUpTo rest.now 0 (length rest.now) back.old back.new) }
    ensures sizes { (state_of back.new).log.sizes ≡ (state_of back.old).log.sizes }
    ensures err { OnErr result (DiesFrom rest.now 0 back.old back.new) }
{
    let mut from = 0;
    while from < rest.len() {
        from = persist_from(back, rest, from)?;
    }
    Ok(())
}
