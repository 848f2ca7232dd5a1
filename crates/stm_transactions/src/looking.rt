//! A lock is looked at, and the snapshot extended where that is needed.

ghost use Rattle.core_table.specs.Steps.{BelongsTo};
ghost use Rattle.std.specs.Prelude.{◌<◌, ◌≤◌, length, IfOk, IfErr, MatchBool};
ghost use Rattle.stm_transactions.specs.Looks.{EndsAtNewLock, Extends, FailsToExtend, FailsToLook, HasNewLock, IsReading, LooksAt, RepeatFrom, RepeatsLock};
ghost use Rattle.stm_transactions.specs.Seats.{OutlastsReading, Stays};

use crate::bad_lock::BadLock;
use crate::good_look::GoodLook;
use crate::good_word::is_good_word;
use core_table::event_table::Seat;
use core_table::slot_rule::SlotRule;
use core_table::stm::Stm;

/// The use of a look: a word is read.
pub struct ForRead;

/// The use of a look: the lock is to be owned.
pub struct ForOwn;

// Whether a read before has the lock of this one.
fn repeats_lock(reads: &[(u64, u64)], k: usize, locks: u64) -> bool
    requires { (k < length reads.now) × (0 < locks) }
    ensures { MatchBool result (RepeatsLock locks reads.now k) (HasNewLock locks reads.now k) }
{
    let lock = reads[k].0 % locks;
    for j in 0..k {
        if reads[j].0 % locks == lock {
            return true;
        }
    }
    false
}

// How many reads there are up to the last one that has a lock which none before it has.
fn up_to_last_lock(reads: &[(u64, u64)], locks: u64) -> usize
    requires { 0 < locks }
    ensures inside { result ≤ length reads.now }
    ensures last { EndsAtNewLock locks reads.now result }
    ensures behind { RepeatFrom locks reads.now result }
{
    let count = reads.len();
    for behind in 0..count {
        let k = count - 1 - behind;
        if !repeats_lock(reads, k, locks) {
            return k + 1;
        }
    }
    0
}

/// Extends the snapshot to the clock, where each lock of the reads is good. The extension ends with the check of the last lock,
/// so the reads behind it are left out.
#[tactic(auto, using(crate::proofs::Extending::extend_may, crate::proofs::Extending::extending_none))]
pub fn extend_all<S, X, K, P: SlotRule<S, X, K>>(
    stm: &Stm<S, X, K, P>,
    seat: &mut Seat<S, X>,
    thread: u64,
    snapshot: u64,
    reads: &[(u64, u64)],
) -> Result<u64, BadLock>
    requires seat { BelongsTo stm.now.events seat.old }
    requires slots { OutlastsReading P.fact stm.now.events }
    requires reading { IsReading thread snapshot reads.now seat.old.me.0.view }
    ensures stays { Stays stm.now.events seat.old seat.new }
    ensures ok { IfOk result (Extends stm.now.events seat.old seat.new) }
    ensures err { IfErr result
        (FailsToExtend thread snapshot reads.now stm.now.events seat.old seat.new) }
{
    let locks = stm.events.locks();
    let n = stm.extend(seat);
    let count = up_to_last_lock(reads, locks);
    for k in 0..count {
        let lock = reads[k].0 % locks;
        let seen = stm.check(seat, lock);
        if !is_good_word(thread, snapshot, seen) {
            return Err(BadLock { lock, seen });
        }
    }
    Ok(n)
}

/// Looks at a lock, and extends the snapshot where the lock's version is over it. `U` is the use of the look. The compiler makes
/// one for each use, and builds it in there, which is faster than a call.
pub fn look_at<U, S, X, K, P: SlotRule<S, X, K>>(
    stm: &Stm<S, X, K, P>,
    seat: &mut Seat<S, X>,
    thread: u64,
    snapshot: u64,
    lock: u64,
    reads: &[(u64, u64)],
) -> Result<GoodLook, BadLock>
    requires inside { lock < stm.now.events.setup.locks }
    requires seat { BelongsTo stm.now.events seat.old }
    requires slots { OutlastsReading P.fact stm.now.events }
    requires reading { IsReading thread snapshot reads.now seat.old.me.0.view }
    ensures stays { Stays stm.now.events seat.old seat.new }
    ensures ok { IfOk result (LooksAt thread lock seat.old seat.new) }
    ensures err { IfErr result
        (FailsToLook thread snapshot reads.now lock stm.now.events seat.old seat.new) }
{
    let seen = stm.look(seat, lock);
    if is_good_word(thread, snapshot, seen) {
        return Ok(GoodLook { seen, snapshot });
    }
    if seen % 2 == 1 {
        return Err(BadLock { lock, seen });
    }
    let snapshot = extend_all(stm, seat, thread, snapshot, reads)?;
    Ok(GoodLook { seen, snapshot })
}
