//! A request is served: it is tried until a try is good.

ghost use Rattle.request_attempts.specs.Counting.{IsUnder, PATIENCE, RisesBy};
ghost use Rattle.request_attempts.specs.MayTry.{MayServe};
ghost use Rattle.request_attempts.specs.Tries.{IsGivenUp, IsServing, IsUnserved};
ghost use Rattle.request_attempts.specs.declared.unserved.Unserved.TheVariants.{Refused as RefusedOf, Device as DeviceOf};
ghost use Rattle.std.specs.Prelude.{◌≡◌, ◌+◌, ◌<◌, ◌≤◌, ◌↔◌, true, IfOk, IfErr, IsErrOf, MatchBool};
ghost use Rattle.stm_transactions.specs.Passes.{IsResting};

use crate::attempts::Attempts;
use crate::gate::Gate;
use crate::tried::Tried;
use crate::turns::Turns;
use crate::unserved::Unserved;
use core_table::stm::Stm;
use std::hint::spin_loop;
use std::thread::yield_now;
use stm_transactions::box_rule::BoxRule;
use stm_transactions::pass::Pass;
use stm_transactions::rule::TransactionRule;
use tatp_layout::Layout;
use tatp_model::done::Done;
use tatp_model::request::Request;

/// How many tries are made before the processor is left to others.
const SPINS: u64 = 64;

// Whether a request was refused so often that it is given up. A turn that another thread has is a refusal too, and that
// thread may have to wait for its medium.
fn is_given_up(before: u64, now: u64) -> bool
    requires { before ≤ now }
    ensures { MatchBool result (RisesBy PATIENCE before now) (IsUnder PATIENCE before now) }
{
    now - before >= 1_000_000 || now == u64::MAX
}

// Whether a request drew so many numbers in vain that it is given up.
fn is_drawn_out(room: u64, left: u64) -> bool
    requires { left ≤ room }
    ensures { MatchBool result (left + 64 ≤ room) (room < left + 64) }
{
    room - left >= 64
}

// Lets others get on before the next try: at first for a moment, and later by the processor, which the thread with the turn may
// need.
fn give_way(attempt: u64) {
    if attempt < SPINS {
        spin_loop();
    } else {
        yield_now();
    }
}

/// Serves a request: tries it until a try is good, or it drew 64 numbers in vain, or it was refused a million times.
#[tactic(auto, using(crate::proofs::Serving::tried_none, crate::proofs::Serving::tried_on, crate::proofs::Serving::may_try, crate::proofs::Serving::never))]
pub fn serve_one<
    S,
    X,
    K,
    P: TransactionRule<S, X, K> + BoxRule<S, X, K>,
    T: Turns<S, X, K, P>,
    G: Gate,
>(
    stm: &Stm<S, X, K, P>,
    turns: &T,
    p: &mut Pass<X>,
    lay: &Layout,
    file: u64,
    index: u64,
    q: &Request,
    gate: &G,
) -> Result<Done, Unserved>
    requires may { MayServe stm.now.events lay.now q.now p.old }
    ensures rests { IsResting stm.now.events p.new }
    ensures ok { IfOk result
        (IsServing 65 stm.now.events lay.now file index q.now p.old p.new) }
    ensures err { IfErr result (λ e. IsUnserved 65 stm.now.events p.old p.new) }
    ensures refused { IsErrOf result RefusedOf → IsGivenUp stm.now.events p.old p.new }
    ensures device { IsErrOf result DeviceOf ↔ (p.new.numbers.met_fault ≡ true) }
{
    let attempts = Attempts {
        stm,
        lay,
        gate,
        turns,
    };
    let before = p.refused();
    let room = p.left();
    for attempt in 0..2_000_001u64 {
        match attempts.try_once(p, file, index, q) {
            Tried::Done(done) => return Ok(done),
            Tried::Device => return Err(Unserved::Device),
            Tried::NoMemory => return Err(Unserved::NoMemory),
            Tried::Again => give_way(attempt),
        }
        if is_drawn_out(room, p.left()) {
            return Err(Unserved::Refused);
        }
        if is_given_up(before, p.refused()) {
            return Err(Unserved::Refused);
        }
    }
    Err(Unserved::Refused)
}
