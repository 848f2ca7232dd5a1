//! A request is tried once.

ghost use Rattle.request_attempts.specs.AfterOnce.{AfterOnce};
ghost use Rattle.request_attempts.specs.MayTry.{MayTry};
ghost use Rattle.request_attempts.specs.Tries.{AfterFull, AfterOut, AfterStop, AfterTry, stop_for};
ghost use Rattle.std.specs.Prelude.{◌≡◌, ◌<◌, ℕ, true, false};
ghost use Rattle.stm_transactions.specs.Passes.{IsResting};
ghost use Rattle.tatp_model.specs.OneThread.{is_sync};

use crate::attempts::Attempts;
use crate::gate::Gate;
use crate::once::Once;
use crate::tried::Tried;
use crate::turn_fault::TurnFault;
use crate::turns::Turns;
use stm_transactions::begin::begin_in;
use stm_transactions::box_full::BoxFull;
use stm_transactions::box_rule::BoxRule;
use stm_transactions::lost::Lost;
use stm_transactions::pass::Pass;
use stm_transactions::rule::TransactionRule;
use tatp_core::run_request;
use tatp_model::done::Done;
use tatp_model::reply::Reply;
use tatp_model::request::Request;
use word_space::stop::Stop;

fn is_sync_request(q: &Request) -> bool
    ensures { result ≡ is_sync q.now }
{
    matches!(q, Request::Sync)
}

// The Stop whose consequences a commit has that was lost.
fn stop_of(lost: Lost) -> Stop
    ensures { result ≡ stop_for lost }
{
    match lost {
        Lost::Out { page } => Stop::Out { page },
        Lost::Busy { page, seen } => Stop::Busy { page, seen },
        Lost::Conflict {
            lock,
            seen,
            number: _,
        } => Stop::Conflict { lock, seen },
    }
}

impl<
    'a,
    S,
    X,
    K,
    P: TransactionRule<S, X, K> + BoxRule<S, X, K>,
    G: Gate,
    T: Turns<S, X, K, P>,
> Attempts<'a, S, X, K, P, G, T> {
    // A full box is followed by a pump.
    fn after_full(&self, p: &mut Pass<X>) -> Tried
        requires { IsResting self.now.stm.now.events p.old }
        ensures { AfterFull self.now.stm.now.events result p.old p.new }
    {
        match self.turns.pump(self.stm, p) {
            Ok(_) => Tried::Again,
            Err(TurnFault::Refused) => Tried::Again,
            Err(TurnFault::Fault) => Tried::Device,
        }
    }

    // A page that is out is fetched.
    fn after_out(&self, p: &mut Pass<X>, page: u64) -> Tried
        requires rests { IsResting self.now.stm.now.events p.old }
        requires page { page < self.now.stm.now.events.setup.pages }
        ensures { AfterOut self.now.stm.now.events page result p.old p.new }
    {
        match self.turns.fetch(self.stm, p, page) {
            Ok(()) => Tried::Again,
            Err(TurnFault::Refused) => Tried::Again,
            Err(TurnFault::Fault) => Tried::Device,
        }
    }

    // What follows a Stop.
    fn after_stop(&self, p: &mut Pass<X>, stop: Stop) -> Tried
        requires rests { IsResting self.now.stm.now.events p.old }
        requires inside { (page : ℕ) → stop ≡ Stop.Out page
            → page < self.now.stm.now.events.setup.pages }
        ensures { AfterStop self.now.stm.now.events stop result p.old p.new }
    {
        match stop {
            Stop::Out { page } => self.after_out(p, page),
            Stop::NoMemory => Tried::NoMemory,
            Stop::Conflict { lock: _, seen: _ } => Tried::Again,
            Stop::Busy { page: _, seen: _ } => Tried::Again,
            Stop::Wide => Tried::Again,
        }
    }

    // A try of a `SYNC`: it is good where the durable number is at least each of the pass.
    fn try_sync(&self, p: &mut Pass<X>, file: u64, index: u64, q: &Request) -> Tried
        requires rests { IsResting self.now.stm.now.events p.old }
        requires sync { is_sync q.now ≡ true }
        ensures { AfterTry self.now.stm.now.events self.now.lay.now file index q.now
            result p.old p.new }
    {
        match self.turns.pump(self.stm, p) {
            Ok(durable) if durable >= p.last() => Tried::Done(Done {
                file,
                index,
                number: durable,
                wrote: false,
                request: *q,
                reply: Reply::Durable,
            }),
            Ok(_) => Tried::Again,
            Err(TurnFault::Refused) => Tried::Again,
            Err(TurnFault::Fault) => Tried::Device,
        }
    }

    // Runs a request in one transaction, which passes the gate between its last read and its commit.
    fn run_once(&self, p: &mut Pass<X>, file: u64, index: u64, q: &Request) -> Once
        requires may { MayTry self.now.stm.now.events self.now.lay.now q.now p.old }
        requires no_sync { is_sync q.now ≡ false }
        ensures { AfterOnce self.now.stm.now.events self.now.lay.now file index q.now
            result p.old p.new }
    {
        match begin_in(p, self.stm) {
            Err(BoxFull { seen }) => Once::Full(seen),
            Ok(mut tx) => match run_request(self.lay, &mut tx, q) {
                Err(stop) => Once::Stopped(stop),
                Ok(reply) => {
                    self.gate.pass(file, index);
                    match tx.commit(file, index, q, &reply) {
                        Ok(done) => Once::Done(done),
                        Err(lost) => Once::Lost(lost),
                    }
                }
            },
        }
    }

    // A try of another request.
    fn try_transaction(&self, p: &mut Pass<X>, file: u64, index: u64, q: &Request) -> Tried
        requires may { MayTry self.now.stm.now.events self.now.lay.now q.now p.old }
        requires no_sync { is_sync q.now ≡ false }
        ensures { AfterTry self.now.stm.now.events self.now.lay.now file index q.now
            result p.old p.new }
    {
        match self.run_once(p, file, index, q) {
            Once::Done(done) => Tried::Done(done),
            Once::Full(_) => self.after_full(p),
            Once::Stopped(stop) => self.after_stop(p, stop),
            Once::Lost(lost) => self.after_stop(p, stop_of(lost)),
        }
    }

    /// Tries a request once. A full box is followed by a pump, a page that is out by its fetch, and a `SYNC` is a pump.
    pub fn try_once(&self, p: &mut Pass<X>, file: u64, index: u64, q: &Request) -> Tried
        requires may { MayTry self.now.stm.now.events self.now.lay.now q.now p.old }
        ensures { AfterTry self.now.stm.now.events self.now.lay.now file index q.now
            result p.old p.new }
    {
        if is_sync_request(q) {
            return self.try_sync(p, file, index, q);
        }
        self.try_transaction(p, file, index, q)
    }
}
