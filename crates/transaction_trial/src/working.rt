//! A thread's work: its requests, each tried until it is done.

ghost use Rattle.request_attempts.specs.AfterOnce.{AfterOnce};
ghost use Rattle.request_attempts.specs.MayTry.{MayTry};
ghost use Rattle.std.specs.Prelude.{◌≡◌, false, All, IfSome};
ghost use Rattle.stm_transactions.specs.Passes.{IsResting};
ghost use Rattle.tatp_model.specs.OneThread.{is_sync};
ghost use Rattle.tatp_model.specs.Request.{IsInRange};
ghost use Rattle.transaction_trial.specs.Fit.{IsFit, IsReady};

use crate::counts::Counts;
use crate::job::Job;
use crate::place::Place;
use crate::turn::drop_records;
use request_attempts::once::Once;
use stm_transactions::begin::begin_in;
use stm_transactions::box_full::BoxFull;
use stm_transactions::lost::Lost;
use stm_transactions::pass::Pass;
use tatp_core::run_request;
use tatp_model::done::Done;
use tatp_model::request::Request;
use word_space::stop::Stop;

/// Does a job's requests but the `SYNC`, one after another.
pub fn work(place: &Place, job: &mut Job)
    requires ready { IsReady place.now }
    requires fit { IsFit place.now.stm.events job.old }
    ensures { IsFit place.now.stm.events job.new }
{
    for index in 0..job.requests.len() {
        let Some(request) = request_at(&job.requests, index) else {
            return;
        };
        let asked = Asked {
            file: job.file,
            index: index as u64,
            request: &request,
        };
        let Some(done) = serve(place, &mut job.pass, &asked, &mut job.counts) else {
            return;
        };
        if job.done.push(done).is_err() {
            return;
        }
        job.counts.done = job.counts.done.wrapping_add(1);
        job.counts.wrote = job.counts.wrote.wrapping_add(u64::from(done.wrote));
    }
}

// The request at this place, where it is there and no `SYNC`.
fn request_at(requests: &[Request], index: usize) -> Option<Request>
    requires { All IsInRange requests.now }
    ensures in_range { IfSome result IsInRange }
    ensures no_sync { IfSome result (λ q. is_sync q ≡ false) }
{
    match requests.get(index) {
        Some(Request::Sync) => None,
        Some(request) => Some(*request),
        None => None,
    }
}

// A request, and where it stands.
#[derive(Clone, Copy)]
struct Asked<'a> {
    file: u64,
    index: u64,
    request: &'a Request,
}

// Tries a request until it is done. There is nothing where memory or a draw is wanting.
fn serve(place: &Place, p: &mut Pass<()>, asked: &Asked, counts: &mut Counts) -> Option<Done>
    requires ready { IsReady place.now }
    requires rests { IsResting place.now.stm.events p.old }
    requires in_range { IsInRange asked.now.request.now }
    requires no_sync { is_sync asked.now.request.now ≡ false }
    ensures rests { IsResting place.now.stm.events p.new }
    ensures in_range { IfSome result (λ d. IsInRange d.request) }
{
    for _ in 0..u64::MAX {
        if p.left() == 0 {
            return None;
        }
        match run_counted(place, p, asked, counts) {
            Once::Done(done) => return Some(done),
            Once::Stopped(Stop::NoMemory) => return None,
            Once::Full(_) => {
                counts.full = counts.full.wrapping_add(1);
                drop_records(&place.stm, p);
            }
            Once::Lost(Lost::Conflict { .. }) => counts.void = counts.void.wrapping_add(1),
            _ => counts.refused = counts.refused.wrapping_add(1),
        }
    }
    None
}

// Runs a request in one transaction, and counts it where its snapshot was extended.
fn run_counted(place: &Place, p: &mut Pass<()>, asked: &Asked, counts: &mut Counts) -> Once
    requires may { MayTry place.now.stm.events place.now.lay asked.now.request.now p.old }
    requires no_sync { is_sync asked.now.request.now ≡ false }
    ensures { AfterOnce place.now.stm.events place.now.lay asked.now.file asked.now.index
        asked.now.request.now result p.old p.new }
{
    match begin_in(p, &place.stm) {
        Err(BoxFull { seen }) => Once::Full(seen),
        Ok(mut tx) => {
            let snapshot = tx.snapshot();
            match run_request(&place.lay, &mut tx, asked.request) {
                Err(stop) => Once::Stopped(stop),
                Ok(reply) => {
                    if tx.snapshot() != snapshot {
                        counts.extended = counts.extended.wrapping_add(1);
                    }
                    match tx.commit(asked.file, asked.index, asked.request, &reply) {
                        Ok(done) => Once::Done(done),
                        Err(lost) => Once::Lost(lost),
                    }
                }
            }
        }
    }
}
