//! The tables of new subscribers, on words that threads share.

ghost use Rattle.core_events.specs.Setups.{IsSetup};
ghost use Rattle.dude_base.specs.declared.limits.TheConstants.{PAGE as PAGE_WORDS};
ghost use Rattle.std.specs.Prelude.{◌≡◌, ◌≤◌, ◌*◌, ◌^◌, All, IfSome, length};
ghost use Rattle.stm_transactions.specs.Passes.{IsResting};
ghost use Rattle.transaction_trial.specs.Fit.{AreTermsOf, IsFit, IsOpen};

use crate::counts::Counts;
use crate::job::Job;
use crate::loads::requests_of;
use crate::settings::Settings;
use crate::small::Small;
use core_table::stm::Stm;
use core_table::terms::Terms;
use dude_base::limits::{MAX_BOXES, MAX_LOCKS};
use dude_base::sizes::Sizes;
use std::alloc::Global;
use stm_transactions::descriptor::Descriptor;
use stm_transactions::pass::Pass;
use stm_transactions::rule::let_transact;
use tatp_layout::Layout;
use tatp_rows::populate;

/// The draws of each pass that is split off.
const DRAWS: u64 = 1 << 40;

/// The tables of new subscribers: where they stand, their words at the start, and the words that threads share.
#[derive(Drop)]
pub struct Place {
    pub lay: Layout,
    pub words: Vec<u64>,
    pub stm: Small,
}

/// Makes the tables of so many subscribers and the first pass, where there are such tables.
pub fn open_place(
    alloc: Global,
    subscribers: u64,
    threads: u64,
    locks: u64,
) -> Option<(Place, Pass<()>)>
    ensures { IfSome result (λ r. IsOpen r.0 r.1) }
{
    let calls = subscribers.checked_mul(12)?;
    let sizes = Sizes::of(subscribers, calls, threads, 16).ok()?;
    let lay = Layout::of(&sizes).ok()?;
    let words = populate(alloc, &lay).ok()?;
    let terms = terms_of(alloc, &lay, &words, locks)?;
    let (stm, pass) = share(alloc, &terms)?;
    Some((Place { lay, words, stm }, pass))
}

// With which sizes these words are shared, where there may be so many locks.
fn terms_of(alloc: Global, lay: &Layout, words: &[u64], locks: u64) -> Option<Terms>
    requires { length words.now ≡ lay.now.pages * PAGE_WORDS }
    ensures { IfSome result (AreTermsOf lay.now) }
{
    let sizes = lay.sizes();
    if locks == 0 || locks > MAX_LOCKS || sizes.pages > 1 << 32 {
        return None;
    }
    Some(Terms {
        threads: sizes.rings,
        locks,
        pages: sizes.pages,
        frames: sizes.pages,
        boxes: MAX_BOXES,
        opening: Vec::from_slice(alloc, words).ok()?,
        first: 0,
    })
}

// The words on a table that threads share, and the first pass.
fn share(alloc: Global, terms: &Terms) -> Option<(Small, Pass<()>)>
    requires setup { IsSetup terms.now }
    requires pages { terms.now.pages ≤ 2 ^ 32 }
    requires first { terms.now.first ≡ 0 }
    ensures rests { IfSome result (λ r. IsResting r.0.events r.1) }
    ensures pages { IfSome result (λ r. r.0.events.setup.pages ≡ terms.now.pages) }
{
    let (stm, seat) = Stm::new(alloc, terms, terms, Vec::new(alloc)).ok()?;
    let_transact(&stm);
    let descriptor = Descriptor::new(alloc).ok()?;
    let pass = Pass::first(&stm, seat, descriptor, 0);
    Some((stm, pass))
}

/// A job for each thread.
pub fn split_jobs(
    alloc: Global,
    place: &Place,
    pass: Pass<()>,
    settings: &Settings,
) -> Option<Vec<Job>>
    requires { IsResting place.now.stm.events pass }
    ensures { IfSome result (λ jobs. All (IsFit place.now.stm.events) jobs.items) }
{
    let_transact(&place.stm);
    let mut first = pass;
    let mut jobs = Vec::new(alloc);
    for file in 1..settings.threads {
        if first.left() < DRAWS {
            return None;
        }
        let Ok(pass) = first.split(&place.stm, alloc, DRAWS) else {
            return None;
        };
        let job = job_of(alloc, place, file, pass, settings)?;
        let Ok(()) = jobs.push(job) else {
            return None;
        };
    }
    let job = job_of(alloc, place, 0, first, settings)?;
    let Ok(()) = jobs.push(job) else {
        return None;
    };
    Some(jobs)
}

// The job of this file.
fn job_of(
    alloc: Global,
    _place: &Place,
    file: u64,
    pass: Pass<()>,
    settings: &Settings,
) -> Option<Job>
    requires { IsResting _place.now.stm.events pass }
    ensures { IfSome result (IsFit _place.now.stm.events) }
{
    let requests = requests_of(alloc, settings, file)?;
    let mut done = Vec::new(alloc);
    done.reserve(requests.len()).ok()?;
    Some(Job {
        file,
        pass,
        requests,
        done,
        counts: Counts::new(),
        apart: [0; 16],
    })
}
