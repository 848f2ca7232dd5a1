//! A run of two files on threads, of which one is held up until the other has passed.

ghost use Rattle.dude_base.specs.Run.{IsRunWithin};
ghost use Rattle.std.specs.Prelude.{◌≡◌, [], ◌∷◌, IfSome};
ghost use Rattle.tatp_model.specs.declared.request.Request.TheVariants.{UpdateLocation};

use crate::image::new_image;
use crate::meeting_gate::MeetingGate;
use dude_base::limits::{DEFAULT_BOXES, DEFAULT_LOCKS};
use dude_base::run::Run;
use dude_base::sizes::Sizes;
use dude_engine::Ran;
use pmem_fake::MemPmem;
use run_threads::threaded;
use std::alloc::Global;
use std::thread::Threads;
use tatp_model::Request;

/// What a run left whose first file was held up.
#[derive(Drop)]
pub struct Held {
    /// The home of the image on which it began.
    pub home: Vec<u64>,
    pub ran: Ran<MemPmem>,
    /// Whether the second file passed the gate while the first one was held up.
    pub was_met: bool,
}

/// Runs two files over a new image of these sizes, each on a thread of its own: an update of subscriber 1, which is held up at
/// the gate until the one of subscriber 2 has passed it. There is nothing where there is no such image, or only one ring.
pub fn run_held<R: Threads + Sync>(threads: &R, alloc: Global, sizes: &Sizes) -> Option<Held> {
    let opened = new_image(alloc, sizes)?;
    if opened.sizes.rings < 2 {
        return None;
    }
    let home = opened.words.to_vec(alloc).ok()?;
    let first = update_of(alloc, 1, 7)?;
    let second = update_of(alloc, 2, 8)?;
    let files = [first, second];
    let run = run_over(opened.sizes.pages);
    let gate = MeetingGate::new();
    let ran = threaded(threads, alloc, opened, &run, &files, &gate);
    Some(Held {
        home,
        ran,
        was_met: gate.was_met(),
    })
}

/// A file with one update: the subscriber with this phone number is at this place.
fn update_of(alloc: Global, sub_nbr: u64, vlr: u64) -> Option<Vec<Request>>
    ensures { IfSome result (λ requests. requests.items ≡ UpdateLocation sub_nbr vlr ∷ []) }
{
    match vec![in alloc; Request::UpdateLocation { sub_nbr, vlr }] {
        Ok(requests) => Some(requests),
        Err(_) => None,
    }
}

/// What the threads share: each of so many pages is in memory, and there are as many locks and boxes as where nothing is said.
fn run_over(pages: u64) -> Run
    ensures { IsRunWithin pages result }
{
    Run {
        frames: pages,
        locks: DEFAULT_LOCKS,
        boxes: DEFAULT_BOXES,
    }
}
