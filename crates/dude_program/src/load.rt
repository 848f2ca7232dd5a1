//! The load of `drive`, and what an opened image refuses of it.

ghost use Rattle.dude_engine.specs.Requests.{AreInRange};
ghost use Rattle.dude_program.specs.Work.{AreOfLoad, EachIsFew, IsLoadFor, RefusesLoadFor};
ghost use Rattle.dude_recover.specs.Opened.{IsOpened};
ghost use Rattle.std.specs.Prelude.{◌≡◌, ◌<◌, ◌≤◌, ◌↔◌, length, All, IfOk, IfErr, IsTrue};
ghost use Rattle.tatp_model.specs.Files.{requests_in};
ghost use Rattle.tatp_model.specs.Request.{IsInRange};
ghost use Rattle.tatp_text.specs.Load.{IsLoad};

use crate::checks::{check_numbers, check_rings};
use command_edges::Fault;
use dude_recover::Opened;
use pmem_trait::Medium;
use std::alloc::{AllocError, Global};
use std::thread::{Threads, map_indices};
use tatp_model::Request;
use tatp_text::mix;

/// A load: its seed, how many random requests each file has, and how many files there are.
#[derive(Clone, Copy)]
pub struct Load {
    pub seed: u64,
    pub count: u64,
    pub files: u64,
}

// A file of a load, or no request where there was no memory for it: a file that is made has one at least.
fn mix_file(alloc: Global, subscribers: u64, load: &Load, file: u64) -> Vec<Request>
    requires one_of_files { file < load.now.files }
    requires each_has_one { load.now.files ≤ subscribers }
    requires limited { subscribers ≤ 10000 }
    requires few { load.now.count ≤ 99999 }
    ensures load { 0 < length result.items →
        IsLoad load.now.seed file load.now.files subscribers load.now.count result }
    ensures few { length result.items ≤ 100000 }
    ensures in_range { All IsInRange result.items }
{
    match mix(alloc, load.seed, file, load.files, subscribers, load.count) {
        Ok(list) => list,
        Err(AllocError) => Vec::new(alloc),
    }
}

// Whether each file was made.
fn are_made(lists: &[Vec<Request>]) -> bool
    ensures { IsTrue result ↔ All (λ list. 0 < length list.items) lists.now }
{
    lists.iter().all(|list| !list.is_empty())
}

/// The files of a load, each made on a thread of its own: so many random requests of each, and a `Sync`.
fn mix_files<R: Threads + Sync>(
    rt: &R,
    alloc: Global,
    subscribers: u64,
    load: &Load,
) -> Result<Vec<Vec<Request>>, AllocError>
    requires each_has_one { load.now.files ≤ subscribers }
    requires limited { subscribers ≤ 10000 }
    requires few { load.now.count ≤ 99999 }
    ensures load { IfOk result (AreOfLoad subscribers load.now) }
    ensures length { IfOk result (λ lists. length lists.items ≡ load.now.files) }
    ensures few { IfOk result (λ lists. EachIsFew (requests_in lists.items)) }
    ensures in_range { IfOk result (λ lists. AreInRange (requests_in lists.items)) }
{
    let lists = map_indices(
        rt,
        alloc,
        load.files as usize,
        &|file| mix_file(alloc, subscribers, load, file as u64),
    )?;
    if !are_made(&lists) {
        return Err(AllocError);
    }
    Ok(lists)
}

/// Makes a load over an opened image, unless it is refused: for more files than rings, for fewer subscribers than files, or
/// for numbers that may not be enough.
pub fn make_load<R: Threads + Sync, M: Medium>(
    rt: &R,
    alloc: Global,
    opened: &Opened<M>,
    load: &Load,
) -> Result<Vec<Vec<Request>>, Fault>
    requires opened { IsOpened opened.now }
    requires count { load.now.count ≤ 99999 }
    requires files { load.now.files ≤ 16 }
    ensures made { IfOk result (IsLoadFor opened.now.sizes opened.now.number load.now) }
    ensures err { IfErr result (RefusesLoadFor opened.now.sizes opened.now.number load.now) }
{
    check_rings(load.files, opened.sizes.rings)?;
    let subscribers = opened.sizes.subscribers;
    if subscribers < load.files {
        return Err(Fault::FewSubscribers {
            subscribers,
            files: load.files,
        });
    }
    let Ok(lists) = mix_files(rt, alloc, subscribers, load) else {
        return Err(Fault::Memory);
    };
    check_numbers(opened.number, &lists)?;
    Ok(lists)
}
