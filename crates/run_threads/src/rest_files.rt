//! What threads left of files.

ghost use Rattle.dude_base.specs.declared.limits.TheConstants.{MAX_NUMBER};
ghost use Rattle.dude_engine.specs.Requests.{request_count};
ghost use Rattle.run_threads.specs.Parts.{AreInParts, AreRests};
ghost use Rattle.std.specs.Prelude.{◌≡◌, ◌+◌, ◌≤◌, IfOk, OnOk, drop, length, map, vec_capacity, vec_len};

use std::alloc::{AllocError, Global};
use tatp_model::{Done, Request};

/// What is left of each file.
pub(crate) fn left_of_files(
    alloc: Global,
    files: &[Vec<Request>],
    counts: &[u64],
) -> Result<Vec<Vec<Request>>, AllocError>
    requires { AreInParts (map (λ f. f.items) files.now) counts.now }
    ensures { IfOk result (λ rests.
        AreRests (map (λ f. f.items) files.now) counts.now (map (λ f. f.items) rests.items)) }
{
    let mut rests = Vec::with_capacity(alloc, files.len())?;
    for file in 0..files.len() {
        let rest = left_of_file(alloc, &files[file], counts[file])?;
        rests.push_reserved(rest);
    }
    Ok(rests)
}

/// What is left of a file behind its first requests.
fn left_of_file(alloc: Global, requests: &[Request], count: u64) -> Result<Vec<Request>, AllocError>
    requires { count ≤ length requests.now }
    ensures { IfOk result (λ rest. rest.items ≡ drop count requests.now) }
{
    Vec::from_slice(alloc, &requests[count as usize..])
}

/// Takes room for what will be done of the rests.
pub(crate) fn reserve(done: &mut Vec<Done>, rests: &[Vec<Request>]) -> Result<(), AllocError>
    requires { request_count (map (λ f. f.items) rests.now) ≤ MAX_NUMBER }
    ensures items { done.new.items ≡ done.old.items }
    ensures room { OnOk result (vec_len done.new + request_count (map (λ f. f.items) rests.now)
        ≤ vec_capacity done.new) }
{
    let mut count = 0;
    for requests in rests {
        count += requests.len();
    }
    done.reserve_exact(count)
}
