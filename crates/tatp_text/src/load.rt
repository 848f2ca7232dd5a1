//! Generated request files.

ghost use Rattle.std.specs.Prelude.{◌≡◌, ◌<◌, ◌≤◌, ◌+◌, length, IfOk};
ghost use Rattle.tatp_text.specs.Load.{IsLoad, AreInRange};

use crate::draws::Draws;
use rand_pcg::Lcg64Xsh32;
use std::alloc::{AllocError, Global};
use tatp_model::Request;

/// File `file` of `files`, counted from 0: `count` random requests, and a `Sync`. Each file has subscribers of its own.
pub fn mix(
    alloc: Global,
    seed: u64,
    file: u64,
    files: u64,
    subscribers: u64,
    count: u64,
) -> Result<Vec<Request>, AllocError>
    requires one_of_files { file < files }
    requires each_has_one { files ≤ subscribers }
    requires few { count ≤ 99999 }
    ensures load { IfOk result (IsLoad seed file files subscribers count) }
    ensures count { IfOk result (λ requests. length requests.items ≡ count + 1) }
    ensures ranges { subscribers ≤ 4294967295 → IfOk result AreInRange }
{
    let each = subscribers / files;
    let mut generator = Lcg64Xsh32::new(seed, file);
    let mut requests = Vec::with_capacity(alloc, count as usize + 1)?;
    for _request in 0..count {
        let draws = Draws::take(&mut generator);
        let subscriber = draws.subscriber_of(file, files, each);
        requests.push(draws.request(subscriber))?;
    }
    requests.push(Request::Sync)?;
    Ok(requests)
}
