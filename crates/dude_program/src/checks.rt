//! What an opened image refuses of a run: too many files, frames out of their limits, too few numbers.

ghost use Rattle.dude_base.specs.declared.limits.TheConstants.{MAX_NUMBER};
ghost use Rattle.dude_engine.specs.Requests.{HasNumbersFor, request_count};
ghost use Rattle.dude_program.specs.Work.{AllowsFrames, EachIsFew, HasFewNumbers, HasManyFiles, RefusesFiles, RefusesFrames};
ghost use Rattle.dude_recover.specs.Opened.{IsOpened};
ghost use Rattle.std.specs.Prelude.{◌≡◌, ◌≤◌, length, OnOk, IfErr};
ghost use Rattle.tatp_model.specs.Files.{requests_in};

use command_edges::Fault;
use dude_base::limits::{MAX_NUMBER, MIN_FRAMES};
use dude_recover::Opened;
use pmem_trait::Medium;
use tatp_model::Request;

/// Refuses more files than rings.
pub fn check_rings(files: u64, rings: u64) -> Result<(), Fault>
    ensures ok { OnOk result (files ≤ rings) }
    ensures err { IfErr result (HasManyFiles files rings) }
{
    if files > rings {
        return Err(Fault::ManyFiles { files, rings });
    }
    Ok(())
}

/// Refuses frames out of their limits; without a word about them there are as many as pages.
pub fn check_frames(frames: Option<u64>, pages: u64) -> Result<(), Fault>
    ensures ok { OnOk result (AllowsFrames frames pages) }
    ensures err { IfErr result (RefusesFrames frames pages) }
{
    match frames {
        Some(frames) if frames > pages || frames < MIN_FRAMES.min(pages) => {
            Err(Fault::Frames { frames, pages })
        }
        _ => Ok(()),
    }
}

// How many requests there are in all.
fn count_requests(files: &[Vec<Request>]) -> u64
    requires files { length files.now ≤ 16 }
    requires few { EachIsFew (requests_in files.now) }
    ensures total { result ≡ request_count (requests_in files.now) }
    ensures small { result ≤ 1600000 }
{
    let mut count = 0;
    for file in files {
        count += file.len() as u64;
    }
    count
}

/// Refuses requests for which the numbers may not be enough.
pub fn check_numbers(number: u64, files: &[Vec<Request>]) -> Result<(), Fault>
    requires small { number ≤ MAX_NUMBER }
    requires files { length files.now ≤ 16 }
    requires few { EachIsFew (requests_in files.now) }
    ensures ok { OnOk result (HasNumbersFor number (requests_in files.now)) }
    ensures err { IfErr result (HasFewNumbers number (requests_in files.now)) }
{
    let requests = count_requests(files);
    if number + 65 * requests > MAX_NUMBER {
        return Err(Fault::Numbers { number, requests });
    }
    Ok(())
}

/// Refuses a run of these files over the opened image: for more files than rings, for frames out of their limits, or for
/// numbers that may not be enough.
pub fn check_run<M: Medium>(
    opened: &Opened<M>,
    frames: Option<u64>,
    files: &[Vec<Request>],
) -> Result<(), Fault>
    requires opened { IsOpened opened.now }
    requires few { EachIsFew (requests_in files.now) }
    ensures rings { OnOk result (length files.now ≤ opened.now.sizes.rings) }
    ensures frames { OnOk result (AllowsFrames frames opened.now.sizes.pages) }
    ensures numbers { OnOk result (HasNumbersFor opened.now.number (requests_in files.now)) }
    ensures err { IfErr result (RefusesFiles frames opened.now.sizes opened.now.number files.now) }
{
    check_rings(files.len() as u64, opened.sizes.rings)?;
    if let Err(fault) = check_frames(frames, opened.sizes.pages) {
        return Err(fault);
    }
    check_numbers(opened.number, files)
}
