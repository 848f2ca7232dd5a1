//! The requests of files, run on one thread.

ghost use Rattle.back_store.specs.BackView.{sight_of};
ghost use Rattle.dude_engine.specs.OneThread.{RunsFiles, RunsOnOneThread};
ghost use Rattle.dude_engine.specs.Opening.{Opening};
ghost use Rattle.dude_engine.specs.Plain.{IsOpeningOf};
ghost use Rattle.dude_engine.specs.Requests.{AreInRange, HasNumberEach};
ghost use Rattle.dude_engine.specs.Running.{end_by};
ghost use Rattle.dude_engine.specs.Shipping.{KeepsUp, Ships};
ghost use Rattle.dude_engine.specs.declared.ran.RanEnd.TheVariants.{Whole};
ghost use Rattle.dude_recover.specs.Opened.{IsOpened};
ghost use Rattle.log_numbered.specs.KeptBundles.{are_kept, kept_bundles};
ghost use Rattle.redo_record.specs.Recovery.{AreConsecutive};
ghost use Rattle.std.specs.Prelude.{◌≡◌, ◌≤◌, [], length, map};

use crate::ran::{Ran, RanEnd};
use crate::run::Run;
use crate::run_fault::RunFault;
use crate::shipping::Shipped;
use dude_recover::Opened;
use log_numbered::{KeptBundles, RunLog};
use pmem_trait::Medium;
use run_order::put_in_files;
use std::alloc::Global;
use tatp_model::Request;
use word_space::flat::Flat;

/// Runs the requests of files on one thread: request 0 of each file in the files' order, then request 1 of each, and so on.
/// Updates are persisted in bundles of at most 256 numbers, each in the ring of the file of its first one; a `SYNC` persists
/// the open bundle and announces. At the end all is persisted, announced and reproduced. Where the medium failed or there was
/// no memory, the records of the open bundle aren't persisted.
pub fn plain<M: Medium>(alloc: Global, opened: Opened<M>, files: &[Vec<Request>]) -> Ran<M>
    requires opened { IsOpened opened }
    requires rings { length files.now ≤ opened.sizes.rings }
    requires in_range { AreInRange (map (λ f. f.items) files.now) }
    requires numbers { HasNumberEach opened.number (map (λ f. f.items) files.now) }
    ensures { RunsOnOneThread opened (map (λ f. f.items) files.now) result }
{
    let shipped = run_files(alloc, opened, files, KeptBundles::none(alloc));
    shipped.ran
}

/// Runs the requests of files as `plain` does, and gives the bundles that it persisted as well: packets for followers, who come
/// by them to each database of the run at the last number of a packet. Where the medium failed or there was no memory, they
/// are the first ones of those of the whole run.
pub fn shipped<M: Medium>(alloc: Global, opened: Opened<M>, files: &[Vec<Request>]) -> Shipped<M>
    requires opened { IsOpened opened }
    requires rings { length files.now ≤ opened.sizes.rings }
    requires in_range { AreInRange (map (λ f. f.items) files.now) }
    requires numbers { HasNumberEach opened.number (map (λ f. f.items) files.now) }
    ensures runs { RunsOnOneThread opened (map (λ f. f.items) files.now) result.ran }
    ensures packets { (opening : Opening) → IsOpeningOf opened opening
        → Ships opening opened.words.items result.ran.done.items result.packets.items }
    ensures persisted { (opening : Opening) → IsOpeningOf opened opening
        → KeepsUp opening opened.words.items result.ran.done.items result.packets.items
        (sight_of opened.back) (M.sight result.ran.medium) }
    ensures whole { result.ran.end ≡ Whole
        → AreConsecutive opened.number result.packets.items result.ran.last }
{
    run_files(alloc, opened, files, KeptBundles::new(alloc))
}

// Runs the requests of files, and keeps the bundles persisted or doesn't.
fn run_files<M: Medium>(
    alloc: Global,
    opened: Opened<M>,
    files: &[Vec<Request>],
    packets: KeptBundles,
) -> Shipped<M>
    requires opened { IsOpened opened }
    requires rings { length files.now ≤ opened.sizes.rings }
    requires in_range { AreInRange (map (λ f. f.items) files.now) }
    requires numbers { HasNumberEach opened.number (map (λ f. f.items) files.now) }
    requires none { kept_bundles packets ≡ [] }
    ensures { RunsFiles opened (map (λ f. f.items) files.now) (are_kept packets) result.ran
        result.packets.items }
{
    let number = opened.number;
    let mut run = Run {
        log: RunLog::new(opened.back, number),
        lay: opened.lay,
        words: Flat::new(opened.words),
        done: Vec::new(alloc),
        packets,
    };
    let served = run.run_all(files);
    put_in_files(&mut run.done);
    let last = run.log.durable();
    let ran = Ran {
        done: run.done,
        medium: run.log.into_medium(),
        end: end_of(served),
        last,
    };
    Shipped {
        ran,
        packets: run.packets.into_list(),
    }
}

// How a run ended.
fn end_of(served: Result<(), RunFault>) -> RanEnd
    ensures { result ≡ end_by served }
{
    match served {
        Ok(()) => RanEnd::Whole,
        Err(RunFault::Device) => RanEnd::Device,
        Err(RunFault::NoMemory) => RanEnd::NoMemory,
    }
}
