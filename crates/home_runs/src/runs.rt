//! Runs of request files over the image of a home on a medium in memory.

ghost use Rattle.dude_engine.specs.Requests.{AreInRange, HasNumbersFor};
ghost use Rattle.dude_recover.specs.Opened.{IsOpened};
ghost use Rattle.std.specs.Prelude.{◌≤◌, All, length, map};
ghost use Rattle.tatp_model.specs.Request.{IsInRange};

use crate::home::{LOCATION, done_at};
use crate::images::{image_with, medium_of, say_heads};
use crate::page::Page;
use dude_base::limits::VERSION;
use dude_engine::{Ran, RanEnd, plain};
use dude_recover::{Opened, open};
use image_recovery::image_of;
use pmem_fake::MemPmem;
use pmem_trait::Medium;
use run_order::put_in_files;
use std::alloc::Global;
use tatp_csv::read_requests;
use tatp_layout::Layout;
use tatp_model::{Reply, Request};
use tatp_text::write_request;

/// The location of subscriber 1 in a new database.
const NEW_LOCATION: u64 = 1_000_001;

/// The texts of two request files.
#[derive(Drop)]
pub struct Files {
    /// The text of the first file.
    pub first: Vec<u8>,
    second: Vec<u8>,
}

impl Files {
    /// Two empty files.
    pub fn new(alloc: Global) -> Files {
        Files {
            first: Vec::new(alloc),
            second: Vec::new(alloc),
        }
    }

    /// Appends updates of locations to the first file, one for each number from `first` to `last`: of subscriber 1 to that
    /// location, or, where `of_all` says so, of that subscriber to location 7.
    pub fn append_updates(&mut self, first: u64, last: u64, of_all: bool, page: &mut Page) {
        for number in first..last.saturating_add(1).min(100_000) {
            let (sub_nbr, vlr) = if of_all { (number, 7) } else { (1, number) };
            if write_request(&Request::UpdateLocation { sub_nbr, vlr }, &mut self.first).is_err() {
                page.cut();
            }
        }
    }

    /// Appends requests to the first or to the second file.
    pub fn append(&mut self, file: &str, requests: &[&str], page: &mut Page) {
        let text = match file {
            "first" => &mut self.first,
            "second" => &mut self.second,
            _ => return page.line("no command"),
        };
        for request in requests {
            if text.extend_from_slice(request.as_bytes()).is_err() || text.push(b'\n').is_err() {
                page.cut();
            }
        }
    }

    /// Runs the files over the image of a home. The call on the medium of the count `fail`, from 1 on, fails. `None` where they
    /// can't be run.
    fn run(&self, alloc: Global, lay: &Layout, words: &[u64], fail: u64) -> Option<Ran<MemPmem>> {
        let Ok(first) = read_requests(alloc, &self.first) else {
            return None;
        };
        let Ok(second) = read_requests(alloc, &self.second) else {
            return None;
        };
        let Ok(image) = image_with(alloc, lay, words, VERSION, &[]) else {
            return None;
        };
        let Ok(medium) = medium_of(alloc, image, fail) else {
            return None;
        };
        match open(alloc, medium) {
            Ok(opened) => {
                let files = files_for(alloc, &opened, first, second);
                Some(plain(alloc, opened, &files))
            }
            Err(_) => None,
        }
    }

    /// Runs the files, and prints how the run ended and what is done.
    pub fn say_run(&self, alloc: Global, lay: &Layout, words: &[u64], page: &mut Page) {
        let Some(ran) = self.run(alloc, lay, words, 0) else {
            return page.line("not run");
        };
        let end = match ran.end {
            RanEnd::Whole => "whole, last and told",
            RanEnd::Device => "failed device, last and told",
            RanEnd::NoMemory => "no memory, last and told",
        };
        page.numbers(end, &[ran.last, ran.medium.told().unwrap_or(0)]);
        for done in &ran.done {
            page.put(if done.wrote { b"wrote" } else { b"read" });
            page.put_numbers(&[done.file, done.index]);
            page.put(b": ");
            page.done(done);
        }
    }

    /// Runs the files, takes the images that a crash may leave at every so many moments, with the settled words and with the
    /// first later ones, and prints whether each is that of a run of updates up to the last number.
    pub fn say_images(
        &self,
        alloc: Global,
        lay: &Layout,
        words: &[u64],
        every: u64,
        last: u64,
        page: &mut Page,
    ) {
        let Some(ran) = self.run(alloc, lay, words, 0) else {
            return page.line("not run");
        };
        let Ok(ones) = vec![in alloc; 1; ran.medium.content().len()] else {
            return page.cut();
        };
        for moment in (0..ran.medium.now().saturating_add(1)).step_by(every.max(1) as usize) {
            if !is_of_updates(alloc, &ran.medium, moment, &[], last)
                || !is_of_updates(alloc, &ran.medium, moment, &ones, last)
            {
                return page.numbers("another image at moment", &[moment]);
            }
        }
        page.line("each image recovers");
    }

    /// Runs the files, and prints how many calls on the medium the run made, its last number, and the bundles whose heads stand in
    /// the rings then: of each the ring and the cell, its first number and its last, and how many writes it has.
    pub fn say_bundles(&self, alloc: Global, lay: &Layout, words: &[u64], page: &mut Page) {
        let (Some(ran), Some(idle)) = (
            self.run(alloc, lay, words, 0),
            Files::new(alloc).run(alloc, lay, words, 0),
        ) else {
            return page.line("not run");
        };
        // A run without requests makes one call: it tells its number.
        let calls = ran
            .medium
            .now()
            .saturating_sub(idle.medium.now())
            .saturating_add(1);
        page.numbers("calls and last", &[calls, ran.last]);
        say_heads(lay, ran.medium.content(), page);
    }

    /// Runs the files once for every so many of the last calls, each of which fails in turn, and prints how many of these runs
    /// end there and leave the image of a run of updates up to the last number. The numbers are how many calls are the last
    /// ones, the count of calls, and the last number.
    pub fn say_failing(
        &self,
        alloc: Global,
        lay: &Layout,
        words: &[u64],
        numbers: &[u64],
        page: &mut Page,
    ) {
        let (Some(whole), [before, every, last]) = (self.run(alloc, lay, words, 0), numbers) else {
            return page.line("not run");
        };
        let end = whole.medium.now();
        let mut ended = 0u64;
        for left in (0..*before).rev().step_by((*every).max(1) as usize) {
            let fail = end.saturating_sub(left);
            if let Some(ran) = self.run(alloc, lay, words, fail)
                && ran.end == RanEnd::Device
                && ran.medium.now() == fail
                && is_of_updates(alloc, &ran.medium, fail, &[], *last)
            {
                ended = ended.wrapping_add(1);
            } else {
                page.numbers("another end where call fails", &[fail]);
            }
        }
        page.numbers("runs that end where a call fails", &[ended]);
    }
}

/// The two files, or none where they can't be run.
fn files_for(
    alloc: Global,
    opened: &Opened<MemPmem>,
    first: Vec<Request>,
    second: Vec<Request>,
) -> Vec<Vec<Request>>
    requires opened { IsOpened opened.now }
    requires first { All IsInRange first.items }
    requires second { All IsInRange second.items }
    ensures rings { length result.items ≤ opened.now.sizes.rings }
    ensures in_range { AreInRange (map (λ f. f.items) result.items) }
    ensures numbers { HasNumbersFor opened.now.number (map (λ f. f.items) result.items) }
{
    let fit = opened.sizes.rings >= 2
        && opened.number <= 1000
        && first.len() <= 1000
        && second.len() <= 1000;
    let mut files = Vec::new(alloc);
    if fit && files.push(first).is_ok() && files.push(second).is_ok() {
        return files;
    }
    Vec::new(alloc)
}

/// Whether the image that a crash may leave at a moment recovers to what updates of subscriber 1 leave, the k-th to location k:
/// the number has to be at most the last one, and the location its.
fn is_of_updates(alloc: Global, medium: &MemPmem, moment: u64, picks: &[u64], last: u64) -> bool {
    let Ok(image) = medium.images_at(alloc, moment, picks) else {
        return false;
    };
    let Ok(found) = image_of(alloc, &image) else {
        return false;
    };
    let location = match found.number {
        0 => NEW_LOCATION,
        number => number,
    };
    found.number <= last && found.words.get(LOCATION) == Some(&location)
}

/// Puts requests that are done, by file, index and number, in the order of files, and prints them.
pub fn say_in_files(alloc: Global, numbers: &[u64], page: &mut Page) {
    let mut done = Vec::new(alloc);
    for place in numbers.chunks(3) {
        if let [file, index, number] = *place
            && done
                .push(done_at(file, index, number, Reply::Durable))
                .is_err()
        {
            page.cut();
        }
    }
    put_in_files(&mut done);
    page.numbers("requests", &[done.len() as u64]);
    for each in &done {
        page.numbers("done", &[each.file, each.index, each.number]);
    }
}
