//! A run on one thread: it serves requests in rounds, logs what they write, and settles at the end.

ghost use Rattle.dude_base.specs.declared.limits.TheConstants.{MAX_NUMBER};
ghost use Rattle.dude_engine.specs.Keeping.{LeavesKept};
ghost use Rattle.dude_engine.specs.Requests.{AreInRange, HasLength, HasNumberEach, request_count};
ghost use Rattle.dude_engine.specs.Running.{HasRoomToNote, IsAtStart, IsChanging, IsReady, LeavesOn, LeavesRun, MakesRun, MayServeFrom, NotesTurn, NotesUnless, NumbersNoMore, PerformsFiles, SettlesRun, silent_done};
ghost use Rattle.log_numbered.specs.KeptBundles.{HasRoomToKeep};
ghost use Rattle.log_numbered.specs.RunLog.{log_durable, log_end, log_last};
ghost use Rattle.std.specs.Prelude.{◌≡◌, ◌⊎◌, ◌+◌, ◌<◌, ◌≤◌, [], ◌∷◌, ◌++◌, map, length, All, OnOk, false, vec_capacity};
ghost use Rattle.tatp_model.specs.OneThread.{is_sync};
ghost use Rattle.tatp_model.specs.Request.{IsInRange};
ghost use Rattle.tatp_model.specs.declared.request.Request.TheVariants.{Sync};

use crate::run_fault::RunFault;
use log_numbered::{KeptBundles, RunLog};
use pmem_trait::Medium;
use tatp_core::run_request;
use tatp_layout::Layout;
use tatp_model::{Done, Reply, Request};
use word_space::flat::Flat;
use word_space::stop::Stop;

/// A run of request files on one thread: its log, its tables in memory, what is done, in the order of performance, and the
/// bundles persisted, where they are kept.
#[derive(Drop)]
pub struct Run<M: Medium> {
    pub log: RunLog<M>,
    pub lay: Layout,
    pub words: Flat,
    pub done: Vec<Done>,
    pub packets: KeptBundles,
}

impl<M: Medium> Run<M> {
    /// Performs the requests of all files in rounds, and announces and reproduces all at the end. Room for what is done is
    /// taken at the start.
    pub fn run_all(&mut self, files: &[Vec<Request>]) -> Result<(), RunFault>
        requires start { IsAtStart self.old }
        requires rings { length files.now ≤ self.old.lay.rings }
        requires in_range { AreInRange (map (λ f. f.items) files.now) }
        requires numbers { HasNumberEach (log_last self.old.log) (map (λ f. f.items) files.now) }
        ensures left { LeavesOn result self.old self.new }
        ensures performs { PerformsFiles result (map (λ f. f.items) files.now) self.new.done.items }
        ensures calls { OnOk result (MakesRun self.old self.new) }
        ensures settled { OnOk result (SettlesRun self.old self.new) }
        ensures kept { LeavesKept result self.old self.new }
        ensures end { OnOk result (log_end self.new.log ≡ log_durable self.new.log) }
    {
        let count = count_requests(files);
        self.done.reserve_exact(count)?;
        self.serve_all(files)?;
        self.packets.reserve()?;
        self.log.checkpoint(&mut self.packets)?;
        Ok(())
    }

    /// Performs the requests of all files in rounds.
    fn serve_all(&mut self, files: &[Vec<Request>]) -> Result<(), RunFault>
        requires start { IsAtStart self.old }
        requires room { request_count (map (λ f. f.items) files.now) ≤ vec_capacity self.old.done }
        requires rings { length files.now ≤ self.old.lay.rings }
        requires in_range { AreInRange (map (λ f. f.items) files.now) }
        requires numbers { HasNumberEach (log_last self.old.log) (map (λ f. f.items) files.now) }
        ensures leaves { LeavesRun result self.old self.new }
        ensures kept { LeavesKept result self.old self.new }
        ensures performs { PerformsFiles result (map (λ f. f.items) files.now) self.new.done.items }
    {
        let longest = longest_file(files);
        for index in 0..longest {
            for (file, requests) in files.iter().enumerate() {
                self.serve_turn(file as u64, index as u64, requests)?;
            }
        }
        Ok(())
    }

    // The turn of a file: its request of this round is served, where it has one.
    fn serve_turn(&mut self, file: u64, index: u64, requests: &[Request]) -> Result<(), RunFault>
        requires ready { IsReady self.old }
        requires room { index < length requests.now → HasRoomToNote self.old }
        requires number { index < length requests.now → log_last self.old.log < MAX_NUMBER }
        requires ring { file < self.old.lay.rings }
        requires in_range { All IsInRange requests.now }
        ensures leaves { LeavesRun result self.old self.new }
        ensures kept { LeavesKept result self.old self.new }
        ensures number { OnOk result (NumbersNoMore self.old self.new) }
        ensures adds { NotesTurn result file index requests.now self.old self.new }
    {
        match requests.get(index as usize) {
            Some(request) => self.serve(file, index, request),
            None => Ok(()),
        }
    }

    /// Serves one request. Where the medium fails as the bundle before its record is persisted, it is noted as done too.
    fn serve(&mut self, file: u64, index: u64, request: &Request) -> Result<(), RunFault>
        requires may { MayServeFrom file self.old }
        requires in_range { IsInRange request.now }
        ensures leaves { LeavesRun result self.old self.new }
        ensures kept { LeavesKept result self.old self.new }
        ensures number { OnOk result (log_last self.new.log ≤ log_last self.old.log + 1) }
        ensures adds { NotesUnless result file index request.now self.old self.new }
    {
        self.packets.reserve()?;
        match request {
            Request::Sync => self.serve_sync(file, index),
            _ => self.perform(file, index, request),
        }
    }

    // Serves `SYNC`: all that is done is announced.
    fn serve_sync(&mut self, file: u64, index: u64) -> Result<(), RunFault>
        requires ready { IsReady self.old }
        requires room { HasRoomToNote self.old }
        requires keep { HasRoomToKeep self.old.packets }
        ensures leaves { LeavesRun result self.old self.new }
        ensures kept { LeavesKept result self.old self.new }
        ensures number { OnOk result (log_last self.new.log ≡ log_last self.old.log) }
        ensures adds { NotesUnless result file index Sync self.old self.new }
    {
        let number = self.log.announce(&mut self.packets)?;
        self.note(file, index, number, Request::Sync, Reply::Durable);
        Ok(())
    }

    // Performs a request on the tables, and logs what it changed.
    fn perform(&mut self, file: u64, index: u64, request: &Request) -> Result<(), RunFault>
        requires may { MayServeFrom file self.old }
        requires keep { HasRoomToKeep self.old.packets }
        requires in_range { IsInRange request.now }
        requires no_sync { is_sync request.now ≡ false }
        ensures leaves { LeavesRun result self.old self.new }
        ensures kept { LeavesKept result self.old self.new }
        ensures number { OnOk result (log_last self.new.log ≤ log_last self.old.log + 1) }
        ensures adds { NotesUnless result file index request.now self.old self.new }
    {
        let reply = match run_request(&self.lay, &mut self.words, request) {
            Ok(reply) => reply,
            Err(Stop::NoMemory) => {
                self.words.forget();
                return Err(RunFault::NoMemory);
            }
            Err(_) => unreachable!(),
        };
        match reply {
            Reply::Changed => self.log_change(file, index, request),
            _ => {
                self.words.forget();
                let number = self.log.last();
                self.note(file, index, number, *request, reply);
                Ok(())
            }
        }
    }

    // Takes the pending writes as the record of the next number, notes the request, and logs the record.
    fn log_change(&mut self, file: u64, index: u64, request: &Request) -> Result<(), RunFault>
        requires change { IsChanging request.now self.old }
        requires room { HasRoomToNote self.old }
        requires keep { HasRoomToKeep self.old.packets }
        requires number { log_last self.old.log < MAX_NUMBER }
        requires ring { file < self.old.lay.rings }
        requires no_sync { is_sync request.now ≡ false }
        ensures leaves { LeavesRun result self.old self.new }
        ensures kept { LeavesKept result self.old self.new }
        ensures number { OnOk result (log_last self.new.log ≡ log_last self.old.log + 1) }
        ensures adds { NotesUnless result file index request.now self.old self.new }
    {
        let number = self.log.last() + 1;
        let redo = self.words.take(number);
        self.done.push_reserved(Done {
            file,
            index,
            number,
            wrote: true,
            request: *request,
            reply: Reply::Changed,
        });
        self.log.append(file, &redo, &mut self.packets)?;
        Ok(())
    }

    // Notes a request that wrote nothing.
    fn note(&mut self, file: u64, index: u64, number: u64, request: Request, reply: Reply)
        requires room { HasRoomToNote self.old }
        ensures done { self.new.done.items ≡ self.old.done.items
            ++ (silent_done file index number request reply) ∷ [] }
        ensures room { vec_capacity self.new.done ≡ vec_capacity self.old.done }
        ensures log { self.new.log ≡ self.old.log }
        ensures lay { self.new.lay ≡ self.old.lay }
        ensures words { self.new.words ≡ self.old.words }
        ensures packets { self.new.packets ≡ self.old.packets }
    {
        self.done.push_reserved(Done {
            file,
            index,
            number,
            wrote: false,
            request,
            reply,
        });
    }
}

// How many requests there are in all.
fn count_requests(files: &[Vec<Request>]) -> usize
    requires few { request_count (map (λ f. f.items) files.now) ≤ MAX_NUMBER }
    ensures { result ≡ request_count (map (λ f. f.items) files.now) }
{
    let mut count = 0;
    for requests in files {
        count += requests.len();
    }
    count
}

// How many requests the longest file has; 0 where there is no file.
fn longest_file(files: &[Vec<Request>]) -> usize
    ensures none_longer { All (λ file. length file ≤ result) (map (λ f. f.items) files.now) }
    ensures one_as_long { (result ≡ 0) ⊎ HasLength result (map (λ f. f.items) files.now) }
{
    let mut longest = 0;
    for requests in files {
        longest = greater(longest, requests.len());
    }
    longest
}

fn greater(a: usize, b: usize) -> usize
    ensures first { a ≤ result }
    ensures second { b ≤ result }
    ensures either { (result ≡ a) ⊎ (result ≡ b) }
{
    if a < b { b } else { a }
}
