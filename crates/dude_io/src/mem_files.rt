//! Files in memory, of which chosen calls fail, with a list of the reads made.

ghost use Rattle.dude_io.specs.Files.{GivesBytes};
ghost use Rattle.dude_io.specs.MemFile.{text_of};
ghost use Rattle.std.specs.Option.{option_copied};
ghost use Rattle.std.specs.Prelude.{◌≡◌, ◌<◌, ◌≤◌, ◌-◌, min, length};

use crate::Files;
use crate::fail_plan::FailPlan;
use crate::listed_read::ListedRead;
use crate::mem_file::MemFile;
use crate::read_list::ReadList;
use pmem_trait::Failed;
use std::alloc::AllocError;

/// Files in memory, of which chosen calls fail. Of two files with one name the first counts. The reads made are listed, until
/// there is no memory for one.
#[derive(Drop)]
pub struct MemFiles {
    files: Vec<MemFile>,
    plan: FailPlan,
    list: ReadList,
}

impl MemFiles {
    ghost use Rattle.dude_io.specs.FailPlan.{CountsCall};
    ghost use Rattle.dude_io.specs.MemFiles.{files_sight, files_plan, read_fails, IsNewFiles, GivesFrom, GivesMost};
    ghost use Rattle.dude_io.specs.ReadList.{read_of};
    ghost use Rattle.std.specs.Prelude.{◌≡◌, ◌<◌, ◌≤◌, length, map, is_ok, is_err, IfOk, IsOkAnd};

    /// Files of which a read gives at most `chunk` bytes. Calls are counted from 1, and those in `fail` fail.
    pub fn new(files: Vec<MemFile>, chunk: u64, fail: Vec<u64>) -> Result<MemFiles, AllocError>
        requires { 1 ≤ chunk }
        ensures { IsOkAnd result (IsNewFiles files.items chunk fail.items) }
    {
        let list = ReadList::new(*files.allocator());
        Ok(MemFiles {
            files,
            plan: FailPlan::new(fail, chunk),
            list,
        })
    }

    /// The reads made so far, up to the first one that there was no memory to list.
    pub fn reads(&self) -> &[ListedRead]
        ensures { map read_of result.now ≡ (files_sight self.now).reads }
    {
        &self.list.reads
    }

    /// Makes a read, and doesn't list it.
    fn answer(&mut self, name: &str, at: u64, into: &mut [u8]) -> Result<u64, Failed>
        requires { 0 < length into.old }
        ensures gives { IfOk result (GivesFrom self.old name.now at into.old into.new) }
        ensures fails { is_err result ≡ read_fails self.old name.now }
        ensures most { IfOk result (GivesMost self.old name.now at into.old) }
        ensures counts { CountsCall (is_ok result) (files_plan self.old) (files_plan self.new) }
        ensures files { self.new.files ≡ self.old.files }
        ensures list { self.new.list ≡ self.old.list }
    {
        if self.plan.fails_next() {
            return Err(Failed);
        }
        match text_in(&self.files, name) {
            None => {
                self.plan.count_fault();
                Err(Failed)
            }
            Some(text) => Ok(give(text, at, into, self.plan.chunk)),
        }
    }
}

impl Files for MemFiles {
    ghost use Rattle.dude_io.specs.FailPlan.{CountsCall};
    ghost use Rattle.dude_io.specs.MemFiles.{files_sight, files_plan, read_fails, ReadsMemFile, GivesMost};
    ghost use Rattle.std.specs.Prelude.{◌≡◌, ◌<◌, length, is_ok, is_err, IfOk};

    ghost sight = { files_sight };

    fn read(&mut self, name: &str, at: u64, into: &mut [u8]) -> Result<u64, Failed>
        requires { 0 < length into.old }
        ensures reads { ReadsMemFile name.now at into.old into.new result self.old self.new }
        ensures fails { is_err result ≡ read_fails self.old name.now }
        ensures most { IfOk result (GivesMost self.old name.now at into.old) }
        ensures counts { CountsCall (is_ok result) (files_plan self.old) (files_plan self.new) }
    {
        let answer = self.answer(name, at, into);
        self.list.add(name, at, answer.is_err());
        answer
    }
}

fn text_in<'a>(files: &'a [MemFile], name: &str) -> Option<&'a [u8]>
    ensures { option_copied result ≡ text_of files.now name.now }
{
    files
        .iter()
        .find(|file| file.name.as_str() == name)
        .map(|file| file.bytes.as_slice())
}

/// Copies what is asked for to the start of `into`, at most `chunk` bytes.
fn give(text: &[u8], at: u64, into: &mut [u8], chunk: u64) -> u64
    requires room { 0 < length into.old }
    requires some { 1 ≤ chunk }
    ensures gives { GivesBytes text.now at result into.old into.new }
    ensures most { result ≡ min chunk (min (length into.old) (length text.now - at)) }
{
    let rest = &text[at.min(text.len() as u64) as usize..];
    let given = chunk.min(into.len().min(rest.len()) as u64);
    into[..given as usize].copy_from_slice(&rest[..given as usize]);
    given
}
