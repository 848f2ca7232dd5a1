//! The medium in a file: words in memory, of which a fence writes the noted lines.

use crate::clock::Clock;
use crate::edge_fault::EdgeFault;
use crate::image_file;
use crate::lock::Lock;
use crate::spill::Spill;
use crate::write_cache::WriteCache;
use pmem_trait::{Failed, Medium};
use std::fs::OpenFile;
use std::io;
use std::os::unix::fs::FileExt;
use std::rt::Files as FileSystem;

/// A medium in a file, of words with their lowest byte first. The words stand in memory, and a fence writes the lines
/// that were noted, as they stood then, and syncs the file. Once 4,096 lines are noted, the next flush writes them too,
/// and leaves the sync to the fence. What the file holds is not known to a caller, and after `open` the medium takes no
/// memory.
///
/// After a fence that failed the lines are still noted, and the next one writes them all again. The same holds after a
/// flush that failed, which noted nothing itself. Lines that a flush wrote are noted no more: where the fence fails that
/// should have synced them, they may be lost, and each later fence fails. After a failed put the word is as it was.
#[derive(Drop)]
pub struct FilePmem<R: FileSystem> {
    rt: R,
    file: R::File,
    cache: WriteCache,
    spill: Spill,
    clock: Clock,
}

impl<R: FileSystem + AllocGlobal + Eprint + Drop> FilePmem<R>
where
    R::File: Lock,
{
    ghost use Rattle.dude_io.specs.FilePmem.{IsJustOpened};
    ghost use Rattle.std.specs.Prelude.{IfOk};

    /// Opens the image of this path, and locks it until the medium is dropped. Where there is no file, one of 33,554,432
    /// zero bytes is made, whole or not at all. Bytes behind the last whole word stay as they are. A file that another
    /// opening has locked is an error, and nothing is read or written.
    ///
    /// After an `Err` a file that was there is as it was. Where there was none, the new one may be there, whole; or a
    /// part of it under its own name with `.new` and a number behind, where that couldn't be removed.
    pub fn open(rt: R, name: &str) -> Result<FilePmem<R>, EdgeFault>
        ensures opened { IfOk result (λ medium. IsJustOpened medium) }
    {
        let mut file = image_file::open(&rt, name)?;
        let words = image_file::read_words(rt.alloc(), &mut file)?;
        let cache = WriteCache::new(rt.alloc(), words)?;
        Ok(FilePmem {
            rt,
            file,
            cache,
            spill: Spill::Synced,
            clock: Clock::new(),
        })
    }
}

impl<R: FileSystem> FilePmem<R>
where
    R::File: FileExt,
{
    ghost use Rattle.dude_io.specs.Clock.{CountsOutcome};
    ghost use Rattle.dude_io.specs.FilePmem.{pmem_room, noted_lines, HasLostLines, room_made, notes_left, spill_of, spill_made};
    ghost use Rattle.dude_io.specs.Spill.{spill_fenced};
    ghost use Rattle.std.specs.Prelude.{◌≡◌, ◌<◌, OnOk, OnErr, IsOk, [], is_ok, false, if◌then◌else◌};

    /// Writes the noted lines and syncs the file. Nothing is synced where lines may be lost.
    fn write_and_sync(&mut self) -> io::Result<()>
        ensures lost { HasLostLines self.old → is_ok result ≡ false }
        ensures words { self.new.cache.words ≡ self.old.cache.words }
        ensures noted { noted_lines self.new ≡ noted_lines self.old }
        ensures spill { spill_of self.new ≡ spill_of self.old }
        ensures clock { self.new.clock ≡ self.old.clock }
    {
        if matches!(self.spill, Spill::Lost) {
            return Err(io::ErrorKind::Other.into());
        }
        self.cache.write(&self.file)?;
        self.file.sync_data()
    }

    /// Writes the noted lines, syncs the file, and drops the notes. At an `Err` they stay: a later call writes them
    /// all once more, since a sync that failed may have lost what was written before it.
    fn write_noted(&mut self) -> Result<(), Failed>
        ensures noted { noted_lines self.new ≡ (if is_ok result then [] else noted_lines self.old) }
        ensures words { self.new.cache.words ≡ self.old.cache.words }
        ensures room { OnOk result (pmem_room self.new ≡ 4096) }
        ensures lost { HasLostLines self.old → is_ok result ≡ false }
        ensures spill { spill_of self.new ≡ spill_fenced (is_ok result) (spill_of self.old) }
        ensures clock { CountsOutcome (is_ok result) self.old.clock self.new.clock }
    {
        let settled = self.write_and_sync().is_ok();
        self.spill = self.spill.fenced(settled);
        if !settled {
            self.clock.fault();
            return Err(Failed);
        }
        self.cache.drop_notes();
        Ok(())
    }

    /// Sees to it that there is room for a note: where none is left, the lines noted before are written.
    fn make_room(&mut self) -> Result<(), Failed>
        ensures succeeds { 0 < pmem_room self.old → IsOk result }
        ensures room { OnOk result (pmem_room self.new ≡ room_made self.old) }
        ensures made { OnOk result (noted_lines self.new ≡ notes_left self.old) }
        ensures kept { OnErr result (noted_lines self.new ≡ noted_lines self.old) }
        ensures words { self.new.cache.words ≡ self.old.cache.words }
        ensures spill { spill_of self.new ≡ spill_made (is_ok result) self.old }
        ensures clock { CountsOutcome (is_ok result) self.old.clock self.new.clock }
    {
        if !self.cache.is_full() {
            return Ok(());
        }
        if self.cache.write(&self.file).is_err() {
            self.clock.fault();
            return Err(Failed);
        }
        self.spill = self.spill.more();
        self.cache.drop_notes();
        Ok(())
    }
}

impl<R: FileSystem + Eprint> Medium for FilePmem<R>
where
    R::File: FileExt,
{
    ghost use Rattle.dude_io.specs.FilePmem.{pmem_sight, pmem_room, cached_words, noted_lines, room_made, has_moment, HasLostLines, MakesCall, NotesNext, words_put, spill_of, spill_made, spill_left};
    ghost use Rattle.pmem_trait.specs.declared.call.Call.TheVariants.{Read, Put, Flush, Fence, Tell};
    ghost use Rattle.std.proofs.Common.{rules};
    ghost use Rattle.std.specs.Prelude.{◌≡◌, ◌+◌, ◌-◌, ◌*◌, ◌<◌, ◌≤◌, is_ok, IfOk, OnOk, OnErr, false, [], slice_index, if◌then◌else◌};

    ghost sight = { pmem_sight };

    fn len(&self) -> u64 {
        self.cache.len()
    }

    fn now(&self) -> u64 {
        self.clock.now
    }

    fn read(&mut self, at: u64) -> Result<u64, Failed>
        requires { at < (pmem_sight self.old).len }
        ensures one_call { MakesCall (Read at) (is_ok result) self.old self.new }
        ensures word { IfOk result (λ v. v ≡ slice_index (cached_words self.old) at) }
        ensures words { cached_words self.new ≡ cached_words self.old }
        ensures noted { noted_lines self.new ≡ noted_lines self.old }
        ensures spill { spill_of self.new ≡ spill_of self.old }
    {
        self.clock.tick()?;
        Ok(self.cache.word(at))
    }

    fn put(&mut self, at: u64, value: u64) -> Result<(), Failed>
        requires { at < (pmem_sight self.old).len }
        ensures one_call { MakesCall (Put at value) (is_ok result) self.old self.new }
        ensures put { OnOk result (cached_words self.new ≡ words_put at value self.old) }
        ensures not_put { OnErr result (cached_words self.new ≡ cached_words self.old) }
        ensures noted { noted_lines self.new ≡ noted_lines self.old }
        ensures spill { spill_of self.new ≡ spill_of self.old }
    {
        self.clock.tick()?;
        self.cache.set(at, value);
        Ok(())
    }

    fn flush(&mut self, line: u64) -> Result<(), Failed>
        requires { 8 * line + 8 ≤ (pmem_sight self.old).len }
        ensures one_call { MakesCall (Flush line) (is_ok result) self.old self.new }
        ensures words { cached_words self.new ≡ cached_words self.old }

        // With no room left the lines noted before are written first.
        ensures noted { OnOk result (NotesNext line self.old self.new) }
        ensures not_noted { OnErr result (noted_lines self.new ≡ noted_lines self.old) }

        // Where there is room for the note, it fails only since no moment is left.
        ensures fails { 0 < pmem_room self.old → is_ok result ≡ has_moment self.old }
        ensures room { OnOk result (pmem_room self.new ≡ room_made self.old - 1) }

        // Lines are lost by no flush; those that it writes for want of room wait for the next sync.
        ensures spill { spill_of self.new ≡ spill_made (is_ok result) self.old }
    {
        self.clock.tick()?;
        self.make_room()?;
        self.cache.note(line);
        Ok(())
    }

    fn fence(&mut self) -> Result<(), Failed>
        ensures one_call { MakesCall Fence (is_ok result) self.old self.new }
        ensures words { cached_words self.new ≡ cached_words self.old }
        ensures noted { noted_lines self.new ≡ (if is_ok result then [] else noted_lines self.old) }
        ensures room { OnOk result (pmem_room self.new ≡ 4096) }

        // No fence says that lines are durable which may be lost. They are lost exactly where it fails while some wait.
        ensures lost { HasLostLines self.old → is_ok result ≡ false }
        ensures spill { spill_of self.new ≡ spill_left (is_ok result) self.old }
    {
        self.clock.tick()?;
        self.write_noted()
    }

    fn tell(&mut self, number: u64) -> Result<(), Failed>
        ensures one_call { MakesCall (Tell number) (is_ok result) self.old self.new }
        ensures words { cached_words self.new ≡ cached_words self.old }
        ensures noted { noted_lines self.new ≡ noted_lines self.old }
        ensures spill { spill_of self.new ≡ spill_of self.old }
    {
        self.clock.tick()?;
        match eprintln!(self.rt; "durable {number}") {
            Ok(()) => Ok(()),
            Err(_) => {
                self.clock.fault();
                Err(Failed)
            }
        }
    }

    ghost fits = { λ medium. (Prim.search rules, Prim.search rules) };
}
