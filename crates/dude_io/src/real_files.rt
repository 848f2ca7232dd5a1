//! The files of the system; what a read of them gives is seen by no contract (trusted).

ghost use Rattle.dude_io.specs.Silent.{silent_files};
ghost use Rattle.std.specs.Prelude.{◌≡◌, ◌≤◌, length, IfOk};

use crate::Files;
use pmem_trait::{Failed, FaultCount};
use std::io::{Read, Seek, SeekFrom};
use std::rt::Files as FileSystem;
use std::{fs, io};

/// The files of the system, by their paths. What they hold is not visible. Each read opens its file anew, so of a file
/// that changes meanwhile a mix may be read.
#[derive(Drop)]
pub struct RealFiles<R: FileSystem> {
    rt: R,
    faults: FaultCount,
}

impl<R: FileSystem> RealFiles<R> {
    /// The files of this runtime, with no fault yet. None is opened.
    pub fn new(rt: R) -> RealFiles<R>
        ensures { ⟦<RealFiles<R> as Files>⟧.sight result ≡ silent_files 0 }
    {
        RealFiles {
            rt,
            faults: FaultCount::new(),
        }
    }
}

impl<R: FileSystem> Files for RealFiles<R> {
    ghost use Rattle.dude_io.specs.Silent.{real_files_sight, ReadsRealFile};
    ghost use Rattle.std.specs.Prelude.{◌<◌, length};

    ghost sight = { real_files_sight };

    fn read(&mut self, name: &str, at: u64, into: &mut [u8]) -> Result<u64, Failed>
        requires { 0 < length into.old }
        ensures { ReadsRealFile name.now at into.old into.new result self.old self.new }
    {
        match read_at(&self.rt, name, at, into) {
            Ok(given) => Ok(given as u64),
            Err(_) => {
                self.faults.rise();
                Err(Failed)
            }
        }
    }
}

fn read_at(rt: &impl FileSystem, name: &str, at: u64, into: &mut [u8]) -> io::Result<usize>
    ensures { IfOk result (λ n. n ≤ length into.old) }
{
    let mut file = fs::open(rt, name)?;
    file.seek(SeekFrom::Start(at))?;
    file.read(into)
}
