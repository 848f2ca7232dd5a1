//! The reads that were made of files in memory.

use crate::listed_read::ListedRead;
use std::alloc::{AllocError, Global};

/// The reads that were made of files in memory, in order. Where there is no memory for one, the list ends.
#[derive(Drop)]
pub struct ReadList {
    pub reads: Vec<ListedRead>,
    /// Whether all reads stand in it.
    pub is_whole: bool,
}

impl ReadList {
    ghost use Rattle.dude_io.specs.ReadList.{reads_in, ListsNext, ListsIfWhole};
    ghost use Rattle.std.specs.Prelude.{◌≡◌, [], IsTrue, OnOk};

    pub(crate) fn new(alloc: Global) -> ReadList
        ensures none { reads_in result ≡ [] }
        ensures whole { IsTrue result.is_whole }
    {
        ReadList {
            reads: Vec::new(alloc),
            is_whole: true,
        }
    }

    fn push(&mut self, name: &str, at: u64, failed: bool) -> Result<(), AllocError>
        ensures pushed { OnOk result (ListsNext name.now at failed self.old self.new) }
        ensures whole { self.new.is_whole ≡ self.old.is_whole }
    {
        let name = String::from_str(*self.reads.allocator(), name)?;
        self.reads.push(ListedRead { name, at, failed })?;
        Ok(())
    }

    /// Adds a read, if there is memory for it.
    pub(crate) fn add(&mut self, name: &str, at: u64, failed: bool)
        ensures { ListsIfWhole name.now at failed self.old self.new }
    {
        if self.is_whole {
            self.is_whole = self.push(name, at, failed).is_ok();
        }
    }
}
