//! The host, of whose files one write may fail; its standard error takes nothing then. Or its calls are printed, and one of
//! them may fail.

use crate::call_list::{CallList, enter, failure};
use crate::faulty_file::FaultyFile;
use std::alloc::{AllocError, Allocator, Global};
use std::fmt::Display;
use std::fs::{Metadata, OpenOptions};
use std::io;
use std::rc::Rc;
use std::rt::Files;

/// The host, where it is said with files of which a write fails, once in each file. Writes are counted from 0. What the medium in
/// a file asks no host for, as a copy or a list of names, fails.
#[derive(Drop)]
pub struct FaultyHost {
    rt: HostRuntime,
    failing: Option<u64>,
    /// What prints the calls, where they are printed.
    list: Option<Rc<CallList>>,
}

impl FaultyHost {
    /// The host, of whose files the write after so many fails; none without a number.
    pub fn new(rt: HostRuntime, failing: Option<u64>) -> FaultyHost {
        FaultyHost {
            rt,
            failing,
            list: None,
        }
    }

    /// The host, each of whose calls is printed, and the one of this count fails, from 1.
    pub fn watched(rt: HostRuntime, failing: u64) -> Result<FaultyHost, AllocError> {
        Ok(FaultyHost {
            rt,
            failing: None,
            list: Some(Rc::new(rt.alloc(), CallList::new(rt, failing))?),
        })
    }
}

impl Files for FaultyHost {
    type File = FaultyFile;

    type Dir = <HostRuntime as Files>::Dir;

    fn open_file(&self, how: &OpenOptions, path: &str) -> io::Result<FaultyFile> {
        let name = String::from_str(self.rt.alloc(), path)?;
        let list = self.list.clone()?;
        let file = self.rt.open_file(how, path)?;
        Ok(FaultyFile::new(file, name, self.failing, list))
    }

    fn open_dir(&self, _path: &str) -> io::Result<Self::Dir> {
        Err(failure())
    }

    fn metadata(&self, _path: &str) -> io::Result<Metadata> {
        Err(failure())
    }

    fn symlink_metadata(&self, _path: &str) -> io::Result<Metadata> {
        Err(failure())
    }

    fn copy(&self, _from: &str, _to: &str) -> io::Result<u64> {
        Err(failure())
    }

    fn rename(&self, _from: &str, _to: &str) -> io::Result<()> {
        Err(failure())
    }

    fn hard_link(&self, original: &str, link: &str) -> io::Result<()> {
        enter(&self.list, format_args!("link {original} {link}"))?;
        self.rt.hard_link(original, link)
    }

    fn remove_file(&self, path: &str) -> io::Result<()> {
        enter(&self.list, format_args!("remove {path}"))?;
        self.rt.remove_file(path)
    }

    fn create_dir(&self, _path: &str) -> io::Result<()> {
        Err(failure())
    }

    fn remove_dir(&self, _path: &str) -> io::Result<()> {
        Err(failure())
    }

    fn remove_dir_all<B: Allocator>(&self, _alloc: B, _path: &str) -> io::Result<()> {
        Err(failure())
    }
}

impl Alloc for FaultyHost {
    type A = Global;

    fn alloc(&self) -> Global {
        self.rt.alloc()
    }
}

impl Eprint for FaultyHost {
    fn eprint<D: Display + Drop>(&self, value: D) -> io::Result<()> {
        match (&self.list, self.failing) {
            (Some(list), _) => list.enter(format_args!("standard error: {value}")),
            (None, Some(_)) => Err(failure()),
            (None, None) => self.rt.eprint(value),
        }
    }

    fn eprintln<D: Display + Drop>(&self, value: D) -> io::Result<()> {
        match (&self.list, self.failing) {
            (Some(list), _) => list.enter(format_args!("line on standard error: {value}")),
            (None, Some(_)) => Err(failure()),
            (None, None) => self.rt.eprintln(value),
        }
    }
}
