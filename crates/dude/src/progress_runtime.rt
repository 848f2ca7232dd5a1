//! The system, where a load shows its progress in the place of the lines on standard error.

use crate::progress::Progress;
use std::alloc::{Allocator, Global};
use std::fmt::Display;
use std::fs::{File, Metadata, OpenOptions};
use std::io;
use std::rt::Files;

/// The system, where a load shows its progress in the place of the lines on standard error. So a medium in a file has no line of
/// its own for each number that it tells, and its tell fails where that of the progress can't be written.
#[derive(Clone, Copy)]
pub struct ProgressRuntime<'a> {
    pub rt: HostRuntime,
    pub progress: &'a Progress,
}

impl Alloc for ProgressRuntime<'_> {
    type A = Global;

    fn alloc(&self) -> Global {
        self.rt.alloc()
    }
}

impl Eprint for ProgressRuntime<'_> {
    fn eprint<D: Display + Drop>(&self, _value: D) -> io::Result<()> {
        self.progress.show()
    }

    fn eprintln<D: Display + Drop>(&self, _value: D) -> io::Result<()> {
        self.progress.show()
    }
}

impl Files for ProgressRuntime<'_> {
    type File = File;

    type Dir = <HostRuntime as Files>::Dir;

    fn open_file(&self, how: &OpenOptions, path: &str) -> io::Result<Self::File> {
        self.rt.open_file(how, path)
    }

    fn open_dir(&self, path: &str) -> io::Result<Self::Dir> {
        self.rt.open_dir(path)
    }

    fn metadata(&self, path: &str) -> io::Result<Metadata> {
        self.rt.metadata(path)
    }

    fn symlink_metadata(&self, path: &str) -> io::Result<Metadata> {
        self.rt.symlink_metadata(path)
    }

    fn copy(&self, from: &str, to: &str) -> io::Result<u64> {
        self.rt.copy(from, to)
    }

    fn rename(&self, from: &str, to: &str) -> io::Result<()> {
        self.rt.rename(from, to)
    }

    fn remove_file(&self, path: &str) -> io::Result<()> {
        self.rt.remove_file(path)
    }

    fn create_dir(&self, path: &str) -> io::Result<()> {
        self.rt.create_dir(path)
    }

    fn remove_dir(&self, path: &str) -> io::Result<()> {
        self.rt.remove_dir(path)
    }

    fn remove_dir_all<B: Allocator>(&self, alloc: B, path: &str) -> io::Result<()> {
        self.rt.remove_dir_all(alloc, path)
    }

    fn hard_link(&self, original: &str, link: &str) -> io::Result<()> {
        self.rt.hard_link(original, link)
    }
}
