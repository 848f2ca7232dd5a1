//! A file of the system, of which a write may fail, or whose calls are printed.

use crate::call_list::{CallList, enter, failure};
use dude_io::Lock;
use std::cell::Cell;
use std::fs::{File, Metadata, OpenFile};
use std::io::{self, Read, Seek, SeekFrom, Write};
use std::os::unix::fs::FileExt;
use std::rc::Rc;

/// A file of which a write may fail, once.
#[derive(Drop)]
pub struct FaultyFile {
    file: File,
    name: String,
    /// How many writes are made before the one that fails.
    left: Cell<u64>,
    /// How many bytes of 0 were written, piece behind piece, since the last sync.
    filled: u64,
    list: Option<Rc<CallList>>,
}

impl FaultyFile {
    /// A file of this name, of which the write after so many fails, and whose calls are printed where there is a list.
    pub fn new(
        file: File,
        name: String,
        failing: Option<u64>,
        list: Option<Rc<CallList>>,
    ) -> FaultyFile {
        FaultyFile {
            file,
            name,
            left: Cell::new(failing.unwrap_or(u64::MAX)),
            filled: 0,
            list,
        }
    }

    /// Counts a write, and answers whether it is to be made.
    fn count_write(&self) -> io::Result<()> {
        match self.left.get() {
            0 => {
                self.left.set(u64::MAX);
                Err(failure())
            }
            left => {
                self.left.set(left - 1);
                Ok(())
            }
        }
    }

    /// Prints a sync, and how many bytes of 0 were written, piece behind piece, before it.
    fn enter_sync(&self, what: &str) -> io::Result<()> {
        let name = self.name.as_str();
        match self.filled {
            0 => enter(&self.list, format_args!("sync {what} of {name}")),
            filled => enter(
                &self.list,
                format_args!("sync {what} of {name} behind {filled} bytes of 0"),
            ),
        }
    }
}

/// Whether each byte is 0.
fn are_zero(bytes: &[u8]) -> bool {
    bytes.iter().all(|byte| *byte == 0)
}

impl Read for FaultyFile {
    fn read(&mut self, buf: &mut [u8]) -> io::Result<usize> {
        self.file.read(buf)
    }
}

impl Write for FaultyFile {
    fn write(&mut self, buf: &[u8]) -> io::Result<usize> {
        self.count_write()?;
        let written = self.file.write(buf)?;
        if are_zero(buf) {
            self.filled = self.filled.saturating_add(written as u64);
        }
        Ok(written)
    }

    fn flush(&mut self) -> io::Result<()> {
        self.file.flush()
    }
}

impl FileExt for FaultyFile {
    fn read_at(&self, buf: &mut [u8], offset: u64) -> io::Result<usize> {
        self.file.read_at(buf, offset)
    }

    fn write_at(&self, buf: &[u8], offset: u64) -> io::Result<usize> {
        self.count_write()?;
        if let Some(list) = &self.list {
            list.enter_write(buf, offset)?;
        }
        self.file.write_at(buf, offset)
    }
}

impl Seek for FaultyFile {
    fn seek(&mut self, to: SeekFrom) -> io::Result<u64> {
        self.file.seek(to)
    }
}

impl OpenFile for FaultyFile {
    fn metadata(&self) -> io::Result<Metadata> {
        self.file.metadata()
    }

    fn set_len(&self, size: u64) -> io::Result<()> {
        self.file.set_len(size)
    }

    fn sync_all(&self) -> io::Result<()> {
        self.enter_sync("all")?;
        self.file.sync_all()
    }

    fn sync_data(&self) -> io::Result<()> {
        self.enter_sync("data")?;
        self.file.sync_data()
    }
}

impl Lock for FaultyFile {
    fn try_lock(&self) -> io::Result<()> {
        Lock::try_lock(&self.file)
    }
}
