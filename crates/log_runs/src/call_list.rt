//! A list of the calls on a host, which is printed as they are made.

use crate::say::say_pair;
use std::cell::Cell;
use std::fmt::Display;
use std::io::{self, ErrorKind};
use std::rc::Rc;

/// How many bytes of a write are printed.
const SHOWN: usize = 8;

/// The calls on the files of a host, printed as they are made. The one of this count fails, from 1.
#[derive(Drop)]
pub struct CallList {
    rt: HostRuntime,
    failing: u64,
    made: Cell<u64>,
}

/// What fails.
pub fn failure() -> io::Error {
    io::Error::from(ErrorKind::Other)
}

impl CallList {
    /// No call so far.
    pub fn new(rt: HostRuntime, failing: u64) -> CallList {
        CallList {
            rt,
            failing,
            made: Cell::new(0),
        }
    }

    /// Prints a call, and answers whether it is to be made.
    pub fn enter<D: Display + Drop>(&self, call: D) -> io::Result<()> {
        self.rt.print(call)?;
        self.end()
    }

    /// Prints a write of bytes at a place, and answers whether it is to be made: how many bytes, and the first ones that aren't
    /// 0, each behind its place.
    pub fn enter_write(&self, bytes: &[u8], at: u64) -> io::Result<()> {
        let count = bytes.len();
        print!(self.rt; "write {count} bytes at {at}:")?;
        let mut seen = 0_usize;
        for k in 0..bytes.len() {
            if bytes[k] != 0 {
                if seen < SHOWN {
                    say_pair(self.rt, at.saturating_add(k as u64), u64::from(bytes[k]))?;
                }
                seen = seen.saturating_add(1);
            }
        }
        if seen > SHOWN {
            let more = seen - SHOWN;
            print!(self.rt; " and {more} more")?;
        }
        self.end()
    }

    /// Ends the line of a call, and says whether it is to be made.
    fn end(&self) -> io::Result<()> {
        let made = self.made.get().saturating_add(1);
        self.made.set(made);
        if made == self.failing {
            self.rt.println(" failed")?;
            return Err(failure());
        }
        self.rt.println("")
    }
}

/// Prints a call where there is a list, and answers whether it is to be made.
pub fn enter<D: Display + Drop>(list: &Option<Rc<CallList>>, call: D) -> io::Result<()> {
    match list {
        Some(list) => list.enter(call),
        None => Ok(()),
    }
}
