//! Scripts of words and of the home of the five tables, carried out line by line: records of writes, a pool and a table in an
//! array, the words and rows of a home, requests on it and on the plain tables, the check of changed homes, and runs of request files
//! over a medium in memory.
#![tactic(auto)]

mod calls;
mod checks;
mod home;
mod images;
mod page;
mod play;
mod records;
mod rows;
mod runs;
mod stopping;
mod stops;
mod trees;
mod words;

use page::Page;
use play::Play;
use std::io::{self, ErrorKind};

/// Carries out a script, and prints what it leaves.
pub fn follow(rt: HostRuntime, script: &str) -> io::Result<()> {
    let mut play = Play::new(rt.alloc());
    for line in script.lines() {
        let mut page = Page::new(rt.alloc());
        play.take_line(rt.alloc(), line, &mut page);
        match page.text() {
            Some(text) => rt.print(str::from_utf8(text).unwrap_or("no UTF-8\n"))?,
            None => return Err(io::Error::from(ErrorKind::OutOfMemory)),
        }
    }
    Ok(())
}
