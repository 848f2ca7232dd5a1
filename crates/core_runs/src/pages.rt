//! A map of pages and frames.

ghost use Rattle.std.specs.Prelude.{◌≡◌};

use crate::output::{print_maybe, print_no_command};
use shadow_pages::pager::Pager;
use std::alloc::{AllocError, Global};
use std::io;

/// A map, and how many pages it is of.
#[derive(Drop)]
pub struct Pages {
    pager: Pager,
    pages: u64,
    ghost all: { pager.pages ≡ pages },
}

impl Pages {
    /// Empty frames; `None` where there is no frame, or more than pages, or more pages than a script's.
    pub fn new(alloc: Global, pages: u64, frames: u64) -> Result<Option<Pages>, AllocError> {
        if frames < 1 || pages < frames || 1_000 < pages {
            return Ok(None);
        }
        match Pager::new(alloc, pages, frames) {
            Ok(pager) => Ok(Some(Pages { pager, pages })),
            Err(error) => Err(error),
        }
    }

    /// Carries out a command on the map, of a page or of none.
    pub fn carry_out(&mut self, rt: &HostRuntime, name: &str, page: Option<u64>) -> io::Result<()> {
        match page {
            Some(page) => self.with_page(rt, name, page),
            None => self.without_page(rt, name),
        }
    }

    fn without_page(&mut self, rt: &HostRuntime, name: &str) -> io::Result<()> {
        match name {
            "victim" => print_maybe(rt, "page", self.pager.victim()),
            "free" => print_maybe(rt, "frame", self.pager.free()),
            _ => print_no_command(rt),
        }
    }

    fn with_page(&mut self, rt: &HostRuntime, name: &str, page: u64) -> io::Result<()> {
        match name {
            "put" => print_maybe(rt, "frame", self.put(page)),
            "remove" => print_maybe(rt, "frame", self.take_out(page)),
            "page" => print_maybe(rt, "frame", self.pager.is_in(page)),
            _ => print_no_command(rt),
        }
    }

    /// Puts a page that isn't in into the least free frame, and answers that frame.
    fn put(&mut self, page: u64) -> Option<u64> {
        if self.pages <= page || self.pager.is_in(page).is_some() {
            return None;
        }
        let frame = self.pager.free()?;
        self.pager.place(page, frame);
        Some(frame)
    }

    /// Takes a page out, and answers the frame that it was in.
    fn take_out(&mut self, page: u64) -> Option<u64> {
        let frame = self.pager.is_in(page)?;
        self.pager.drop_page(page);
        Some(frame)
    }
}
