//! Pages are placed in frames and dropped, and the hand finds the next page to drop.

ghost use Rattle.shadow_pages.specs.PageMap.{empty_map, map_with, Holds, IsFree, IsIn, IsOccupied, HasFree, IsOneToOne, IsLeastFree, IsNextOccupied, IsVictim};
ghost use Rattle.std.specs.Prelude.{◌≡◌, None, Some, ◌<◌, ◌≤◌, ◌↔◌, ℕ, IfOk, IfSome, IsNone};

use std::alloc::{AllocError, Global};
use std::marker::Model;

/// Which page is in which frame, and a hand that goes round the frames.
///
/// Pages and frames are numbered from 0. Nothing but `new` takes memory.
#[derive(Drop)]
pub struct Pager {
    by_frame: Vec<Option<u64>>,
    by_page: Vec<Option<u64>>,
    hand: u64,
}

impl Model for Pager {
    ghost use Rattle.shadow_pages.specs.PageMap.{PageMap};
    ghost use Rattle.shadow_pages.specs.Pager.{IsSound};
    ghost use Rattle.std.specs.Prelude.{length};

    ghost Value = { PageMap };

    ghost view = { λ p. record { pages = length p.by_page.items; frames = p.by_frame.items; hand = p.hand } };

    ghost invariant = { λ p. IsSound p.by_frame.items p.by_page.items p.hand };
}

impl Pager {
    /// Empty frames, and the hand at frame 0.
    pub fn new(alloc: Global, pages: u64, frames: u64) -> Result<Pager, AllocError>
        requires some { 1 ≤ frames }
        requires most { frames ≤ pages }
        ensures empty { IfOk result (λ map. map ≡ empty_map pages frames) }
        ensures lawful { IfOk result IsOneToOne }
    {
        Ok(Pager {
            by_frame: vec![in alloc; None; frames as usize]?,
            by_page: vec![in alloc; None; pages as usize]?,
            hand: 0,
        })
    }

    /// Puts a page that isn't in into a free frame.
    pub fn place(&mut self, page: u64, frame: u64)
        requires inside { page < self.old.pages }
        requires not_in { ¬ IsIn self.old page }
        requires free { IsFree self.old frame }
        ensures placed { self.new ≡ map_with self.old frame (Some page) }
        ensures lawful { IsOneToOne self.new }
    {
        self.by_frame[frame as usize] = Some(page);
        self.by_page[page as usize] = Some(frame);
    }

    /// Empties the frame of a page that is in.
    pub fn drop_page(&mut self, page: u64)
        requires { IsIn self.old page }
        ensures dropped { (frame : ℕ) → Holds self.old frame page →
            self.new ≡ map_with self.old frame None }
        ensures lawful { IsOneToOne self.new }
        ensures not_in { ¬ IsIn self.new page }
    {
        match self.by_page[page as usize] {
            Some(frame) => {
                self.by_frame[frame as usize] = None;
                self.by_page[page as usize] = None;
            }
            None => {}
        }
    }

    /// The frame that the page is in; `None` also for a page that there isn't.
    pub fn is_in(&self, page: u64) -> Option<u64>
        ensures frame { (frame : ℕ) → (result ≡ Some frame) ↔ Holds self.now frame page }
        ensures none { IsNone result ↔ (¬ IsIn self.now page) }
        ensures lawful { IsOneToOne self.now }
    {
        if page < self.by_page.len() as u64 {
            self.by_page[page as usize]
        } else {
            None
        }
    }

    /// The least free frame.
    pub fn free(&self) -> Option<u64>
        ensures least { IfSome result (IsLeastFree self.now) }
        ensures none { IsNone result ↔ (¬ HasFree self.now) }
    {
        let frames = self.by_frame.len() as u64;
        for frame in 0..frames {
            if self.by_frame[frame as usize].is_none() {
                return Some(frame);
            }
        }
        None
    }

    /// The page of the first occupied frame from the hand on, going round; the hand is set behind that frame.
    pub fn victim(&mut self) -> Option<u64>
        ensures victim { IfSome result (IsVictim self.old self.new) }
        ensures none { IsNone result ↔ (¬ IsOccupied self.old) }
        ensures same { IsNone result → self.new ≡ self.old }
        ensures lawful { IsOneToOne self.new }
    {
        let distance = self.next_occupied()?;
        let frames = self.by_frame.len() as u64;
        let page = self.by_frame[((self.hand + distance) % frames) as usize]?;
        self.hand = (self.hand + distance + 1) % frames;
        Some(page)
    }

    // The distance of the first occupied frame from the hand.
    fn next_occupied(&self) -> Option<u64>
        ensures next { IfSome result (IsNextOccupied self.now) }
        ensures none { IsNone result ↔ (¬ IsOccupied self.now) }
    {
        let frames = self.by_frame.len() as u64;
        for distance in 0..frames {
            if self.by_frame[((self.hand + distance) % frames) as usize].is_some() {
                return Some(distance);
            }
        }
        None
    }
}
