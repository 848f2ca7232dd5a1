//! The events that a view makes by itself, in four groups.

use crate::about::About;
use crate::filling::Filling;
use dude_base::write_list::WriteList;

/// An event that a view makes by itself.
#[derive(Drop)]
pub enum Deed {
    Read(ReadDeed),
    Write(WriteDeed),
    Turn(TurnDeed),
    Page(PageDeed),
}

/// An event of a transaction that reads.
#[derive(Drop)]
pub enum ReadDeed {
    Number,
    Begin,
    Extend,
    Look { lock: u64 },
    Load { at: u64 },
    Check { lock: u64 },
    Finish { about: About },
}

/// An event of a transaction that writes.
#[derive(Drop)]
pub enum WriteDeed {
    Take { lock: u64 },
    Draw { about: About, writes: WriteList },
    Decide,
    Store { at: u64 },
    Release { lock: u64 },
    Restore { lock: u64 },
}

/// An event of boxes and of the turn.
#[derive(Drop)]
pub enum TurnDeed {
    SeeBox,
    Post,
    TakeTurn,
    GiveTurn { failed: bool },
    SeeFull { thread: u64, place: u64 },
    EmptyBox { thread: u64, place: u64 },
    RaiseDurable { value: u64 },
    RaiseReproduced { value: u64 },
}

/// An event of pages and frames.
#[derive(Drop)]
pub enum PageDeed {
    Entry { page: u64 },
    Pin { page: u64 },
    Unpin { page: u64 },
    Touch { page: u64 },
    LoadTouch { page: u64 },
    Evict { page: u64 },
    Fill { filling: Filling },
    Show { page: u64, frame: u64 },
}
