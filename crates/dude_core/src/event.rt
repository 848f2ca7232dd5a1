//! The events of the machine, each with what it names.

use dude_base::redo::Redo;
use pmem_trait::Call;
use tatp_model::reply::Reply;
use tatp_model::request::Request;

/// An event of the machine, made by one view. Places are those of home words, pages, frames, locks
/// and boxes by number.
#[derive(Drop)]
pub enum Event {
    /// A new view comes last, with so many draws of this one.
    Split {
        draws: u64,
    },
    /// All that the other view has is taken over.
    Join {
        other: u64,
    },
    /// The view gets the next thread's number.
    Number,
    /// The clock is loaded: a transaction begins, or extends its snapshot.
    Clock {
        extend: bool,
    },
    Look {
        lock: u64,
    },
    Load {
        at: u64,
    },
    Check {
        lock: u64,
    },
    /// A transaction that wrote nothing ends.
    Finish {
        file: u64,
        index: u64,
        request: Request,
        reply: Reply,
    },
    Take {
        lock: u64,
    },
    /// A number is drawn for these writes; the record's own number isn't read.
    Draw {
        file: u64,
        index: u64,
        request: Request,
        reply: Reply,
        writes: Redo,
    },
    Decide,
    Store {
        at: u64,
    },
    Release {
        lock: u64,
    },
    Restore {
        lock: u64,
    },
    SeeBox,
    Post,
    TakeTurn,
    GiveTurn {
        failed: bool,
    },
    SeeFull {
        thread: u64,
        place: u64,
    },
    EmptyBox {
        thread: u64,
        place: u64,
    },
    RaiseDurable {
        value: u64,
    },
    RaiseReproduced {
        value: u64,
    },
    Entry {
        page: u64,
    },
    Pin {
        page: u64,
    },
    Unpin {
        page: u64,
    },
    Touch {
        page: u64,
    },
    LoadTouch {
        page: u64,
    },
    Evict {
        page: u64,
    },
    /// A home word of the page gets the value that was read of it, in the frame.
    Fill {
        page: u64,
        frame: u64,
        at: u64,
    },
    Show {
        page: u64,
        frame: u64,
    },
    /// One call on the medium, the next one of a call of the back.
    Device {
        call: Call,
    },
}
