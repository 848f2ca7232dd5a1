//! The events of the machine, by their names in a script.

use crate::parts::{cut, numbers_in};
use dude_base::redo::Redo;
use dude_base::write::Write;
use dude_core::Event;
use pmem_trait::Call;
use script_words::pair_of;
use std::alloc::{AllocError, Global};
use tatp_model::reply::Reply;
use tatp_model::request::Request;

/// The event that a text names, with its numbers.
pub fn event_of(alloc: Global, text: &str) -> Result<Option<Event>, AllocError> {
    let (name, rest) = cut(text);
    let numbers = numbers_in(alloc, rest)?;
    match numbers.as_slice() {
        [] => Ok(plain_event(name)),
        [number] => Ok(numbered_event(name, *number, rest)),
        [first, second] => Ok(double_event(name, *first, *second)),
        [page, frame, at] => Ok(fill_event(name, *page, *frame, *at)),
        _ => Ok(None),
    }
}

fn plain_event(name: &str) -> Option<Event> {
    match name {
        "Number" => Some(Event::Number),
        "Begin" => Some(Event::Clock { extend: false }),
        "Extend" => Some(Event::Clock { extend: true }),
        "Decide" => Some(Event::Decide),
        "SeeBox" => Some(Event::SeeBox),
        "Post" => Some(Event::Post),
        "TakeTurn" => Some(Event::TakeTurn),
        "GiveTurn" => Some(Event::GiveTurn { failed: false }),
        "FailTurn" => Some(Event::GiveTurn { failed: true }),
        "Fence" => Some(Event::Device { call: Call::Fence }),
        _ => None,
    }
}

fn numbered_event(name: &str, number: u64, rest: &str) -> Option<Event> {
    match name {
        "Draw" => draw(number, rest),
        "Split" => Some(Event::Split { draws: number }),
        "Join" => Some(Event::Join { other: number }),
        "Finish" => Some(finish(number)),
        "RaiseDurable" => Some(Event::RaiseDurable { value: number }),
        "RaiseReproduced" => Some(Event::RaiseReproduced { value: number }),
        _ => match lock_event(name, number) {
            Some(event) => Some(event),
            None => page_or_call(name, number),
        },
    }
}

fn lock_event(name: &str, number: u64) -> Option<Event> {
    match name {
        "Look" => Some(Event::Look { lock: number }),
        "Load" => Some(Event::Load { at: number }),
        "Check" => Some(Event::Check { lock: number }),
        "Take" => Some(Event::Take { lock: number }),
        "Store" => Some(Event::Store { at: number }),
        "Release" => Some(Event::Release { lock: number }),
        "Restore" => Some(Event::Restore { lock: number }),
        _ => None,
    }
}

fn page_or_call(name: &str, number: u64) -> Option<Event> {
    match call_of(name, number) {
        Some(call) => Some(Event::Device { call }),
        None => page_event(name, number),
    }
}

/// A call on the medium with one number.
fn call_of(name: &str, number: u64) -> Option<Call> {
    match name {
        "Read" => Some(Call::Read(number)),
        "Flush" => Some(Call::Flush(number)),
        "Tell" => Some(Call::Tell(number)),
        _ => None,
    }
}

fn page_event(name: &str, page: u64) -> Option<Event> {
    match name {
        "Entry" => Some(Event::Entry { page }),
        "Pin" => Some(Event::Pin { page }),
        "Unpin" => Some(Event::Unpin { page }),
        "Touch" => Some(Event::Touch { page }),
        "LoadTouch" => Some(Event::LoadTouch { page }),
        "Evict" => Some(Event::Evict { page }),
        _ => None,
    }
}

fn double_event(name: &str, first: u64, second: u64) -> Option<Event> {
    match name {
        "SeeFull" => Some(Event::SeeFull {
            thread: first,
            place: second,
        }),
        "EmptyBox" => Some(Event::EmptyBox {
            thread: first,
            place: second,
        }),
        "Show" => Some(Event::Show {
            page: first,
            frame: second,
        }),
        "Put" => Some(Event::Device {
            call: Call::Put {
                at: first,
                value: second,
            },
        }),
        _ => None,
    }
}

fn fill_event(name: &str, page: u64, frame: u64, at: u64) -> Option<Event> {
    match name {
        "Fill" => Some(Event::Fill { page, frame, at }),
        _ => None,
    }
}

fn finish(index: u64) -> Event {
    Event::Finish {
        file: 0,
        index,
        request: reading(index),
        reply: Reply::Missing,
    }
}

/// A draw for the writes among these words.
fn draw(index: u64, words: &str) -> Option<Event> {
    let mut writes = Redo::new(0);
    for word in words.split_whitespace() {
        if let Some((at, value)) = pair_of(word) {
            writes.push(Write { at, value }).ok()?;
        }
    }
    Some(Event::Draw {
        file: 0,
        index,
        request: updating(index),
        reply: Reply::Changed,
        writes,
    })
}

/// The update at this place of file 0, which is answered `Changed`.
pub fn updating(index: u64) -> Request {
    Request::UpdateLocation {
        sub_nbr: 1,
        vlr: index,
    }
}

/// The request that only reads at this place of file 0, which is answered `Missing`.
pub fn reading(index: u64) -> Request {
    Request::GetSubscriber { s_id: index }
}
