//! The home of a database: its new words, where its parts stand, and requests on it.

ghost use Rattle.dude_base.specs.declared.limits.TheConstants.{PAGE};
ghost use Rattle.std.specs.Prelude.{◌≡◌, ◌*◌, [], All, IsTrue};
ghost use Rattle.tatp_model.specs.Request.{IsInRange};
ghost use Rattle.word_space.specs.Flats.{flat_sight};

use crate::page::Page;
use dude_base::field::Field;
use dude_base::limits::PAGE;
use dude_base::place::Place;
use dude_base::size_fault::SizeFault;
use dude_base::sizes::Sizes;
use hash_table::table::Table;
use std::alloc::Global;
use tatp_core::run_request;
use tatp_layout::Layout;
use tatp_model::{Done, Reply, Request};
use tatp_rows::{PopFault, populate};
use word_space::flat::Flat;
use word_space::words::Words;

/// The word of subscriber 1's location in the home for 8 subscribers.
pub const LOCATION: usize = 22;

/// The home of a new database of these sizes, the subscribers, the call rows, the rings, the cells of a ring, and the pages where
/// they are given. `None` where there is none; what it is, or why there is none, is printed.
pub fn new_home(alloc: Global, numbers: &[u64], page: &mut Page) -> Option<(Layout, Vec<u64>)> {
    let lay = match layout_of(numbers) {
        Ok(lay) => lay,
        Err(fault) => {
            say_fault(fault, page);
            return None;
        }
    };
    match populate(alloc, &lay) {
        Ok(words) => {
            page.numbers("pages and words", &[lay.sizes().pages, words.len() as u64]);
            Some((lay, words))
        }
        Err(PopFault::TooFew { rows, calls }) => {
            page.numbers("more call rows than room", &[rows, calls]);
            None
        }
        Err(PopFault::NoMemory) => {
            page.cut();
            None
        }
    }
}

/// The places in the home of these sizes.
fn layout_of(numbers: &[u64]) -> Result<Layout, SizeFault> {
    let sizes = match *numbers {
        [subscribers, calls, rings, cells] => Sizes::of(subscribers, calls, rings, cells)?,
        [subscribers, calls, rings, cells, pages] => Sizes {
            subscribers,
            calls,
            rings,
            cells,
            pages,
            index: 0,
        },
        _ => Sizes::of(0, 0, 0, 0)?,
    };
    Layout::of(&sizes)
}

/// Prints which size is out of its limits.
fn say_fault(fault: SizeFault, page: &mut Page) {
    page.line(match fault.field {
        Field::Subscribers => "no such number of subscribers",
        Field::Calls => "no such number of calls",
        Field::Rings => "no such number of rings",
        Field::Cells => "no such number of cells",
        Field::Pages => "no such number of pages",
        Field::Index => "no such index",
    });
}

/// Whether a home has so many words.
pub fn is_home(lay: &Layout, count: u64) -> bool
    ensures { IsTrue result → count ≡ lay.now.pages * PAGE }
{
    lay.sizes().pages.checked_mul(PAGE) == Some(count)
}

/// Prints where in the image a cell of a ring and a word of the home stand, and how long the image is.
pub fn say_in_image(lay: &Layout, numbers: &[u64], page: &mut Page) {
    let sizes = lay.sizes();
    let place = Place::of(&sizes);
    match *numbers {
        [ring, cell, word]
            if ring < sizes.rings && cell < sizes.cells && word / PAGE < sizes.pages => {
            let places = [place.cell(ring, cell), place.home(word), place.words()];
            page.numbers("cell, word and length", &places);
        }
        _ => page.line("no command"),
    }
}

/// Prints where each table stands: its header, the links of its buckets, its records, and the words of each.
pub fn say_places(lay: &Layout, page: &mut Page) {
    say_place("subscribers", &lay.subscribers(), page);
    say_place("numbers", &lay.numbers(), page);
    say_place("access", &lay.access(), page);
    say_place("facilities", &lay.facilities(), page);
    say_place("calls", &lay.calls(), page);
}

/// Prints where a table stands.
fn say_place(name: &str, table: &Table, page: &mut Page) {
    let pool = &table.pool;
    page.numbers(name, &[pool.base, table.at, pool.first, pool.size]);
}

/// Prints the words that differ from those of a new home.
pub fn say_changes(alloc: Global, lay: &Layout, words: &[u64], page: &mut Page) {
    let Ok(new) = populate(alloc, lay) else {
        return page.cut();
    };
    page.put(b"changed");
    for (place, word) in words.iter().enumerate() {
        if new.get(place) != Some(word) {
            page.put_pair(place as u64, *word);
        }
    }
    page.line("");
}

/// Serves requests one after another, and of each prints how many words it wrote and its reply.
pub fn serve_each(lay: &Layout, flat: &mut Flat, requests: &[Request], page: &mut Page)
    requires { All IsInRange requests.now }
{
    for request in requests {
        flat.forget();
        if is_home(lay, flat.len()) {
            serve(lay, flat, request, page);
        }
    }
}

/// Serves a request, and prints how many words it wrote and its reply.
fn serve(lay: &Layout, flat: &mut Flat, request: &Request, page: &mut Page)
    requires in_range { IsInRange request.now }
    requires size { (flat_sight flat.old).count ≡ lay.now.pages * PAGE }
    requires no_writes { (flat_sight flat.old).writes ≡ [] }
{
    if let Request::Sync = request {
        return page.line("no request to tables");
    }
    match run_request(lay, flat, request) {
        Ok(reply) => page.done(&done_at(0, 0, flat.take(1).len(), reply)),
        Err(_) => page.cut(),
    }
}

/// A request that is done, by its place, its number and its reply.
pub fn done_at(file: u64, index: u64, number: u64, reply: Reply) -> Done {
    Done {
        file,
        index,
        number,
        wrote: false,
        request: Request::Sync,
        reply,
    }
}
