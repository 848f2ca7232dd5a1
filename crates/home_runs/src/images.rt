//! Images of a home, and what opening them leaves.

ghost use Rattle.pmem_fake.specs.Fakes.{sight};
ghost use Rattle.pmem_trait.specs.Sights.{IsAtRest};
ghost use Rattle.std.specs.Prelude.{IfOk};

use crate::home::LOCATION;
use crate::page::Page;
use dude_base::limits::{HEADER, MAGIC, MARK, VERSION_WORD};
use dude_base::place::Place;
use dude_recover::open;
use image_recovery::{OpenFault, image_of};
use pmem_fake::MemPmem;
use pmem_trait::Medium;
use std::alloc::{AllocError, Global};
use tatp_layout::Layout;

/// The image of a home, with this word for its version, and with these words from the first cell of the first ring on.
pub fn image_with(
    alloc: Global,
    lay: &Layout,
    words: &[u64],
    version: u64,
    cells: &[u64],
) -> Result<Vec<u64>, AllocError> {
    let sizes = lay.sizes();
    let mut image = vec![in alloc;
        MAGIC,
        version,
        sizes.subscribers,
        sizes.calls,
        sizes.rings,
        sizes.cells,
        sizes.pages,
        sizes.index,
    ]?;
    image.resize(HEADER as usize, 0)?;
    image.extend_from_slice(cells)?;
    image.resize(Place::of(&sizes).home(0) as usize, 0)?;
    image.extend_from_slice(words)?;
    Ok(image)
}

/// Opens the image of a home, and prints why it isn't opened; or its number, its version, its mark and the location of subscriber 1
/// then, and the bundles that stand in its rings. The numbers are how many moments are the last ones, the version, and words from
/// the first cell on; it is printed too at which of these moments an image that a crash may leave recovers to something else.
pub fn say_open(alloc: Global, lay: &Layout, words: &[u64], numbers: &[u64], page: &mut Page) {
    let [before, version, cells @ ..] = numbers else {
        return page.line("no command");
    };
    let Ok(image) = image_with(alloc, lay, words, *version, cells) else {
        return page.cut();
    };
    let Ok(medium) = medium_of(alloc, image, 0) else {
        return page.cut();
    };
    match open(alloc, medium) {
        Ok(opened) => {
            let number = opened.number;
            let home = opened.words;
            let medium = opened.back.into_medium();
            let image = medium.content();
            let place = Place::of(&lay.sizes());
            let places = [VERSION_WORD, MARK, place.home(LOCATION as u64)];
            let [version, mark, location] = places.map(|at| word_at(image, at));
            page.numbers("opened", &[number, version, mark, location]);
            say_heads(lay, image, page);
            say_others(alloc, &medium, *before, number, &home, page);
        }
        Err((fault, _)) => say_fault(fault, page),
    }
}

/// Prints why an image isn't opened.
fn say_fault(fault: OpenFault, page: &mut Page) {
    match fault {
        OpenFault::Unformatted => page.line("unformatted"),
        OpenFault::Damaged { line } => page.numbers("damaged at line", &[line]),
        OpenFault::NotDb { word } => page.numbers("wrong at word", &[word]),
        OpenFault::Device => page.line("failed device"),
        OpenFault::NoMemory => page.cut(),
    }
}

/// The word at a place, or 0 where there is none.
fn word_at(words: &[u64], at: u64) -> u64 {
    words.get(at as usize).copied().unwrap_or(0)
}

/// A medium that is settled at an image, of which the call of this count, from 1 on, fails.
pub fn medium_of(alloc: Global, image: Vec<u64>, fail: u64) -> Result<MemPmem, AllocError>
    ensures { IfOk result (λ medium. IsAtRest (sight medium)) }
{
    let medium = MemPmem::new(alloc, image, 1_000_000, vec![in alloc; fail]?)?;
    Ok(medium)
}

/// Prints the bundles whose heads stand in the rings of an image: of each the ring and the cell, its first number and its last,
/// and how many writes it has.
pub fn say_heads(lay: &Layout, image: &[u64], page: &mut Page) {
    let sizes = lay.sizes();
    let place = Place::of(&sizes);
    for ring in 0..sizes.rings {
        for cell in 0..sizes.cells {
            let start = place.cell(ring, cell) as usize;
            if let Some([tag, count, ..]) = image.get(start..)
                && tag >> 62 == 1
            {
                let last = tag % (1 << 62);
                let first = last.saturating_sub(count / 256);
                page.numbers("bundle", &[ring, cell, first, last, count % 256]);
            }
        }
    }
}

/// Prints at which of the last so many moments an image that a crash may leave, with the settled words or with the first later
/// ones, recovers to another number or another home.
fn say_others(
    alloc: Global,
    medium: &MemPmem,
    before: u64,
    number: u64,
    home: &[u64],
    page: &mut Page,
) {
    let Ok(ones) = vec![in alloc; 1; medium.content().len()] else {
        return page.cut();
    };
    for left in 0..before {
        let moment = medium.now().saturating_sub(left);
        for picks in [&[], ones.as_slice()] {
            if !recovers_to(alloc, medium, moment, picks, number, home) {
                page.numbers("another image at moment", &[moment]);
            }
        }
    }
}

/// Whether the image that a crash may leave at a moment recovers to this number and this home.
fn recovers_to(
    alloc: Global,
    medium: &MemPmem,
    moment: u64,
    picks: &[u64],
    number: u64,
    home: &[u64],
) -> bool {
    let Ok(image) = medium.images_at(alloc, moment, picks) else {
        return false;
    };
    match image_of(alloc, &image) {
        Ok(found) => found.number == number && found.words.as_slice() == home,
        Err(_) => false,
    }
}
