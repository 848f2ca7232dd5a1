//! What is carried out over a medium: a command of the product, or the opening or the making of an image.

use crate::followers::followed;
use crate::found::found_text;
use crate::outcome::Outcome;
use crate::scene::{Scene, file_of, files_of, medium_of, sink_of};
use crate::setup::changed;
use crate::several::runs_several;
use command_edges::{Fault, fault_text};
use dude_base::sizes::Sizes;
use dude_io::{Files, Sink};
use dude_program::dude;
use dude_recover::{format, make_image, open};
use pmem_trait::Medium;
use script_words::{number_of, numbers_of};
use std::alloc::{AllocError, Global};
use std::rc::RcStr;
use std::thread::Threads;

/// Carries out what these words say. Where they say nothing, the medium isn't called.
pub fn act<R: Threads + Sync>(
    threads: &R,
    alloc: Global,
    scene: &Scene,
    words: &[&str],
) -> Result<Outcome, AllocError> {
    match words {
        ["dude" | "aside", command @ ..] => command_of(threads, alloc, scene, command),
        ["open", pairs @ ..] => match changed(alloc, scene.image, pairs)? {
            Some(image) => opened(
                alloc,
                &Scene {
                    image: &image,
                    ..*scene
                },
            ),
            None => not_called(alloc, scene),
        },
        ["follow", room, name] => match (number_of(room), file_of(scene, name)) {
            (Some(room), Some(file)) => followed(alloc, scene, room, &file.bytes),
            _ => not_called(alloc, scene),
        },
        [name, numbers @ ..] => match sizes_of(alloc, numbers)? {
            Some(sizes) if *name == "format" => formatted(alloc, scene, &sizes),
            Some(sizes) if *name == "make" => made(alloc, scene, &sizes),
            _ => not_called(alloc, scene),
        },
        [] => not_called(alloc, scene),
    }
}

/// What is left where nothing was carried out.
fn not_called(alloc: Global, scene: &Scene) -> Result<Outcome, AllocError> {
    let medium = medium_of(alloc, scene)?;
    let answer = String::from_str(alloc, "no command\n")?;
    Outcome::new(alloc, scene.image, answer, medium)
}

/// Carries out a command of the product.
pub fn command_of<R: Threads + Sync>(
    threads: &R,
    alloc: Global,
    scene: &Scene,
    command: &[&str],
) -> Result<Outcome, AllocError> {
    let mut words = Vec::new(alloc);
    for word in command {
        words.push(RcStr::from_str(alloc, word)?)?;
    }
    let medium = medium_of(alloc, scene)?;
    let mut files = files_of(alloc, scene)?;
    let mut sink = sink_of(alloc, &scene.settings)?;
    let ended = dude(threads, alloc, &words, medium, &mut files, &mut sink);
    let printed = sink.bytes().to_vec(alloc)?;
    Ok(Outcome {
        before: scene.image.to_vec(alloc)?,
        answer: status_line(alloc, ended.status, &ended.fault)?,
        medium: ended.medium,
        done: ended.done,
        printed: Some(printed),
        runs_several: runs_several(command),
        streams: matches!(command, ["stream", ..]),
        next_fail: files.read("f", 0, &mut [0; 8]).is_err() && sink.write(b"last 0\n").is_err(),
    })
}

/// The line with the status and the fault.
fn status_line(alloc: Global, status: u8, fault: &Option<Fault>) -> Result<String, AllocError> {
    let Some(fault) = fault else {
        return format!(in alloc; "status {status}\n");
    };
    let mut line = Vec::new(alloc);
    fault_text(fault, &mut line)?;
    let line = str::from_utf8(&line).unwrap_or("(no text)\n");
    format!(in alloc; "status {status}: {line}")
}

/// Opens an image.
fn opened(alloc: Global, scene: &Scene) -> Result<Outcome, AllocError> {
    let (found, medium) = match open(alloc, medium_of(alloc, scene)?) {
        Ok(opened) => (Ok((opened.number, opened.words)), opened.back.into_medium()),
        Err((fault, medium)) => (Err(fault), medium),
    };
    let answer = found_text(alloc, scene.image, medium.content(), &found)?;
    Outcome::new(alloc, scene.image, answer, medium)
}

/// Makes an image of these sizes over the words of the one in memory.
fn formatted(alloc: Global, scene: &Scene, sizes: &Sizes) -> Result<Outcome, AllocError> {
    let medium = medium_of(alloc, scene)?;
    let (answer, medium) = match format(alloc, medium, sizes) {
        Ok(medium) => (String::from_str(alloc, "made\n")?, medium),
        Err((fault, medium)) => (format!(in alloc; "{fault}\n")?, medium),
    };
    Outcome::new(alloc, scene.image, answer, medium)
}

/// Makes an image of these sizes over the words of the one in memory, by the call that gives the home.
fn made(alloc: Global, scene: &Scene, sizes: &Sizes) -> Result<Outcome, AllocError> {
    let mut medium = medium_of(alloc, scene)?;
    let answer = match make_image(alloc, &mut medium, sizes) {
        Ok(home) => {
            let image = medium.content();
            found_text(alloc, image, image, &Ok((0, home)))?
        }
        Err(fault) => format!(in alloc; "{fault}\n")?,
    };
    Outcome::new(alloc, scene.image, answer, medium)
}

/// Sizes with the pages that they need, or with these pages, whether an image may have them or not.
fn sizes_of(alloc: Global, words: &[&str]) -> Result<Option<Sizes>, AllocError> {
    let Some(numbers) = numbers_of(alloc, words)? else {
        return Ok(None);
    };
    Ok(match numbers.as_slice() {
        [subscribers, calls, rings, cells] => {
            Sizes::of(*subscribers, *calls, *rings, *cells).ok()
        }
        [subscribers, calls, rings, cells, pages] => Some(Sizes {
            subscribers: *subscribers,
            calls: *calls,
            rings: *rings,
            cells: *cells,
            pages: *pages,
            index: 0,
        }),
        _ => None,
    })
}
