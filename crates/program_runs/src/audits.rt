//! What a run printed is audited, on the image from before it.

use crate::acts::command_of;
use crate::outcome::Outcome;
use crate::printing::print_ending;
use crate::scene::{Scene, Settings};
use crate::several::behind_options;
use crate::streams::in_files;
use dude_io::MemFile;
use std::alloc::{AllocError, Global};
use std::io;
use std::thread::Threads;

/// The name of the file that has what a run printed.
const PRINTED: &str = "run.out";

/// Audits what a run or a stream of the product printed, where it ended well, and prints how that ended unless the answer is
/// yes; where numbers or the order of lines depend on the turns of threads, also where it is. Of a stream the lines of each file
/// are put together, and their file's number is cut off.
pub fn audit_run<R: Threads + Sync>(
    threads: &R,
    rt: &HostRuntime,
    scene: &Scene,
    words: &[&str],
    outcome: &Outcome,
) -> io::Result<()> {
    let Some(printed) = &outcome.printed else {
        return Ok(());
    };
    let ["dude" | "aside", "run" | "stream", rest @ ..] = words else {
        return Ok(());
    };
    if outcome.answer.as_str() != "status 0\n" {
        return Ok(());
    }
    let names = behind_options(rest);
    let printed = if outcome.streams {
        in_files(rt.alloc(), printed, names.len() as u64)?
    } else {
        printed.to_vec(rt.alloc())?
    };
    let audited = audited(threads, rt.alloc(), scene, names, &printed)?;
    match &audited.printed {
        Some(text) if text.as_slice() == b"yes\n".as_slice() => {
            if outcome.depends_on_turns() || outcome.mixes_lines() {
                rt.println("an audit of this run says yes")?;
            }
            Ok(())
        }
        _ => {
            rt.println("an audit of this run ends otherwise:")?;
            print_ending(rt, &audited)
        }
    }
}

/// Carries out an audit of a printed run of the files of these names.
fn audited<R: Threads + Sync>(
    threads: &R,
    alloc: Global,
    scene: &Scene,
    names: &[&str],
    printed: &[u8],
) -> Result<Outcome, AllocError> {
    let mut files = Vec::new(alloc);
    for file in scene.files {
        files.push(MemFile {
            name: file.name.clone()?,
            bytes: file.bytes.clone()?,
        })?;
    }
    files.push(MemFile {
        name: String::from_str(alloc, PRINTED)?,
        bytes: printed.to_vec(alloc)?,
    })?;
    let mut command = Vec::new(alloc);
    command.push("audit")?;
    command.push(PRINTED)?;
    for name in names {
        command.push(*name)?;
    }
    let mut settings = Settings::new();
    settings.budget = 10_000_000;
    let scene = Scene {
        image: scene.image,
        files: &files,
        settings,
    };
    command_of(threads, alloc, &scene, &command)
}
