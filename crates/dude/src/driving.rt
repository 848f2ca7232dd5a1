//! A load whose progress is shown on the terminal.

use crate::opening::fault_of;
use crate::progress::Progress;
use crate::progress_runtime::ProgressRuntime;
use crate::watched::Watched;
use command_edges::{Command, command_of};
use dude_io::{FilePmem, RealFiles, RealSink};
use dude_program::{Fault, dude_watched};
use std::io::IsTerminal;
use std::rc::RcStr;
use std::thread::Threads;

/// The progress that is shown: that of a load, where standard error is a terminal.
pub fn progress_of(rt: HostRuntime, words: &[RcStr]) -> Option<Progress> {
    if !rt.stderr().is_terminal() {
        return None;
    }
    match command_of(rt.alloc(), words) {
        Ok(Some(Command::Drive { count, files, .. })) => Progress::new(rt, files, count),
        _ => None,
    }
}

/// Carries out a load on the image of this name, shows its progress, and gives the fault that it ends with.
pub fn drive_shown<R: Threads + Sync>(
    threads: &R,
    rt: HostRuntime,
    name: &str,
    words: &[RcStr],
    progress: &Progress,
) -> Option<Fault> {
    let medium = match FilePmem::open(ProgressRuntime { rt, progress }, name) {
        Ok(inner) => Watched { inner, progress },
        Err(fault) => return Some(fault_of(fault)),
    };
    let mut files = RealFiles::new(rt);
    let mut out = Watched {
        inner: RealSink::new(rt),
        progress,
    };
    let ended = dude_watched(
        threads,
        rt.alloc(),
        words,
        medium,
        &mut files,
        &mut out,
        progress,
    );
    let _ = progress.end(ended.fault.is_none());
    ended.fault
}
