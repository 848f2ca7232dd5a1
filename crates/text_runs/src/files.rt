//! The files of a command, read by their names.

ghost use Rattle.command_edges.specs.Files.{AreInRange};
ghost use Rattle.std.specs.Prelude.{IfOk};

use crate::page::push_count;
use crate::requests::push_requests;
use crate::stop::Stop;
use crate::words::shared_words;
use command_edges::{Fault, fault_text, read_files};
use dude_io::{MemFile, MemFiles};
use std::alloc::AllocError;
use tatp_model::Request;

/// How many bytes a read gives at most. A file that is shorter takes two reads: its bytes, and its end.
const MOST: u64 = 4096;

/// The requests of the files of these names.
pub fn files(mut world: MemFiles, names: &[&str], out: &mut Vec<u8>) -> Result<(), Stop> {
    Ok(push_lists(read_files(*out.allocator(), names, &mut world), out)?)
}

/// The reads that it takes to read the files of these names.
pub fn reads(mut world: MemFiles, names: &[&str], out: &mut Vec<u8>) -> Result<(), Stop> {
    let _ = read_files(*out.allocator(), names, &mut world);
    for read in world.reads() {
        let name = read.name.as_str();
        let at = read.at;
        let end = if read.failed { " failed" } else { "" };
        let line = format!(in *out.allocator(); "{name} from {at}{end}\n")?;
        out.extend_from_slice(line.as_bytes())?;
    }
    Ok(())
}

/// The requests of the files of these names, which are shared texts.
pub fn shared(mut world: MemFiles, names: &[&str], out: &mut Vec<u8>) -> Result<(), Stop> {
    let names = shared_words(*out.allocator(), names)?;
    Ok(push_lists(read_files(*out.allocator(), &names, &mut world), out)?)
}

/// Files in memory, of which chosen calls fail. `out` says where memory comes from.
pub fn world_of(files: &[MemFile], fail: &[u64], out: &Vec<u8>) -> Result<MemFiles, Stop> {
    let alloc = *out.allocator();
    let mut copies = Vec::new(alloc);
    for file in files {
        copies.push(MemFile {
            name: String::from_str(alloc, file.name.as_str())?,
            bytes: file.bytes.to_vec(alloc)?,
        })?;
    }
    Ok(MemFiles::new(copies, MOST, fail.to_vec(alloc)?)?)
}

/// The requests of each file, or the fault.
fn push_lists(lists: Result<Vec<Vec<Request>>, Fault>, out: &mut Vec<u8>) -> Result<(), AllocError>
    requires { IfOk lists AreInRange }
{
    match lists {
        Ok(lists) => {
            push_count("files", lists.len() as u64, out)?;
            for requests in &lists {
                push_requests(requests, out)?;
            }
            Ok(())
        }
        Err(fault) => fault_text(&fault, out),
    }
}
