//! Files on disk, of any bytes.

use crate::edges::text_of;
use crate::faulty_host::FaultyHost;
use crate::file_command::FileCommand;
use crate::medium::say_size;
use crate::say::say_pair;
use dude_io::{EdgeFault, FilePmem};
use script_words::number_at;
use std::{fs, io};

/// Prints how many bytes a file has, and those at some places, each behind its place; without places all that aren't 0.
pub fn say_file(rt: HostRuntime, name: &str, places: &[u64]) -> io::Result<()> {
    let bytes = fs::read(&rt, name)?;
    let count = bytes.len();
    print!(rt; "{count} bytes:")?;
    for at in 0..count {
        if is_wanted(places, at as u64, bytes[at]) {
            say_pair(rt, at as u64, u64::from(bytes[at]))?;
        }
    }
    println!(rt)
}

/// Whether a byte is printed.
fn is_wanted(places: &[u64], at: u64, byte: u8) -> bool {
    if places.is_empty() {
        byte != 0
    } else {
        places.contains(&at)
    }
}

/// Opens the medium in a file beside another opening, prints its size, or why there is none, and lets it go.
pub fn open_beside(rt: HostRuntime, name: &str) -> io::Result<()> {
    match FilePmem::open(FaultyHost::new(rt, None), name) {
        Ok(medium) => say_size(rt, &medium),
        Err(fault) => say_edge_fault(rt, fault),
    }
}

/// Prints why no medium was opened.
pub fn say_edge_fault(rt: HostRuntime, fault: EdgeFault) -> io::Result<()> {
    rt.println(match fault {
        EdgeFault::Failed => "failed",
        EdgeFault::NoMemory => "no memory",
    })
}

/// Makes or removes a file or a folder, and prints that it was done.
pub fn change(rt: HostRuntime, command: &FileCommand) -> io::Result<()> {
    let (file, numbers) = (command.file, command.numbers);
    let done = match command.name {
        "fill" => write_bytes(rt, file, number_at(numbers, 0), number_at(numbers, 1)),
        "store" => write_lines(rt, file, command.lines),
        "folder" => fs::create_dir(&rt, file),
        "remove" => fs::remove_file(&rt, file),
        "remove_empty" => fs::remove_dir(&rt, file),
        _ => return rt.println("no command"),
    };
    done?;
    rt.println("ok")
}

/// Makes a file of these lines.
fn write_lines(rt: HostRuntime, name: &str, lines: &[&str]) -> io::Result<()> {
    let text = text_of(rt.alloc(), lines)?;
    fs::write(&rt, name, text.as_bytes())
}

/// Makes a file of so many bytes, each this one.
fn write_bytes(rt: HostRuntime, name: &str, len: u64, byte: u64) -> io::Result<()> {
    let bytes = vec![in rt.alloc(); (byte % 256) as u8; len as usize]?;
    fs::write(&rt, name, bytes.as_slice())
}
