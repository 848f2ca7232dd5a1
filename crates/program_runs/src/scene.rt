//! What a command is tried with: an image, request files, and which calls fail.

ghost use Rattle.pmem_fake.specs.Fakes.{sight};
ghost use Rattle.pmem_trait.specs.Sights.{IsAtRest};
ghost use Rattle.std.specs.Prelude.{IfOk};

use dude_io::{MemFile, MemFiles, MemSink};
use pmem_fake::MemPmem;
use std::alloc::{AllocError, Global};

/// Which calls of a command fail, and how much is moved by one. Calls are counted from 1, on the medium, on the files and
/// on the sink by themselves. A count of 0 is that of no call.
#[derive(Clone, Copy)]
pub struct Settings {
    /// How many calls on the medium may be made, at most ten million. Those over it fail.
    pub budget: u64,
    /// The call on the medium that fails.
    pub failing_call: u64,
    /// Whether that call has its effect first.
    pub late: bool,
    /// The read of a file that fails.
    pub failing_read: u64,
    /// The write of the sink that fails.
    pub failing_write: u64,
    /// How many bytes a read gives and a write takes at most.
    pub chunk: u64,
    /// How many bytes the sink takes in all.
    pub room: u64,
}

impl Settings {
    /// No call fails.
    pub fn new() -> Settings {
        Settings {
            budget: 20_000,
            failing_call: 0,
            late: false,
            failing_read: 0,
            failing_write: 0,
            chunk: 4_096,
            room: 65_536,
        }
    }

    /// Sets what has this name to a count; `false` where nothing has it.
    pub fn set(&mut self, name: &str, count: u64) -> bool {
        match name {
            "early" | "late" => {
                self.failing_call = count;
                self.late = name == "late";
            }
            "read" => self.failing_read = count,
            "write" => self.failing_write = count,
            "budget" => self.budget = count,
            "chunk" => self.chunk = count,
            "room" => self.room = count,
            _ => return false,
        }
        true
    }
}

/// What a command is tried with.
#[derive(Clone, Copy)]
pub struct Scene<'a> {
    pub image: &'a [u64],
    /// The request files. Of two with one name the later one counts.
    pub files: &'a [MemFile],
    pub settings: Settings,
}

/// A medium that is settled at these words.
pub fn medium_of(alloc: Global, scene: &Scene) -> Result<MemPmem, AllocError>
    ensures settled { IfOk result (λ medium. IsAtRest (sight medium)) }
{
    let budget = scene.settings.budget.min(10_000_000);
    let fail = vec![in alloc; scene.settings.failing_call]?;
    let image = scene.image.to_vec(alloc)?;
    if scene.settings.late {
        let medium = MemPmem::late(alloc, image, budget, fail)?;
        Ok(medium)
    } else {
        let medium = MemPmem::new(alloc, image, budget, fail)?;
        Ok(medium)
    }
}

/// The request files, the later ones first.
pub fn files_of(alloc: Global, scene: &Scene) -> Result<MemFiles, AllocError> {
    let mut own = Vec::new(alloc);
    for file in scene.files.iter().rev() {
        own.push(MemFile {
            name: file.name.clone()?,
            bytes: file.bytes.clone()?,
        })?;
    }
    let fail = vec![in alloc; scene.settings.failing_read]?;
    MemFiles::new(own, scene.settings.chunk.max(1), fail)
}

/// The file of this name, if there is one.
pub fn file_of<'a>(scene: &Scene<'a>, name: &str) -> Option<&'a MemFile> {
    scene
        .files
        .iter()
        .rev()
        .find(|file| file.name.as_str() == name)
}

/// A sink that took nothing yet.
pub fn sink_of(alloc: Global, settings: &Settings) -> Result<MemSink, AllocError> {
    let fail = vec![in alloc; settings.failing_write]?;
    MemSink::new(alloc, settings.room, settings.chunk.max(1), fail)
}
