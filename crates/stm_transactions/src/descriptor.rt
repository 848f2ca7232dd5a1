//! The descriptor of a pass's transactions.

ghost use Rattle.std.specs.Prelude.{IfOk};
ghost use Rattle.stm_transactions.specs.Descriptor.{HoldsNothing};

use dude_base::write_list::WriteList;
use std::alloc::{AllocError, Global};

// How many reads have room from the start: more than a request makes on an image without an index.
const FIRST_READS: usize = 64;

/// The lists that a pass has for its transactions, so that none of them makes its own (TinySTM's descriptor): what is read,
/// what is written, the locks that were taken for that with their old words, and at the end the frames of the written pages.
#[derive(Drop)]
pub struct Descriptor {
    pub(crate) reads: Vec<(u64, u64)>,
    pub(crate) writes: WriteList,
    pub(crate) held: WriteList,
    pub(crate) frames: WriteList,
}

impl Descriptor {
    /// Empty lists.
    pub fn new(alloc: Global) -> Result<Box<Descriptor>, AllocError>
        ensures { IfOk result (λ descriptor. HoldsNothing descriptor.value) }
    {
        let descriptor = Box::new(
            alloc,
            Descriptor {
                reads: Vec::with_capacity(alloc, FIRST_READS)?,
                writes: WriteList::new(),
                held: WriteList::new(),
                frames: WriteList::new(),
            },
        )?;
        Ok(descriptor)
    }

    /// Drops what stands in them. Their memory stays.
    pub(crate) fn clear(&mut self)
        ensures { HoldsNothing self.new }
    {
        self.reads.clear();
        self.writes.clear();
        self.held.clear();
        self.frames.clear();
    }
}
