//! A medium or a sink whose calls are noted for the progress of a load.

use crate::progress::Progress;
use dude_io::Sink;
use pmem_trait::{Failed, Medium};

/// A medium or a sink whose calls are noted for the progress of a load. It hands each call on. Of a medium the syncs and the
/// numbers told are noted. Before the first byte that a sink gets the line of progress ends: what a load prints stands behind it,
/// and then all of it is done.
#[derive(Drop)]
pub struct Watched<'a, T> {
    pub inner: T,
    pub progress: &'a Progress,
}

impl<M: Medium> Medium for Watched<'_, M> {
    ghost sight = { λ watched. M.sight watched.inner };

    fn len(&self) -> u64 {
        self.inner.len()
    }

    fn now(&self) -> u64 {
        self.inner.now()
    }

    fn read(&mut self, at: u64) -> Result<u64, Failed> {
        self.inner.read(at)
    }

    fn put(&mut self, at: u64, value: u64) -> Result<(), Failed> {
        self.inner.put(at, value)
    }

    fn flush(&mut self, line: u64) -> Result<(), Failed> {
        self.inner.flush(line)
    }

    fn fence(&mut self) -> Result<(), Failed> {
        self.progress.count_sync();
        self.inner.fence()
    }

    fn tell(&mut self, number: u64) -> Result<(), Failed> {
        self.progress.note_told(number);
        self.inner.tell(number)
    }

    ghost fits = { λ watched. M.fits watched.inner };
}

impl<K: Sink> Sink for Watched<'_, K> {
    ghost sight = { λ watched. K.sight watched.inner };

    fn write(&mut self, piece: &[u8]) -> Result<u64, Failed> {
        let _ = self.progress.end(true);
        self.inner.write(piece)
    }
}
