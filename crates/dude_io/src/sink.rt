//! The trait of what takes the program's output.

ghost use Rattle.dude_io.specs.Sink.{SinkSight, WritesSink};
ghost use Rattle.std.specs.Prelude.{◌<◌, length};

use pmem_trait::Failed;

/// What takes the program's output.
pub trait Sink {
    /// What is known of the sink: the count of its faults, and the bytes taken where these are visible.
    ghost sight: { Self → SinkSight };

    /// Takes the first bytes of the piece, at least one, and answers how many. At an `Err` it took nothing.
    fn write(&mut self, piece: &[u8]) -> Result<u64, Failed>
        requires { 0 < length piece.now }
        ensures { WritesSink piece.now result (sight self.old) (sight self.new) };
}
