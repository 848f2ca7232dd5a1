//! Standard output; what it does with the bytes that it takes is seen by no contract (trusted).

use crate::Sink;
use pmem_trait::{Failed, FaultCount};

/// Standard output. What it took is not visible.
#[derive(Drop)]
pub struct RealSink<R: Print> {
    rt: R,
    faults: FaultCount,
}

impl<R: Print> RealSink<R> {
    ghost use Rattle.dude_io.specs.Silent.{silent_sink};
    ghost use Rattle.std.specs.Prelude.{◌≡◌};

    /// The output of this runtime, with no fault yet. Nothing is written.
    pub fn new(rt: R) -> RealSink<R>
        ensures { ⟦<RealSink<R> as Sink>⟧.sight result ≡ silent_sink 0 }
    {
        let faults = FaultCount::new();
        RealSink { rt, faults }
    }
}

impl<R: Print> Sink for RealSink<R> {
    ghost use Rattle.dude_io.specs.Silent.{real_sink_sight, WritesRealSink};
    ghost use Rattle.std.specs.Prelude.{◌<◌, length};

    ghost sight = { real_sink_sight };

    /// Nothing taken is a fault too.
    fn write(&mut self, piece: &[u8]) -> Result<u64, Failed>
        requires { 0 < length piece.now }
        ensures { WritesRealSink piece.now result self.old self.new }
    {
        match self.rt.write_some(piece) {
            Ok(taken) if taken > 0 => Ok(taken as u64),
            _ => {
                self.faults.rise();
                Err(Failed)
            }
        }
    }
}
