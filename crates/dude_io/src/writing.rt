//! All bytes of a text are handed to a sink, call by call.

ghost use Rattle.dude_io.specs.Sink.{WritesAll};
ghost use Rattle.std.specs.Prelude.{◌≡◌, OnOk, []};

use crate::Sink;
use pmem_trait::Failed;

/// Writes all the bytes. The first write that fails ends it. After an `Err` the sink has the first ones of them, perhaps
/// none and never all.
pub fn write_all<K: Sink>(sink: &mut K, bytes: &[u8]) -> Result<(), Failed>
    ensures writes { WritesAll bytes.now result (K.sight sink.old) (K.sight sink.new) }
    ensures calm { OnOk result ((K.sight sink.new).faults ≡ (K.sight sink.old).faults) }
    ensures untouched { bytes.now ≡ [] → sink.new ≡ sink.old }
{
    let mut done = 0;
    'pieces: while done < bytes.len() {
        done += sink.write(&bytes[done..])? as usize;
    }
    Ok(())
}
