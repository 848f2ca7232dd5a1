//! A whole text, handed to a sink.

ghost use Rattle.command_edges.specs.Printing.{FailsIn, Prints};
ghost use Rattle.std.specs.Prelude.{◌≡◌, [], OnOk, IfErr};

use crate::fault::Fault;
use dude_io::{Sink, write_all};

/// Hands the sink a whole text. An empty text makes no call.
pub fn print_text<K: Sink>(text: &[u8], out: &mut K) -> Result<(), Fault>
    ensures ok { OnOk result (Prints K.sight text.now out.old out.new) }
    ensures err { IfErr result (FailsIn text.now (K.sight out.old) (K.sight out.new)) }
    ensures untouched { text.now ≡ [] → out.new ≡ out.old }
{
    match write_all(out, text) {
        Ok(()) => Ok(()),
        Err(_) => Err(Fault::Output),
    }
}
