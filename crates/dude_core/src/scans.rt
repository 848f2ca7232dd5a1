//! What the entries of pages say, read from one end to the other.

ghost use Rattle.dude_core.specs.Named.{Tells};
ghost use Rattle.dude_core.specs.Views.{NoneNames};

use crate::setup::{Setup, names_frame};
use crate::words::load;

/// Whether no entry names the frame.
pub(crate) fn none_names(entries: &Vec<u64>, z: &Setup, frame: u64) -> bool
    ensures { Tells result (NoneNames z.now entries.now.items frame) }
{
    for page in 0..z.pages() {
        if names_frame(load(entries, page), frame) {
            return false;
        }
    }
    true
}
