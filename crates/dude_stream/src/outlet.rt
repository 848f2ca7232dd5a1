//! What the printer has of a lane.

ghost use Rattle.std.specs.Prelude.{◌≡◌, [], IfOk, OnErr, OnOk};

use crate::drain::Drain;
use crate::line::write_lane;
use std::alloc::AllocError;

/// How many replies of a lane the printer takes in a row.
const REPLIES_IN_A_ROW: u32 = 64;

/// The end of a lane, and how many lines of its file aren't printed yet.
#[derive(Drop)]
pub struct Outlet {
    pub drain: Drain,
    pub left: usize,
}

impl Outlet {
    ghost use Rattle.dude_stream.specs.Printing.{Empties, GaveLines, GaveMore, GaveNext, GaveSomeLines};

    /// Takes replies of the lane, but not all at once where others may wait, and appends their lines. False where the lane
    /// gives none, or all lines of the file are printed. Where there is no memory for a line, its reply is taken all the same.
    pub(crate) fn take_some(&mut self, text: &mut Vec<u8>) -> Result<bool, AllocError>
        ensures ok { OnOk result (GaveLines self.old self.new text.old.items text.new.items) }
        ensures empties { IfOk result (λ some. Empties some self.old self.new) }
        ensures err { OnErr result
            (GaveSomeLines self.old self.new text.old.items text.new.items) }
    {
        let mut some = false;
        for _reply in 0..REPLIES_IN_A_ROW {
            if !self.take_next(text)? {
                return Ok(some);
            }
            some = true;
        }
        Ok(some)
    }

    // Takes the next reply, and appends its line.
    fn take_next(&mut self, text: &mut Vec<u8>) -> Result<bool, AllocError>
        ensures ok { IfOk result (λ some.
            GaveNext some self.old self.new text.old.items text.new.items) }
        ensures err { OnErr result
            (GaveMore [] self.old self.new × (text.new.items ≡ text.old.items)) }
    {
        if self.left == 0 {
            return Ok(false);
        }
        let Some(done) = self.drain.next() else {
            return Ok(false);
        };
        write_lane(&done, text)?;
        self.left -= 1;
        Ok(true)
    }
}
