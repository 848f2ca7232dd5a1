//! The lines of a script, taken one after another.

use crate::words::is_remark;
use std::io;

/// What the lines of a script are carried out on.
pub trait TakeLine {
    /// Carries out a line that is no remark, and prints what it gave.
    fn take_line(&mut self, line: &str) -> io::Result<()>;
}

/// Prints each remark of a script again, and has each other line carried out.
pub fn take_lines<T: TakeLine>(rt: HostRuntime, bench: &mut T, script: &str) -> io::Result<()> {
    for line in script.lines() {
        if is_remark(line) {
            rt.println(line)?;
        } else {
            bench.take_line(line)?;
        }
    }
    Ok(())
}
