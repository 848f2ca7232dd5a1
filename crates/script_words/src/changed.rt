//! Words that aren't as they were, as programs of tests print them.

use std::io;

/// Prints words that aren't as they were, each behind its place.
pub fn say_changed(rt: HostRuntime, before: &[u64], words: &[u64]) -> io::Result<()> {
    for at in 0..before.len().min(words.len()) {
        if before[at] != words[at] {
            let value = words[at];
            print!(rt; " {at}={value}")?;
        }
    }
    rt.println("")
}
