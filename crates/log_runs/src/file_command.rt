//! A command that has words behind its numbers.

/// A command that has words behind its numbers: the name of a file, or of a text, and lines.
#[derive(Clone, Copy)]
pub struct FileCommand<'a> {
    pub name: &'a str,
    pub numbers: &'a [u64],
    pub file: &'a str,
    pub lines: &'a [&'a str],
}
