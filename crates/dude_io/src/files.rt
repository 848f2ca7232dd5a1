//! The trait of files that are read by name.

ghost use Rattle.dude_io.specs.Files.{FilesSight, FileRead};
ghost use Rattle.std.specs.Prelude.{◌<◌, length};

use pmem_trait::Failed;

/// Files that are read by name.
pub trait Files {
    /// What is known of the files: the count of their faults, their texts where these are visible, and the reads made of them
    /// where these are listed.
    ghost sight: { Self → FilesSight };

    /// Reads bytes of the file from byte `at` on to the start of `into`, and answers how many.
    /// An answer of 0 is the file's end. A file that isn't there is a fault. After an `Err` the texts are as they were,
    /// and `into` may hold anything.
    fn read(&mut self, name: &str, at: u64, into: &mut [u8]) -> Result<u64, Failed>
        requires { 0 < length into.old }
        ensures { FileRead name.now at into.old into.new result (sight self.old) (sight self.new) };
}
