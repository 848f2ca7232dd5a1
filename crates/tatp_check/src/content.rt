//! The trait of what the records of a table may hold.

ghost use Rattle.std.specs.Prelude.{ℕ, ◌↔◌, IsTrue};

/// Which words the records of a table may hold.
pub trait Content {
    ghost MayHold: { Self → ℕ → ℕ → Type 0 };

    /// Whether a record may hold this word at this offset: at 0 its key, from 2 on the words behind its link.
    fn allows(&self, offset: u64, word: u64) -> bool
        ensures { IsTrue result ↔ MayHold self.now offset word };
}
