//! The lists of a transaction.

use crate::descriptor::Descriptor;
use dude_base::write_list::WriteList;

/// The lists of a transaction, which lie in its pass's descriptor.
pub trait TransactionLists: Drop {
    ghost use Rattle.dude_base.specs.declared.write.Write.{Write};
    ghost use Rattle.std.specs.Prelude.{◌≡◌, ℕ, List};

    /// The reads, each a word's number and the value that was found there.
    ghost reads: { Self → List (ℕ × ℕ) };

    /// The writes, which are pending.
    ghost writes: { Self → List Write };

    /// The locks that were taken for these, each with its old word.
    ghost held: { Self → List Write };

    /// The locks that were taken.
    fn held(&self) -> &WriteList
        ensures { result.now ≡ held self.now };

    /// Gives the descriptor back.
    fn into_descriptor(self) -> Box<Descriptor>;
}

impl TransactionLists for Box<Descriptor> {
    ghost reads = { λ l. l.value.reads.items };

    ghost writes = { λ l. l.value.writes };

    ghost held = { λ l. l.value.held };

    fn held(&self) -> &WriteList {
        &self.held
    }

    fn into_descriptor(self) -> Box<Descriptor> {
        self
    }
}
