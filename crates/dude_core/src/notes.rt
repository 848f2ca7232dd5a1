//! What many events leave in a view.

ghost use Rattle.core_events.specs.Events.{noticed, dropped};
ghost use Rattle.dude_core.specs.Named.{word_of};
ghost use Rattle.std.specs.Prelude.{◌≡◌};

use crate::view::View;
use crate::word::Word;

impl View {
    /// The word was found to hold this. The count of found words stays at its last value.
    pub fn notice(&mut self, word: Word, found: u64)
        ensures { self.new ≡ noticed (word_of word) found self.old }
    {
        self.found = Some((word, found));
        self.count = self.count.saturating_add(1);
    }

    /// The transaction, which has no number, owns no lock and has no pin, is dropped.
    pub fn drop_transaction(&mut self)
        ensures { self.new ≡ record self.old { tx = dropped self.old.tx } }
    {
        self.tx.is_open = false;
        self.tx.extension = None;
        self.tx.reads.clear();
        self.tx.loaded = None;
    }
}
