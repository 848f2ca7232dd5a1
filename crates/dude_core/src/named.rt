//! The words of the core, by the names of the state.

ghost use Rattle.dude_core.specs.CoreWords.{HasWord, word_at};
ghost use Rattle.dude_core.specs.Named.{word_of};
ghost use Rattle.std.specs.Prelude.{◌≡◌};

use crate::core_word::CoreWord;
use crate::setup::Setup;
use crate::word::Word;

pub(crate) fn word_of(z: &Setup, word: CoreWord) -> Word
    requires { HasWord z.now word }
    ensures { word_of result ≡ word_at z.now word }
{
    match word {
        CoreWord::Threads => Word::Threads,
        CoreWord::Clock => Word::Clock,
        CoreWord::Turn => Word::Turn,
        CoreWord::Durable => Word::Durable,
        CoreWord::Reproduced => Word::Reproduced,
        CoreWord::Lock(lock) => Word::Lock(lock),
        CoreWord::Entry(page) => Word::Entry(page),
        CoreWord::Touch(page) => Word::Touch(page),
        CoreWord::FrameWord(at) => Word::Cell(at),
        CoreWord::BoxWord { thread, place } => Word::Box(z.box_of(thread, place)),
    }
}
