//! The words of locks that a transaction may read under.

ghost use Rattle.core_events.specs.Events.{is_good};
ghost use Rattle.std.specs.Prelude.{◌≡◌, ◌<◌, Some};

/// Whether a lock's word is the thread's own, or that of a free lock with a version up to the snapshot.
pub fn is_good_word(thread: u64, snapshot: u64, word: u64) -> bool
    requires { thread < 65_536 }
    ensures { result ≡ is_good (Some thread) snapshot word }
{
    word == 2 * thread + 1 || (word == 2 * (word / 2) && word / 2 <= snapshot)
}
