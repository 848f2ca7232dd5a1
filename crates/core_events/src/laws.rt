//! Each layer of the kept state is kept by every allowed event, by a split and by a join of views.

ghost use Rattle.core_events.specs.LayerLaws.{Alone, OverLocks, OverTurn, OverNumbers, OverLayers, EventKeeps, SplitKeeps, JoinKeeps};
ghost use Rattle.core_events.specs.LayerLaws.{ThreadsIn, LocksIn, EntriesKept, TurnIn, PagesKept, NumbersKept, OrderKept, ValuesKept};

/// Threads' numbers stay in one view each, and are counted.
pub fn law_of_threads()
    ensures event { EventKeeps Alone ThreadsIn }
    ensures split { SplitKeeps Alone ThreadsIn }
    ensures join { JoinKeeps Alone ThreadsIn }
{}

/// What is said of locks, undecided numbers, reads and looks stays, over the layer of threads.
pub fn law_of_locks()
    ensures event { EventKeeps ThreadsIn LocksIn }
    ensures split { SplitKeeps Alone LocksIn }
    ensures join { JoinKeeps Alone LocksIn }
{}

/// Entries stay legal, but for what they say of values, and each decided number stays in one entry.
pub fn law_of_entries()
    ensures event { EventKeeps OverLocks EntriesKept }
    ensures split { SplitKeeps Alone EntriesKept }
    ensures join { JoinKeeps Alone EntriesKept }
{}

/// What is said of the turn, of the durable and the reproduced word and of boxes stays.
pub fn law_of_turn()
    ensures event { EventKeeps OverLocks TurnIn }
    ensures split { SplitKeeps ThreadsIn TurnIn }
    ensures join { JoinKeeps ThreadsIn TurnIn }
{}

/// What is said of pins, touches and frames stays.
#[tactic(auto, using(crate::proofs::PagesKept::pages_keep))]
pub fn law_of_pages()
    ensures event { EventKeeps OverTurn PagesKept }
    ensures split { SplitKeeps Alone PagesKept }
    ensures join { JoinKeeps Alone PagesKept }
{}

/// Each drawn number stays in one view, in one box or persisted, and its record has its writes.
#[tactic(auto, using(crate::proofs::NumbersKept::numbers_keep))]
pub fn law_of_numbers()
    ensures event { EventKeeps OverTurn NumbersKept }
    ensures split { SplitKeeps Alone NumbersKept }
    ensures join { JoinKeeps Alone NumbersKept }
{}

/// The numbers in each thread's boxes rise, and the open number of its view stays over them.
pub fn law_of_order()
    ensures event { EventKeeps OverNumbers OrderKept }
    ensures split { SplitKeeps Alone OrderKept }
    ensures join { JoinKeeps Alone OrderKept }
{}

/// What is said of values stays, where it is known what the medium gives.
pub fn law_of_values()
    ensures event { EventKeeps OverLayers ValuesKept }
    ensures split { SplitKeeps Alone ValuesKept }
    ensures join { JoinKeeps LocksIn ValuesKept }
{}
