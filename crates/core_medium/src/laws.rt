//! What every list of steps leaves, and what every crash after it.

ghost use Rattle.core_medium.specs.MachineLaws.{LawOfCombinedWrites};
ghost use Rattle.core_medium.specs.MachineLaws.{LawOfCrashes, LawOfKeptCrashes, LawOfImages, LawOfKeptImages, LawOfMarks};
ghost use Rattle.core_medium.specs.MachineLaws.{LawOfStart, LawOfMachines, LawOfWordSteps};
ghost use Rattle.core_medium.specs.MachineLaws.{LawOfWholeCalls, LawOfPageReads};

/// There is a medium to start with.
pub fn law_of_start()
    ensures { LawOfStart }
{}

/// After every list of steps the machine is kept.
pub fn law_of_machines()
    ensures { LawOfMachines }
{}

/// The steps on words are steps of the machine without a medium, and lead to the same words and
/// views.
pub fn law_of_word_steps()
    ensures { LawOfWordSteps }
{}

/// Of a kept machine, and so after every list of steps, every image of the medium recovers to a
/// number, which is an end, and to the values at it; each number up to it is posted, and no greater
/// one was told.
pub fn law_of_crashes()
    ensures kept { LawOfKeptCrashes }
    ensures reached { LawOfCrashes }
{}

/// Of a kept machine, and so after every list of steps, each word of the medium may hold what the
/// log and the call under way say, and nothing else.
pub fn law_of_images()
    ensures kept { LawOfKeptImages }
    ensures reached { LawOfImages }
{}

/// The mark is settled at ends of bundles alone.
pub fn law_of_marks()
    ensures { LawOfMarks }
{}

/// A call of the back that is allowed can be made to its end by the view that has the turn, call by
/// call on the medium.
pub fn law_of_whole_calls()
    ensures { LawOfWholeCalls }
{}

/// A page that is read whole leaves each of its words among those that a frame may be filled with,
/// as the home has it.
pub fn law_of_page_reads()
    ensures { LawOfPageReads }
{}

/// Writes in rising order of word that leave the same of every array of a length are the same: so
/// a reproduction of bundles has one list of calls.
pub fn law_of_combined_writes()
    ensures { LawOfCombinedWrites }
{}
