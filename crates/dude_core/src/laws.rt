//! What holds after any list of events.

ghost use Rattle.dude_core.specs.EventLaws.{LawOfReachedMachine, LawOfKeptMachine, LawOfLegality, LawOfOnce};

use core_events::law_of_steps;

/// After every list of events that are allowed, each by its view, the machine is reached by their
/// steps, and kept. The entries of all views are legal, where it is known what the medium gives.
/// They are the entries that the events made, each once: however entries are weighed, both weigh the
/// same.
pub fn law_of_events()
    ensures reached { LawOfReachedMachine }
    ensures kept { LawOfKeptMachine }
    ensures legal { LawOfLegality }
    ensures once { LawOfOnce }
{
    law_of_steps();
}
