//! What requests that were performed one after another are in the printed order.

ghost use Rattle.run_order.specs.Runs.{LawOfRuns};

/// What one thread performed in rounds is answered as one thread answers along the printed order.
pub fn law_of_runs()
    ensures { LawOfRuns }
{}
