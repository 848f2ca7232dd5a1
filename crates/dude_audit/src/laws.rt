//! What a verdict says of the printed bytes.

ghost use Rattle.dude_audit.specs.PrintedRun.{LawOfPrintedRuns, LawOfVerdicts};

/// The verdict is `Yes` exactly where the bytes are those of a run of the files that one thread gives.
pub fn law_of_printed_runs()
    ensures { LawOfPrintedRuns }
{}

/// Bytes have one verdict at most: a `No` names one line.
pub fn law_of_verdicts()
    ensures { LawOfVerdicts }
{}
