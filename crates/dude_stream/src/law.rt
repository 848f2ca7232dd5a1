//! The laws of the lines that are printed while a run goes on.

ghost use Rattle.dude_stream.specs.Streams.{LawOfLines, LawOfStoppedRests, LawOfStoppedStreams, LawOfWholeStreams};

/// What was printed, and the rest behind it, are the lines of all requests done.
pub fn law_of_lines()
    ensures { LawOfLines }
{}

/// However the printing ends, the sink has what a streamed run is to hand it.
pub fn law_of_streams()
    ensures whole { LawOfWholeStreams }
    ensures stopped_in_the_rest { LawOfStoppedRests }
    ensures stopped { LawOfStoppedStreams }
{}
