//! What the words of a run say of what its threads share.

ghost use Rattle.command_edges.specs.Command.{IsBetween};
ghost use Rattle.dude_base.specs.Run.{IsRunWithin};
ghost use Rattle.dude_base.specs.declared.limits.TheConstants.{MAX_LOCKS};
ghost use Rattle.dude_program.specs.Work.{AllowsFrames, HasFrames};
ghost use Rattle.std.specs.Prelude.{Option, IfSome};

use dude_base::limits::{DEFAULT_BOXES, DEFAULT_LOCKS};
use dude_base::run::Run;

/// What the words of a run say of what its threads share, where they say it.
#[derive(Clone, Copy)]
pub struct RunOptions {
    pub frames: Option<u64>,
    pub locks: Option<u64>,
}

impl RunOptions {
    /// What threads share over an image of so many pages. Where no frames are said, each page has one.
    pub fn over(self, pages: u64) -> Run
        requires frames { AllowsFrames self.frames pages }
        requires locks { IfSome self.locks (IsBetween 1 MAX_LOCKS) }
        ensures within { IsRunWithin pages result }
        ensures frames { HasFrames self.frames pages result }
    {
        Run {
            frames: self.frames.unwrap_or(pages),
            locks: self.locks.unwrap_or(DEFAULT_LOCKS),
            boxes: DEFAULT_BOXES,
        }
    }
}
