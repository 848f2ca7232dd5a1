//! Transactions begin over an opened image.

ghost use Rattle.back_store.specs.BackView.{state_of};
ghost use Rattle.run_threads.specs.Begun.{HasBegun};
ghost use Rattle.run_threads.specs.Ran.{RanNothing};
ghost use Rattle.std.specs.Prelude.{IfErr, IfOk};
ghost use Rattle.tiny_stm.specs.Fitting.{FitsStore};
ghost use Rattle.tiny_stm.specs.Started.{IsAtRest};

use crate::begun::Begun;
use dude_base::run::Run;
use dude_engine::{Ran, RanEnd};
use dude_recover::Opened;
use pmem_trait::Medium;
use std::alloc::Global;
use stm_slots::known_back;
use tiny_stm::stm::Stm;
use tiny_stm::stm_fault::StmFault;

/// Begins to run transactions of so many threads over an opened image whose back is at rest, for which the run fits. On want
/// of memory nothing is run.
pub(crate) fn begin<M: Medium>(
    alloc: Global,
    opened: Opened<M>,
    run: &Run,
    threads: u64,
) -> Result<Begun<M>, Ran<M>>
    requires rest { IsAtRest opened.back opened.words.items opened.number }
    requires fits { FitsStore (state_of opened.back).log.sizes.rings
        (state_of opened.back).log.sizes.pages run.now threads }
    ensures ok { IfOk result (HasBegun opened run.now threads) }
    ensures err { IfErr result (RanNothing opened) }
{
    let Opened {
        back,
        lay,
        sizes: _,
        words,
        number,
    } = opened;
    match Stm::new(alloc, back, words, number, run, threads) {
        Ok((stm, pass)) => Ok(Begun { stm, pass, lay }),
        Err((fault, back, _)) => match fault {
            StmFault::NoMemory => {
                known_back::start(&back);
                Err(Ran {
                    done: Vec::new(alloc),
                    medium: back.into_medium(),
                    end: RanEnd::NoMemory,
                    last: number,
                })
            }
            StmFault::Size {
                frames: _,
                pages: _,
            } => unreachable!(),
        },
    }
}
