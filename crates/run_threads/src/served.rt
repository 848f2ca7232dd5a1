//! What threads did of files, and what they left.

use pmem_trait::Medium;
use run_workers::joined::Joined;
use run_workers::work_end::WorkEnd;
use std::alloc::Global;
use stm_slots::beside::Beside;
use tatp_model::Done;
use tiny_stm::closed::Closed;
use tiny_stm::stm::{Pass, Stm};

/// What threads did of files, and what they left.
#[derive(Drop)]
pub struct Served<M: Medium> {
    pub closed: Closed<M>,
    /// The requests done, in order of file and index.
    pub done: Vec<Done>,
    /// How many requests of each file are done.
    pub counts: Vec<u64>,
    /// The worst end of a worker.
    pub end: WorkEnd,
}

impl<M: Medium> Served<M> {
    ghost use Rattle.core_events.specs.Telling.{HasAll};
    ghost use Rattle.run_workers.specs.declared.work_end.WorkEnd.TheVariants.{NoMemory as NoMemoryEnd};
    ghost use Rattle.std.specs.Prelude.{◌≡◌, []};
    ghost use Rattle.stm_transactions.specs.Passes.{IsResting, pass_view};
    ghost use Rattle.tiny_stm.specs.Ended.{HasClosed};
    ghost use Rattle.tiny_stm.specs.Tables.{table_of};

    /// What the workers did, now that they are joined. The transactions are closed.
    pub(crate) fn by_workers(stm: Stm<M>, joined: Joined<Beside>) -> Served<M>
        requires rests { IsResting (table_of stm) joined.pass }
        requires all { HasAll (table_of stm).setup (pass_view joined.pass) }
        ensures closed { HasClosed M.sight (table_of stm).key (pass_view joined.pass)
            result.closed }
        ensures done { result.done ≡ joined.done }
        ensures counts { result.counts ≡ joined.counts }
        ensures end { result.end ≡ joined.end }
    {
        let Joined {
            pass,
            done,
            counts,
            end,
        } = joined;
        Served {
            closed: stm.close(pass),
            done,
            counts,
            end,
        }
    }

    /// For want of memory no worker was started. The transactions are closed.
    pub(crate) fn by_none(alloc: Global, stm: Stm<M>, pass: Pass) -> Served<M>
        requires rests { IsResting (table_of stm) pass }
        requires all { HasAll (table_of stm).setup (pass_view pass) }
        ensures closed { HasClosed M.sight (table_of stm).key (pass_view pass) result.closed }
        ensures none { result.done.items ≡ [] }
        ensures end { result.end ≡ NoMemoryEnd }
    {
        Served {
            closed: stm.close(pass),
            done: Vec::new(alloc),
            counts: Vec::new(alloc),
            end: WorkEnd::NoMemory,
        }
    }
}
