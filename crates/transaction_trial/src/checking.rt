//! Whether all replies are those of one thread.

ghost use Rattle.std.specs.Prelude.{◌≤◌, All, IfOk, length};
ghost use Rattle.tatp_model.specs.Database.{database_of, IsInOrder};
ghost use Rattle.tatp_model.specs.Request.{IsInRange};
ghost use Rattle.transaction_trial.specs.Fit.{IsFit, IsReady};

use crate::job::Job;
use crate::place::Place;
use std::alloc::{AllocError, Global};
use tatp_check::{check, tables_of};
use tatp_model::done::Done;
use tatp_model::reply::Reply;
use tatp_model::step::step;
use tatp_model::tables::Tables;

/// Whether one thread, on the tables at the start, replies the same to all that was done, in the order in which it is printed.
pub fn is_one_thread(alloc: Global, place: &Place, jobs: &[Job]) -> bool
    requires ready { IsReady place.now }
    requires fit { All (IsFit place.now.stm.events) jobs.now }
{
    if check(alloc, &place.lay, &place.words).is_err() {
        return false;
    }
    let Ok(mut tables) = tables_of(alloc, &place.lay, &place.words) else {
        return false;
    };
    let Ok(order) = printed_order(alloc, place, jobs) else {
        return false;
    };
    let limit = place.lay.sizes().calls;
    if tables.calls.len() as u64 > limit || !are_whole(jobs) {
        return false;
    }
    replies_alike(alloc, &mut tables, limit, &order)
}

// Whether each job did all its requests but the `SYNC`.
fn are_whole(jobs: &[Job]) -> bool {
    jobs.iter()
        .all(|job| job.done.len().wrapping_add(1) == job.requests.len())
}

// All that was done, by rising number, at one number first what wrote, and then by file and index.
fn printed_order(alloc: Global, _place: &Place, jobs: &[Job]) -> Result<Vec<Done>, AllocError>
    requires { All (IsFit _place.now.stm.events) jobs.now }
    ensures { IfOk result (λ order. All (λ d. IsInRange d.request) order.items) }
{
    let mut order = Vec::new(alloc);
    for job in jobs {
        order.extend_from_slice(&job.done)?;
    }
    order.sort_unstable_by_key(|d| (d.number, !d.wrote, d.file, d.index));
    Ok(order)
}

// Whether one thread replies the same, request by request.
fn replies_alike(alloc: Global, tables: &mut Tables, limit: u64, order: &[Done]) -> bool
    requires in_range { All (λ d. IsInRange d.request) order.now }
    requires in_order { IsInOrder (database_of tables.old) }
    requires room { length (database_of tables.old).calls ≤ limit }
{
    for done in order {
        match step(alloc, tables, limit, &done.request) {
            Ok(reply) if reply == done.reply && done.wrote == (reply == Reply::Changed) => {}
            _ => return false,
        }
    }
    true
}
