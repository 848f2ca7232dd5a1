//! A table is walked through, chain by chain and then through its pool, and the first wrong word is named.

ghost use Rattle.hash_table.specs.Table.{FitsTable};
ghost use Rattle.record_heap.specs.Pool.{IsRecord};
ghost use Rattle.std.specs.Prelude.{◌<◌, IfOk, IfErr, length};
ghost use Rattle.tatp_check.specs.Faults.{IsCause, IsFirstWrong, IsInChains};
ghost use Rattle.tatp_check.specs.Seen.{FollowsChain, IsFirstWrongBehind, KnowsChains, RefusesRecord, TakesIn};
ghost use Rattle.tatp_check.specs.Whole.{KeepsWhole};

use crate::check_fault::CheckFault;
use crate::content::Content;
use crate::marks::Marks;
use crate::pool_walk::check_pool;
use crate::seen::Seen;
use crate::taken::Taken;
use hash_table::table::Table;
use std::alloc::Global;

/// Follows the chains of all buckets of a table and checks its pool; gives the records in its chains.
///
/// It refuses the array where something is wrong in the table, and names the first such word.
pub fn check_table<C: Content>(
    alloc: Global,
    table: &Table,
    content: &C,
    a: &[u64],
) -> Result<Taken, CheckFault>
    requires fits { FitsTable table.now (length a.now) }
    ensures whole { IfOk result (KeepsWhole (C.MayHold content.now) table.now a.now) }
    ensures fault { IfErr result (IsCause (IsFirstWrong (C.MayHold content.now) table.now a.now)) }
{
    let mut seen = Seen {
        marks: Marks::new(alloc, &table.pool)?,
        taken: Taken::new(alloc),
    };
    for bucket in 0..table.buckets {
        follow_chain(table, content, a, bucket, &mut seen)?;
    }
    check_pool(&table.pool, seen.taken.records(), &mut seen.marks, a)?;
    Ok(seen.taken)
}

// Follows the chain of a bucket to its end.
fn follow_chain<C: Content>(
    table: &Table,
    content: &C,
    a: &[u64],
    bucket: u64,
    seen: &mut Seen,
) -> Result<(), CheckFault>
    requires fits { FitsTable table.now (length a.now) }
    requires bucket { bucket < table.now.buckets }
    requires knows { KnowsChains (C.MayHold content.now) table.now a.now bucket seen.old }
    ensures knows { FollowsChain (C.MayHold content.now) table.now a.now bucket result seen.new }
    ensures fault { IfErr result (IsCause (IsInChains (C.MayHold content.now) table.now a.now)) }
{
    let mut link = table.at + bucket;
    while a[link as usize] != 0 {
        let at = a[link as usize];
        if !seen.marks.meet(&table.pool, at) {
            return Err(CheckFault::NotDb { word: link });
        }
        check_record(table, content, a, bucket, at, &mut seen.taken)?;
        link = at + 1;
    }
    Ok(())
}

// Takes in a new record of the bucket's chain, whose words hold what they have to.
fn check_record<C: Content>(
    table: &Table,
    content: &C,
    a: &[u64],
    bucket: u64,
    at: u64,
    taken: &mut Taken,
) -> Result<(), CheckFault>
    requires fits { FitsTable table.now (length a.now) }
    requires place { IsRecord table.now.pool at }
    ensures sound { TakesIn (C.MayHold content.now) table.now a.now bucket at
        taken.old result taken.new }
    ensures fault { RefusesRecord (C.MayHold content.now) table.now a.now bucket at
        taken.old result }
{
    let key = a[at as usize];
    if !content.allows(0, key) || key % table.buckets != bucket || !taken.take(at, key)? {
        return Err(CheckFault::NotDb { word: at });
    }
    match wrong_word(table, content, a, at) {
        Some(offset) => Err(CheckFault::NotDb { word: at + offset }),
        None => Ok(()),
    }
}

// The offset of the first word behind the record's link that it may not hold.
fn wrong_word<C: Content>(table: &Table, content: &C, a: &[u64], at: u64) -> Option<u64>
    requires fits { FitsTable table.now (length a.now) }
    requires place { IsRecord table.now.pool at }
    ensures { IsFirstWrongBehind (C.MayHold content.now) table.now a.now at result }
{
    for offset in 2..table.pool.size {
        if !content.allows(offset, a[(at + offset) as usize]) {
            return Some(offset);
        }
    }
    None
}
