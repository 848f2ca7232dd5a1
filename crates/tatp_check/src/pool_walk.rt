//! The pool of a table or a tree is checked behind the walk that took records of it, and the first wrong word is named.

ghost use Rattle.record_heap.specs.Pool.{FitsPool};
ghost use Rattle.std.specs.Prelude.{◌≡◌, OnOk, IfErr, length};
ghost use Rattle.tatp_check.specs.Faults.{NamesWord};
ghost use Rattle.tatp_check.specs.PoolWalk.{AreApartMarked, FollowsFree, RefusesFree};
ghost use Rattle.tatp_check.specs.Pools.{HasWholePool, IsWrongPool};

use crate::check_fault::CheckFault;
use crate::marks::Marks;
use record_heap::pool::Pool;

/// Follows the free list of a pool of which these records are taken, looks for a record in neither list, and compares the
/// header's count. `marks` are those of the records taken.
///
/// It refuses the array where something is wrong in the pool, and names the first such word. It takes no memory.
pub fn check_pool(
    pool: &Pool,
    taken: &[u64],
    marks: &mut Marks,
    a: &[u64],
) -> Result<(), CheckFault>
    requires fits { FitsPool pool.now (length a.now) }
    requires marked { AreApartMarked pool.now taken.now marks.old }
    ensures whole { OnOk result (HasWholePool pool.now a.now taken.now) }
    ensures fault { IfErr result (NamesWord (IsWrongPool pool.now a.now taken.now)) }
{
    follow_free(pool, a, marks)?;
    if let Some(word) = marks.first_unmet(pool) {
        return Err(CheckFault::NotDb { word });
    }
    let count = pool.base + 1;
    if a[count as usize] != taken.len() as u64 {
        return Err(CheckFault::NotDb { word: count });
    }
    Ok(())
}

// Follows the free list to its end.
fn follow_free(pool: &Pool, a: &[u64], marks: &mut Marks) -> Result<(), CheckFault>
    requires fits { FitsPool pool.now (length a.now) }
    requires count { length marks.old.marks.items ≡ pool.now.count }
    ensures count { length marks.new.marks.items ≡ pool.now.count }
    ensures list { FollowsFree pool.now a.now marks.old result marks.new }
    ensures fault { RefusesFree pool.now a.now marks.old result }
{
    let mut link = pool.base;
    while a[link as usize] != 0 {
        let at = a[link as usize];
        if !marks.meet(pool, at) {
            return Err(CheckFault::NotDb { word: link });
        }
        link = at + 1;
    }
    Ok(())
}
