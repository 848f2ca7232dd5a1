//! The reads of a page.

ghost use Rattle.back_store.specs.PageReads.{AreWordsFrom, ReadsFrom};
ghost use Rattle.dude_base.specs.declared.limits.TheConstants.{PAGE};
ghost use Rattle.std.specs.Prelude.{◌≡◌, ◌+◌, ◌≤◌, OnOk};

use dude_base::limits::PAGE;
use pmem_trait::{Failed, Medium};

/// Reads as many words as a page has, from this one on, in order.
pub fn read_words<M: Medium>(
    m: &mut M,
    at: u64,
    into: &mut [u64; PAGE as usize],
) -> Result<(), Failed>
    requires { at + PAGE ≤ (M.sight m.old).len }
    ensures len { (M.sight m.new).len ≡ (M.sight m.old).len }
    ensures made { ReadsFrom at result (M.sight m.old) (M.sight m.new) }
    ensures words { OnOk result (AreWordsFrom at (M.sight m.old) into.new) }
{
    for i in 0..PAGE {
        into[i as usize] = m.read(at + i)?;
    }
    Ok(())
}
