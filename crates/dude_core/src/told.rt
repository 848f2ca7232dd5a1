//! Which numbers were told.

ghost use Rattle.dude_core.specs.Named.{Tells};
ghost use Rattle.dude_core.specs.StoreData.{tells, ToldFrom};
ghost use Rattle.pmem_trait.specs.Words.{IsIn};
ghost use Rattle.std.specs.Prelude.{[], ◌∷◌};

use crate::store::Store;
use pmem_trait::Call;

impl Store {
    /// Whether this number was told before the last call of the back ended, or is the one at the
    /// start, `first`.
    pub fn was_told(&self, first: u64, number: u64) -> bool
        ensures { Tells result (IsIn number (first ∷ tells self.now.ended)) }
    {
        first == number || has_told(&self.made[..self.since as usize], number)
    }

    /// Whether a number from this one on was told.
    pub fn was_told_from(&self, first: u64, number: u64) -> bool
        ensures { Tells result (ToldFrom number (first ∷ tells self.now.ended)) }
    {
        if number <= first {
            return true;
        }
        has_told_from(&self.made[..self.since as usize], number)
    }
}

fn has_told(calls: &[Call], number: u64) -> bool
    ensures { Tells result (IsIn number (tells calls.now)) }
{
    calls.iter().any(|call| tells_it(call, number))
}

fn has_told_from(calls: &[Call], number: u64) -> bool
    ensures { Tells result (ToldFrom number (tells calls.now)) }
{
    calls.iter().any(|call| tells_from(call, number))
}

fn tells_it(call: &Call, number: u64) -> bool
    ensures { Tells result (IsIn number (tells (call.now ∷ []))) }
{
    match call {
        Call::Tell(told) => *told == number,
        Call::Read(_) | Call::Put { .. } | Call::Flush(_) | Call::Fence => false,
    }
}

fn tells_from(call: &Call, number: u64) -> bool
    ensures { Tells result (ToldFrom number (tells (call.now ∷ []))) }
{
    match call {
        Call::Tell(told) => number <= *told,
        Call::Read(_) | Call::Put { .. } | Call::Flush(_) | Call::Fence => false,
    }
}
