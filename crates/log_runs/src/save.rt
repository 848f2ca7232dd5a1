//! A caller that settles words in groups, and keeps a promise at every crash.

ghost use Rattle.log_runs.specs.Saving.{HoldsEither, save_calls};
ghost use Rattle.pmem_trait.specs.Sights.{state_now, CallsMade, AtEveryMoment};
ghost use Rattle.pmem_trait.specs.Words.{settled_at};
ghost use Rattle.std.specs.Prelude.{◌≡◌, ℕ, ◌≤◌, is_ok, IsTrue};

use pmem_trait::{Failed, Medium, settle_group};

// Settles a value in word 0; and, if it is to be told, tells it and settles it in word 8 too.
#[tactic(auto, using(pmem_trait::proofs::Runs::making))]
fn save<M: Medium>(m: &mut M, value: u64, tell: bool) -> Result<(), Failed>
    requires { 16 ≤ (M.sight m.old).len }
    ensures len { (M.sight m.new).len ≡ (M.sight m.old).len }
    ensures made { CallsMade (save_calls value tell) (is_ok result) (M.sight m.old)
        (M.sight m.new) }
{
    settle_group(m, &[(0, value)], &[0])?;
    if !tell {
        return Ok(());
    }
    m.tell(value)?;
    settle_group(m, &[(8, value)], &[1])
}

/// Settles a value in word 0; and, if it is to be told, tells it and settles it in word 8 too. Word 0 holds the old
/// value or the new one in every image at every moment.
pub fn save_safe<M: Medium>(m: &mut M, value: u64, tell: bool) -> Result<(), Failed>
    requires { 16 ≤ (M.sight m.old).len }
    ensures len { (M.sight m.new).len ≡ (M.sight m.old).len }
    ensures safe { (old : ℕ)
        → (IsTrue (M.sight m.old).is_visible → (state_now (M.sight m.old)).word 0 ≡ settled_at old)
        → AtEveryMoment (HoldsEither old value) (M.sight m.old) (M.sight m.new) }
{
    save(m, value, tell)
}
