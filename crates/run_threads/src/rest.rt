//! What transactions left in boxes is made durable, and brought home.

ghost use Rattle.back_store.specs.BackView.{state_of};
ghost use Rattle.run_threads.specs.Ended.{CutsOff, Ends, KeepsClosed, TellsLast, WasClosed};
ghost use Rattle.std.specs.Prelude.{◌≡◌, OnErr, OnOk, true};

use crate::catching_up::catch_up;
use crate::persisting::persist_all;
use pmem_trait::{Failed, Medium};
use tiny_stm::closed::Closed;

/// Persists the records that transactions left in boxes, in bundles of consecutive numbers, each in the ring of its first
/// record's thread; then announces and reproduces all. It takes no memory. Where it fails the back is dead; where it was dead
/// nothing is done.
pub fn persist_rest<M: Medium>(closed: &mut Closed<M>) -> Result<(), Failed>
    requires closed { WasClosed M.sight closed.old }
    ensures keeps { KeepsClosed closed.old closed.new }
    ensures ok { OnOk result (Ends M.sight closed.old closed.new.back) }
    ensures told { OnOk result (TellsLast M.sight closed.old closed.new.back) }
    ensures err { OnErr result (CutsOff M.sight closed.old closed.new.back) }
    ensures dead { (state_of closed.old.back).dead ≡ true → closed.new.back ≡ closed.old.back }
{
    if closed.back.is_dead() {
        return Err(Failed);
    }
    persist_all(&mut closed.back, closed.rest.as_slice())?;
    catch_up(&mut closed.back)
}
