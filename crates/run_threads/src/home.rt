//! The words of the home at the end.

ghost use Rattle.back_store.specs.BackView.{state_of};
ghost use Rattle.dude_base.specs.declared.limits.TheConstants.{PAGE};
ghost use Rattle.run_threads.specs.Home.{FailsHome, MayReadHome, ReadsHome, TakesHome, TakesPage};
ghost use Rattle.std.specs.Prelude.{◌≡◌, ℕ, ◌+◌, ◌*◌, ◌<◌, ◌≤◌, OnErr, OnOk, is_ok, false, length, slice_index, true};
ghost use Rattle.stm_slots.specs.Calls.{StaysKnown};

use back_store::Back;
use dude_base::limits::PAGE;
use pmem_trait::{Failed, Medium};
use stm_slots::known_back::read_page;
use tiny_stm::closed::Closed;

/// Puts the words of a page in their place.
fn put_page(words: &mut [u64], at: usize, page: &[u64; PAGE as usize])
    requires { at + PAGE ≤ length words.old }
    ensures page { (i : ℕ) → i < PAGE → slice_index words.new (at + i) ≡ slice_index page.now i }
    ensures before { (i : ℕ) → i < at → slice_index words.new i ≡ slice_index words.old i }
{
    for (i, word) in page.iter().enumerate() {
        words[at + i] = *word;
    }
}

/// Reads a page into its place.
fn read_into<M: Medium>(back: &mut Back<M>, page: u64, words: &mut [u64]) -> Result<(), Failed>
    requires page { page < (state_of back.old).log.sizes.pages }
    requires size { length words.old ≡ (state_of back.old).log.sizes.pages * PAGE }
    ensures known { StaysKnown back.old back.new }
    ensures ok { OnOk result (state_of back.new ≡ state_of back.old) }
    ensures takes { OnOk result (TakesPage page back.old words.old words.new) }
    ensures err { OnErr result ((state_of back.new).dead ≡ true) }
    ensures log { (state_of back.new).log ≡ (state_of back.old).log }
{
    let mut into = [0; PAGE as usize];
    if read_page(back, page, &mut into).is_err() {
        return Err(Failed);
    }
    put_page(words, (page * PAGE) as usize, &into);
    Ok(())
}

/// Reads all pages.
fn read_pages<M: Medium>(back: &mut Back<M>, words: &mut [u64]) -> Result<(), Failed>
    requires alive { (state_of back.old).dead ≡ false }
    requires size { length words.old ≡ (state_of back.old).log.sizes.pages * PAGE }
    ensures known { StaysKnown back.old back.new }
    ensures ok { OnOk result (state_of back.new ≡ state_of back.old) }
    ensures takes { OnOk result (TakesHome back.old words.new) }
    ensures err { OnErr result ((state_of back.new).dead ≡ true) }
    ensures log { (state_of back.new).log ≡ (state_of back.old).log }
{
    for page in 0..words.len() as u64 / PAGE {
        read_into(back, page, words)?;
    }
    Ok(())
}

/// The words of the home at the last number, in place of those that transactions left. Where all pages were in frames, those
/// are the words already, and nothing is done; else all pages are read. It takes no memory.
pub fn read_home<M: Medium>(closed: &mut Closed<M>, frames: u64) -> Result<(), Failed>
    requires may { MayReadHome M.sight frames closed.old }
    ensures ok { OnOk result (ReadsHome M.sight frames closed.old closed.new) }
    ensures err { OnErr result (FailsHome M.sight frames closed.old closed.new) }
    ensures number { closed.new.number ≡ closed.old.number }
    ensures sizes { (state_of closed.new.back).log.sizes ≡ (state_of closed.old.back).log.sizes }
    // Where all pages were in frames, no call is made.
    ensures spares { frames ≡ (state_of closed.old.back).log.sizes.pages
        → (is_ok result ≡ true) × (closed.new ≡ closed.old) }
{
    if frames == closed.words.len() as u64 / PAGE {
        return Ok(());
    }
    read_pages(&mut closed.back, closed.words.as_mut_slice())
}
