//! What the turn gives.

use back_store::Back;
use dude_base::limits::MAX_RINGS;
use pmem_trait::Medium;
use shadow_pages::pager::Pager;

/// What the turn gives: the back of the store, which page is in which frame, and of each thread the
/// place of the box that is emptied next.
pub struct Home<M: Medium> {
    pub back: Back<M>,
    pub pager: Pager,
    pub next: [u64; MAX_RINGS as usize],
}
