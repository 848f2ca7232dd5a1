//! The views of the state.

ghost use Rattle.std.specs.Prelude.{◌≡◌, slice_get, option_map};

use crate::state::State;
use crate::view::View;

impl State {
    /// The view `who`, if it is there.
    pub fn view(&self, who: u64) -> Option<&View>
        ensures { option_map (λ view. view.now) result ≡ slice_get self.now.views who }
    {
        self.views.get(who as usize)
    }
}
