//! The layout of a home whose sizes are known to be accepted.

ghost use Rattle.dude_base.specs.Sizes.{IsAccepted};
ghost use Rattle.std.specs.Prelude.{◌≡◌};

use dude_base::sizes::Sizes;
use tatp_layout::Layout;

/// The layout of a home of accepted sizes.
#[tactic(auto, using(crate::proofs::Accepted::never_out))]
pub fn layout_of(sizes: &Sizes) -> Layout
    requires { IsAccepted sizes.now }
    ensures { result ≡ sizes.now }
{
    match Layout::of(sizes) {
        Ok(lay) => lay,
        Err(_) => unreachable!(),
    }
}
