//! The bundles that a log persisted, for those who want them.

ghost use Rattle.log_numbered.specs.KeptBundles.{HasRoomToKeep, are_kept, bundles_with, kept_bundles};
ghost use Rattle.std.specs.Prelude.{◌≡◌, ◌<◌, [], OnOk, false, true};

use dude_base::bundle::Bundle;
use std::alloc::{AllocError, Global};

/// The bundles that a log persisted, in order, where they are kept; else none.
#[derive(Drop)]
pub struct KeptBundles {
    kept: bool,
    bundles: Vec<Bundle>,
}

impl KeptBundles {
    /// None, and none is kept. It takes no memory, now and later.
    pub fn none(alloc: Global) -> Self
        ensures kept { are_kept result ≡ false }
        ensures bundles { kept_bundles result ≡ [] }
    {
        KeptBundles {
            kept: false,
            bundles: Vec::new(alloc),
        }
    }

    /// None so far; each is kept.
    pub fn new(alloc: Global) -> Self
        ensures kept { are_kept result ≡ true }
        ensures bundles { kept_bundles result ≡ [] }
    {
        KeptBundles {
            kept: true,
            bundles: Vec::new(alloc),
        }
    }

    /// Takes memory for one bundle more, where bundles are kept and there is none yet.
    pub fn reserve(&mut self) -> Result<(), AllocError>
        ensures room { OnOk result (HasRoomToKeep self.new) }
        ensures kept { are_kept self.new ≡ are_kept self.old }
        ensures bundles { kept_bundles self.new ≡ kept_bundles self.old }
    {
        if self.kept {
            self.bundles.reserve(1)?;
        }
        Ok(())
    }

    /// Keeps a copy of the bundle, where bundles are kept.
    pub fn keep(&mut self, b: &Bundle)
        requires room { HasRoomToKeep self.old }
        ensures kept { are_kept self.new ≡ are_kept self.old }
        ensures bundles { kept_bundles self.new ≡ bundles_with b.now self.old }
    {
        if self.kept {
            self.bundles.push_reserved(b.copy());
        }
    }

    /// The bundles kept, in order.
    pub fn into_list(self) -> Vec<Bundle>
        ensures { result.items ≡ kept_bundles self }
    {
        self.bundles
    }
}
