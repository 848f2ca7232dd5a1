//! The log of a run on one thread: each record gets the next number, and joins an open bundle. A bundle is persisted when it
//! is full or the run needs it on the medium; where its ring has no room, the bundles that wait are announced and reproduced
//! first.
#![tactic(auto)]

mod bundle_log;
mod kept_bundles;
mod open_bundle;
mod run_log;

pub use kept_bundles::KeptBundles;
pub use run_log::RunLog;
