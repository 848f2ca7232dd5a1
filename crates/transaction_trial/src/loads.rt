//! The requests of each thread.

ghost use Rattle.std.specs.Prelude.{All, IfSome};
ghost use Rattle.tatp_model.specs.Request.{IsInRange};

use crate::settings::Settings;
use dude_base::limits::MAX_SUBSCRIBERS;
use std::alloc::Global;
use tatp_model::request::Request;
use tatp_text::mix;

/// The most requests of a thread.
const MOST: u64 = 99_999;

/// The requests of this file, and a `SYNC`. Each file has subscribers of its own, or all have the same ones.
pub fn requests_of(alloc: Global, settings: &Settings, file: u64) -> Option<Vec<Request>>
    ensures { IfSome result (λ requests. All IsInRange requests.items) }
{
    let (seed, file, files) = if settings.shared {
        (settings.seed.wrapping_add(file), 0, 1)
    } else {
        (settings.seed, file, settings.threads)
    };
    let subscribers = settings.subscribers;
    if file >= files
        || files > subscribers
        || subscribers > MAX_SUBSCRIBERS
        || settings.requests > MOST
    {
        return None;
    }
    mix(alloc, seed, file, files, subscribers, settings.requests).ok()
}
