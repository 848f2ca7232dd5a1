//! Calls of which each read and each write is stopped in turn.

use crate::calls::take_call;
use crate::page::Page;
use crate::stopping::Stopping;
use std::alloc::Global;
use word_space::flat::Flat;
use word_space::stop::Stop;

/// Stops that a call may meet.
const STOPS: [Stop; 3] = [
    Stop::Conflict { lock: 3, seen: 9 },
    Stop::Out { page: 1 },
    Stop::NoMemory,
];

/// Makes a call over and over, each time on this array, of which another read or write stops it, by each kind of stop: the first
/// number is how many of these there are, and the others are those of the call. Prints how many of them handed the stop on and
/// left the array at rest, and how many writes are pending then; or the count of calls before the first one that did not.
pub fn say_stops(alloc: Global, array: &[u64], name: &str, numbers: &[u64], page: &mut Page) {
    let Some((times, numbers)) = numbers.split_first() else {
        return page.line("no command");
    };
    let mut stopped = 0u64;
    let mut pending = 0u64;
    for stop in STOPS {
        for calls in 0..*times {
            let Ok(words) = array.to_vec(alloc) else {
                return page.cut();
            };
            let words = Stopping::new(Flat::new(words), calls, stop);
            match handed_on(words, stop, name, numbers, array) {
                Some(writes) => pending = pending.wrapping_add(writes),
                None => return page.numbers("not stopped after", &[calls]),
            }
            stopped = stopped.wrapping_add(1);
        }
    }
    page.numbers("stopped and writes pending", &[stopped, pending]);
}

/// How many writes are pending where a call hands this stop on and leaves the array at rest.
fn handed_on(
    words: Stopping,
    stop: Stop,
    name: &str,
    numbers: &[u64],
    array: &[u64],
) -> Option<u64> {
    let mut words = words;
    let Err(met) = take_call(&mut words, name, numbers) else {
        return None;
    };
    if met != stop || words.stopped != Some(stop) || words.flat.words() != array {
        return None;
    }
    Some(words.flat.take(1).len())
}
