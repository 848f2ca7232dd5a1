//! What a trial is run with.

/// What a trial is run with.
#[derive(Clone, Copy)]
pub struct Settings {
    pub subscribers: u64,
    pub threads: u64,
    /// The requests of each thread.
    pub requests: u64,
    pub seed: u64,
    pub locks: u64,
    /// Whether all threads have the same subscribers.
    pub shared: bool,
}

/// The settings that the words of a command line say.
pub fn read_settings(words: &[String]) -> Option<Settings> {
    let [subscribers, threads, requests, seed, locks, who] = words else {
        return None;
    };
    Some(Settings {
        subscribers: number_of(subscribers)?,
        threads: number_of(threads)?,
        requests: number_of(requests)?,
        seed: number_of(seed)?,
        locks: number_of(locks)?,
        shared: who.as_str() == "shared",
    })
}

/// The number that a word says.
pub fn number_of(word: &String) -> Option<u64> {
    word.as_str().parse::<u64>().ok()
}
