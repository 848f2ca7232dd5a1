//! What a transaction has at its end.

use dude_base::write_list::WriteList;

/// What a transaction has at its end beside its seat: its thread, the place of the thread's next box, its snapshot, its reads
/// as words with their values, and its writes, with the locks that it took for them and the old words of these.
#[derive(Clone, Copy)]
pub struct Commit<'a> {
    pub thread: u64,
    pub place: u64,
    pub snapshot: u64,
    pub reads: &'a [(u64, u64)],
    pub writes: &'a WriteList,
    pub held: &'a WriteList,
}
