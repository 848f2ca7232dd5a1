//! Writes numbered in order, and the last one of each word among them.

ghost use Rattle.group_combine.specs.Numbered.{AreInOrder, EndsWord, HasNextOfWord, IsKept};
ghost use Rattle.std.specs.List.Sorted.{IsPermutation};
ghost use Rattle.std.specs.Prelude.{◌≡◌, ◌≤◌, ◌<◌, MatchBool, length, vec_len};
ghost use Rattle.std.specs.Vec.{vec_capacity};

use dude_base::write::Write;

/// A write, and how many come before it in the row.
#[derive(Clone, Copy)]
pub struct Numbered {
    pub at: u64,
    pub order: u64,
    pub value: u64,
}

/// Puts the row in rising order of word, and the writes of a word in their order.
pub fn sort_by_word(row: &mut Vec<Numbered>)
    ensures in_order { AreInOrder row.new.items }
    ensures same { IsPermutation row.old.items row.new.items }
    ensures len { vec_len row.new ≡ vec_len row.old }
    ensures capacity { vec_capacity row.new ≡ vec_capacity row.old }
{
    row.sort_unstable_by_key(|write| (write.at, write.order));
}

// Whether the write at index `k` is the last one of its word, in a row that is in order.
fn ends_word(row: &[Numbered], k: usize) -> bool
    requires { k < length row.now }
    ensures { MatchBool result (EndsWord row.now k) (HasNextOfWord row.now k) }
{
    k + 1 == row.len() || row[k + 1].at != row[k].at
}

/// Makes `writes` the last write of each word in a row that is in order.
pub fn keep_last(row: &[Numbered], writes: &mut Vec<Write>)
    requires in_order { AreInOrder row.now }
    requires room { length row.now ≤ vec_capacity writes.old }
    ensures kept { IsKept row.now writes.new.items (length row.now) }
    ensures capacity { vec_capacity writes.new ≡ vec_capacity writes.old }
{
    writes.clear();
    for k in 0..row.len() {
        if ends_word(row, k) {
            writes.push_reserved(Write {
                at: row[k].at,
                value: row[k].value,
            });
        }
    }
}
