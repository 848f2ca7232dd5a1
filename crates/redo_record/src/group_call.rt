//! The calls of a group of writes, one by one.

ghost use Rattle.pmem_trait.specs.Groups.{group_calls};
ghost use Rattle.std.specs.Prelude.{◌≡◌, ◌<◌, Some, length, slice_get};

use pmem_trait::Call;

/// The call at index `k` of a group that puts these words and flushes these lines.
pub fn group_call(writes: &[(u64, u64)], lines: &[u64], k: u64) -> Call
    requires { k < length (group_calls writes.now lines.now) }
    ensures { slice_get (group_calls writes.now lines.now) k ≡ Some result }
{
    let k = k as usize;
    if k < writes.len() {
        let (at, value) = writes[k];
        return Call::Put { at, value };
    }
    let flush = k - writes.len();
    if flush < lines.len() {
        return Call::Flush(lines[flush]);
    }
    Call::Fence
}
