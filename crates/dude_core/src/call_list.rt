//! Lists of calls on a medium, call by call.

ghost use Rattle.pmem_trait.specs.declared.call.Call.{Call as Made};
ghost use Rattle.std.specs.Prelude.{◌≡◌, ◌<◌, List, Some, length, slice_get};

use pmem_trait::Call;

/// A list of calls on a medium, which is made call by call. It takes no memory.
pub trait CallList {
    /// The calls.
    ghost calls: { Self → List Made };

    /// How many calls there are.
    fn len(&self) -> u64
        ensures { result ≡ length (calls self.now) };

    /// The call at index `k`, counted from 0.
    fn get(&self, k: u64) -> Call
        requires { k < length (calls self.now) }
        ensures { slice_get (calls self.now) k ≡ Some result };
}
