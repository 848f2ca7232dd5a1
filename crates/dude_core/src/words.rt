//! Lists of words, read and written by place.

ghost use Rattle.std.specs.Prelude.{◌≡◌, slice_index, slice_set};

/// The word at the place; 0 past the end.
pub(crate) fn load(words: &Vec<u64>, at: u64) -> u64
    ensures { result ≡ slice_index words.now.items at }
{
    if at < words.len() as u64 {
        words[at as usize]
    } else {
        0
    }
}

/// Puts a word at the place; past the end nothing changes.
pub(crate) fn store(words: &mut Vec<u64>, at: u64, value: u64)
    ensures { words.new.items ≡ slice_set words.old.items at value }
{
    if at < words.len() as u64 {
        words[at as usize] = value;
    }
}
