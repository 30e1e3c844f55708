// The network that a model tells.
ghost use Rattle.std.specs.Prelude.{◌≡◌, ℕ, ◌+◌, ◌<◌, ◌≤◌, length, cond, ◌==◌, slice_index_or};

// The values of so many variables in the words, 2 for true, as bytes of 0 or 1.
pub(crate) fn bytes_of_values(words: &[u32], place: usize, variables: usize) -> [u8; 1400]
    requires few { variables ≤ 1400 }
    requires within { place + variables ≤ length words.now }
    ensures as_many_bytes { length result ≡ 1400 }
    ensures values { (v : ℕ) → v < variables → slice_index_or result v 0 ≡ cond (slice_index_or words.now (place + v) 0 == 2) 1 0 }
{
    let mut bytes = [0; 1400];
    for v in 0..variables {
        bytes[v] = u8::from(words[place + v] == 2);
    }
    bytes
}
