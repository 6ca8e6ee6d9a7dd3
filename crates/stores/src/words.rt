// The hash of a key.
ghost use Rattle.std.specs.Prelude.{◌≡◌};
ghost use Rattle.stores.specs.Shelves.{mixed, hash_of};

// One word more in a hash.
fn mix(hash: u64, word: u64) -> u64
    ensures { result ≡ mixed hash word }
{
    hash.wrapping_add(word).wrapping_mul(0x9E3779B97F4A7C15)
}

// A hash of the words, four at a time: of their multiplications only the first waits for the words before.
pub(crate) fn hash_words(words: &[u64]) -> u64
    ensures { result ≡ hash_of words.now }
{
    let mut hash = 0;
    let mut left = words;
    while let [a, b, c, d, rest @ ..] = left {
        hash = mix(hash, *a)
            .wrapping_add(b.wrapping_mul(0xC2B2AE3D27D4EB4F))
            .wrapping_add(c.wrapping_mul(0x165667B19E3779F9))
            .wrapping_add(d.wrapping_mul(0xD6E8FEB86659FD93));
        left = rest;
    }
    left.iter().fold(hash, |h, w| mix(h, *w))
}
