// The hash of a run of words by any hasher.
ghost use Rattle.std.specs.Prelude.{◌≡◌};
ghost use Rattle.hashing.specs.Words.{hash_by};

use crate::hasher::Hasher;

/// The hash of a run of words by a fresh hasher, the first word fed first.
pub fn hash_words<H: Hasher>(words: &[u64]) -> u64
    ensures { result ≡ hash_by H.Hasher words.now }
{
    // Kept: one hasher, which is fed in place; a `fold` would move its state, which may be large, once for each word.
    let mut hasher = H::fresh();
    for word in words {
        hasher.feed(*word);
    }
    hasher.end()
}
