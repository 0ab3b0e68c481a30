// The byte-wise hasher: FNV-1a of 64 bits.
ghost use Rattle.std.specs.Prelude.{◌≡◌};
ghost use Rattle.hashing.specs.Fnv1a.{fnv1a_start, fnv1a_from, fnv1a_of, fnv1a_word, le_bytes_of};

use crate::hasher::Hasher;
use crate::words::hash_words;

const START: u64 = 0xcbf2_9ce4_8422_2325;

const PRIME: u64 = 0x0100_0000_01b3;

/// Hashes the eight bytes of each word, the lowest first.
// Kept: a type of its own, as `Rotating` is. The two are of different kind, and share no more than that each holds a word
// and ends with it.
#[derive(Clone, Copy, Debug, PartialEq, Eq)]
pub struct Fnv1a {
    state: u64,
}

impl Hasher for Fnv1a {
    ghost begun = { record { state = fnv1a_start } };

    ghost fed = { λ s w. record { state = fnv1a_word s.state w } };

    ghost ended = { λ s. s.state };

    fn fresh() -> Fnv1a {
        Fnv1a { state: START }
    }

    fn feed(&mut self, word: u64) {
        self.state = fold_bytes(self.state, &word.to_le_bytes());
    }

    fn end(&self) -> u64 {
        self.state
    }
}

/// The hash of bytes, the first byte first.
pub fn fnv1a_bytes(bytes: &[u8]) -> u64
    ensures { result ≡ fnv1a_of bytes.now }
{
    fold_bytes(START, bytes)
}

/// The hash of words: that of all their bytes in one run, the lowest byte of each word first.
pub fn fnv1a_words(words: &[u64]) -> u64
    ensures { result ≡ fnv1a_of (le_bytes_of words.now) }
{
    hash_words::<Fnv1a>(words)
}

// The state after bytes.
fn fold_bytes(state: u64, bytes: &[u8]) -> u64
    ensures { result ≡ fnv1a_from state bytes.now }
{
    bytes.iter().fold(state, |state, byte| {
        (state ^ u64::from(*byte)).wrapping_mul(PRIME)
    })
}
