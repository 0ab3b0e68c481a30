// The word-wise hasher: rotate, xor, multiply.
ghost use Rattle.std.specs.Prelude.{◌≡◌};
ghost use Rattle.hashing.specs.Rotating.{rotating_step};

use crate::hasher::Hasher;

const FACTOR: u64 = 0x517c_c1b7_2722_0a95;

/// Hashes word by word: quick, and with no promise against chosen words.
#[derive(Clone, Copy, Debug, PartialEq, Eq)]
pub struct Rotating {
    state: u64,
}

impl Hasher for Rotating {
    ghost begun = { record { state = 0 } };

    ghost fed = { λ s w. record { state = rotating_step s.state w } };

    ghost ended = { λ s. s.state };

    fn fresh() -> Rotating {
        Rotating { state: 0 }
    }

    fn feed(&mut self, word: u64) {
        self.state = (self.state.rotate_left(5) ^ word).wrapping_mul(FACTOR);
    }

    fn end(&self) -> u64 {
        self.state
    }
}
