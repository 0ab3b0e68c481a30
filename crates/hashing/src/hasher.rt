// The interface of a hasher.
ghost use Rattle.std.specs.Prelude.{◌≡◌, ℕ};

/// A hasher of 64-bit words.
///
/// Contract:
/// - `fresh` always gives one and the same state, `begun`.
/// - `feed` takes any 64-bit word, and leaves a state that is fixed by the old state and the word, `fed`.
/// - `end` gives a 64-bit word that is fixed by the state, `ended`. It leaves the state as it is.
///
/// So a hash depends on nothing but the words fed, in their order.
pub trait Hasher: Sized + Drop {
    // the state before any word
    ghost begun: { Self };

    // the state after one more word
    ghost fed: { Self → ℕ → Self };

    // the hash that a state stands for
    ghost ended: { Self → ℕ };

    fn fresh() -> Self
        ensures { result ≡ begun };

    fn feed(&mut self, word: u64)
        ensures { self.new ≡ fed self.old word };

    fn end(&self) -> u64
        ensures { result ≡ ended self.now };
}
